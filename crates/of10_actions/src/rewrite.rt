//! Rewrites: new values of some fields.
ghost use Rattle.std.specs.Prelude.{◌≡◌};
ghost use Rattle.of10_actions.specs.Rewriting.{and_then, apply as apply_of, has_tcp_udp as has_tcp_udp_of, no_rewrite};
ghost use Rattle.of10_actions.specs.Rewriting.{set_value};

use cv_io::{Duplicate, Memory};
use of10_match::{Header, IPV4, TCP, UDP};
use std::marker::Model;

/// New values of some fields. An Ethernet address is below 2^48, and nw_tos a multiple of 4.
#[derive(Clone, Copy, PartialEq, Eq, Debug)]
pub struct Rewrite {
    pub dl_src: Option<u64>,
    pub dl_dst: Option<u64>,
    pub nw_src: Option<u32>,
    pub nw_dst: Option<u32>,
    pub nw_tos: Option<u8>,
    pub tp_src: Option<u16>,
    pub tp_dst: Option<u16>,
}

impl Model for Rewrite {
    ghost use Rattle.of10_actions.specs.Fields.{RewriteOf};

    ghost Value = { RewriteOf };

    ghost use Rattle.of10_actions.specs.Ranges.{rewrite_view, rewrite_inside, RewriteInRange};

    ghost view = { rewrite_view };

    ghost invariant = { RewriteInRange };

    ghost inverse = { rewrite_inside };
}

impl Duplicate for Rewrite {
    fn copy(&self) -> Result<Rewrite, Memory> {
        Ok(*self)
    }
}

impl Rewrite {
    /// The rewrite that sets nothing.
    pub fn new() -> Self
        ensures { result ≡ no_rewrite }
    {
        Rewrite {
            dl_src: None,
            dl_dst: None,
            nw_src: None,
            nw_dst: None,
            nw_tos: None,
            tp_src: None,
            tp_dst: None,
        }
    }

    /// This rewrite and then the next, which wins where both set a field.
    pub fn then(&self, next: &Rewrite) -> Rewrite
        ensures { result ≡ and_then self.now next.now }
    {
        Rewrite {
            dl_src: next.dl_src.or(self.dl_src),
            dl_dst: next.dl_dst.or(self.dl_dst),
            nw_src: next.nw_src.or(self.nw_src),
            nw_dst: next.nw_dst.or(self.nw_dst),
            nw_tos: next.nw_tos.or(self.nw_tos),
            tp_src: next.tp_src.or(self.tp_src),
            tp_dst: next.tp_dst.or(self.tp_dst),
        }
    }

    /// The header after the rewrite. Fields of nw are set in IPv4 alone, fields of tp in TCP and UDP
    /// over IPv4 alone.
    pub fn apply(&self, header: &Header) -> Header
        ensures { result ≡ apply_of self.now header.now }
    {
        let ip = header.dl_type == IPV4;
        let ports = has_tcp_udp(header.dl_type, header.nw_proto);
        Header {
            dl_src: set(true, self.dl_src, header.dl_src),
            dl_dst: set(true, self.dl_dst, header.dl_dst),
            nw_tos: set(ip, self.nw_tos, header.nw_tos),
            nw_src: set(ip, self.nw_src, header.nw_src),
            nw_dst: set(ip, self.nw_dst, header.nw_dst),
            tp_src: set(ports, self.tp_src, header.tp_src),
            tp_dst: set(ports, self.tp_dst, header.tp_dst),
            ..*header
        }
    }
}

/// Whether a packet has ports of TCP or UDP, which a rewrite sets.
fn has_tcp_udp(dl_type: u16, nw_proto: u8) -> bool
    ensures { result ≡ has_tcp_udp_of dl_type nw_proto }
{
    dl_type == IPV4 && (nw_proto == TCP || nw_proto == UDP)
}

/// The value after one that replaces it, where the test says so.
fn set<T: Copy>(sets: bool, value: Option<T>, old: T) -> T
    ensures { result ≡ set_value sets value old }
{
    match value {
        Some(new) => if sets { new } else { old },
        None => old,
    }
}
