//! Headers and matches as text, in the form of `ovs-ofctl`.
use crate::header::{Header, Match, Prefix};
use std::fmt;
use std::net::Ipv4Addr;

/// An Ethernet address in its six bytes.
#[derive(Clone, Copy)]
struct Ethernet(u64);

/// A dl_type.
#[derive(Clone, Copy)]
struct EtherType(u16);

impl fmt::Display for Ethernet {
    fn fmt<W: fmt::Write>(&self, f: &mut fmt::Formatter<W>) -> fmt::Result {
        let [_, _, a, b, c, d, e, g] = self.0.to_be_bytes();
        write!(f, "{a:02x}:{b:02x}:{c:02x}:{d:02x}:{e:02x}:{g:02x}")
    }
}

impl fmt::Display for EtherType {
    fn fmt<W: fmt::Write>(&self, f: &mut fmt::Formatter<W>) -> fmt::Result {
        let value = self.0;
        write!(f, "0x{value:04x}")
    }
}

/// Writes a prefix as `10.0.0.0/8`, and a whole address without its length.
impl fmt::Display for Prefix {
    fn fmt<W: fmt::Write>(&self, f: &mut fmt::Formatter<W>) -> fmt::Result {
        let address = Ipv4Addr::from(self.addr);
        let len = self.len;
        if len == 32 {
            write!(f, "{address}")
        } else {
            write!(f, "{address}/{len}")
        }
    }
}

/// Writes the twelve fields as `in_port=1,dl_src=00:00:00:00:00:01,..`.
impl fmt::Display for Header {
    fn fmt<W: fmt::Write>(&self, f: &mut fmt::Formatter<W>) -> fmt::Result {
        let exact = Match {
            in_port: Some(self.in_port),
            dl_src: Some(self.dl_src),
            dl_dst: Some(self.dl_dst),
            dl_vlan: Some(self.dl_vlan),
            dl_vlan_pcp: Some(self.dl_vlan_pcp),
            dl_type: Some(self.dl_type),
            nw_tos: Some(self.nw_tos),
            nw_proto: Some(self.nw_proto),
            nw_src: Some(Prefix::from(self.nw_src)),
            nw_dst: Some(Prefix::from(self.nw_dst)),
            tp_src: Some(self.tp_src),
            tp_dst: Some(self.tp_dst),
        };
        exact.fmt(f)
    }
}

/// Writes one field of a list that begins here or goes on, and says whether it still begins.
fn field<W: fmt::Write, T: fmt::Display + Drop>(
    f: &mut fmt::Formatter<W>,
    begins: bool,
    name: &str,
    value: Option<T>,
) -> Result<bool, fmt::Error> {
    let Some(value) = value else {
        return Ok(begins);
    };
    if !begins {
        f.write_str(",")?;
    }
    write!(f, "{name}={value}")?;
    Ok(false)
}

/// Writes the fields that the match names, as `in_port=1,nw_dst=10.0.0.0/8`, and `*` where it names
/// none.
impl fmt::Display for Match {
    fn fmt<W: fmt::Write>(&self, f: &mut fmt::Formatter<W>) -> fmt::Result {
        let begins = field(f, true, "in_port", self.in_port)?;
        let begins = field(f, begins, "dl_src", self.dl_src.map(Ethernet))?;
        let begins = field(f, begins, "dl_dst", self.dl_dst.map(Ethernet))?;
        let begins = field(f, begins, "dl_vlan", self.dl_vlan)?;
        let begins = field(f, begins, "dl_vlan_pcp", self.dl_vlan_pcp)?;
        let begins = field(f, begins, "dl_type", self.dl_type.map(EtherType))?;
        let begins = field(f, begins, "nw_tos", self.nw_tos)?;
        let begins = field(f, begins, "nw_proto", self.nw_proto)?;
        let begins = field(f, begins, "nw_src", self.nw_src)?;
        let begins = field(f, begins, "nw_dst", self.nw_dst)?;
        let begins = field(f, begins, "tp_src", self.tp_src)?;
        let begins = field(f, begins, "tp_dst", self.tp_dst)?;
        if begins { f.write_str("*") } else { Ok(()) }
    }
}
