//! Which fields a rewrite sets, and what it makes of one field of a match.
ghost use Rattle.std.specs.Prelude.{◌≡◌};
ghost use Rattle.of10_match.specs.Matching.{fits_by, fits_prefix as fits_prefix_of};
ghost use Rattle.of10_actions.specs.Rewriting.{is_tcp_udp as is_tcp_udp_of};
ghost use Rattle.pull_back.specs.Pulling.{names, set_fits as set_fits_of, set_in as set_in_of, sets_nw as sets_nw_of};
ghost use Rattle.pull_back.specs.Pulling.{sets_tp as sets_tp_of, unset as unset_of, whole};

use of10_match::{IPV4, Match, Prefix, TCP, UDP};

/// Whether a rewrite sets nw fields of the headers of a match.
pub(crate) fn sets_nw(m: &Match) -> bool
    ensures { result ≡ sets_nw_of m.now }
{
    match m.dl_type {
        Some(dl_type) => dl_type == IPV4,
        None => false,
    }
}

/// Whether a rewrite sets tp fields of the headers of a match.
pub(crate) fn sets_tp(m: &Match) -> bool
    ensures { result ≡ sets_tp_of m.now }
{
    sets_nw(m) && is_tcp_udp(m.nw_proto)
}

fn is_tcp_udp(nw_proto: Option<u8>) -> bool
    ensures { result ≡ names nw_proto is_tcp_udp_of }
{
    match nw_proto {
        Some(nw_proto) => nw_proto == TCP || nw_proto == UDP,
        None => false,
    }
}

/// Whether the value that is set, if one is, is the one that is asked for.
pub(crate) fn set_fits<T: PartialEq + Copy>(sets: bool, value: Option<T>, asked: Option<T>) -> bool
    ensures { result ≡ set_fits_of (fits_by T.eq) sets value asked }
{
    match (value, asked) {
        (Some(value), Some(asked)) => !sets || asked == value,
        _ => true,
    }
}

/// The same of an address, of which a prefix is asked for.
pub(crate) fn address_fits(sets: bool, value: Option<u32>, asked: Option<Prefix>) -> bool
    ensures { result ≡ set_fits_of fits_prefix_of sets value asked }
{
    match (value, asked) {
        (Some(value), Some(asked)) => !sets || asked.holds(value),
        _ => true,
    }
}

/// What is asked of a field before it is set.
pub(crate) fn unset<T: Copy, U: Copy>(sets: bool, value: Option<T>, asked: Option<U>) -> Option<U>
    ensures { result ≡ unset_of sets value asked }
{
    match value {
        Some(_) => if sets { None } else { asked },
        None => asked,
    }
}

/// What is known of a field once it is set.
pub(crate) fn set_in<T: Copy>(sets: bool, value: Option<T>, asked: Option<T>) -> Option<T>
    ensures { result ≡ set_in_of (λ v. v) sets value asked }
{
    match value {
        Some(value) => if sets { Some(value) } else { asked },
        None => asked,
    }
}

/// The same of an address, which is known whole.
pub(crate) fn address_in(sets: bool, value: Option<u32>, asked: Option<Prefix>) -> Option<Prefix>
    ensures { result ≡ set_in_of whole sets value asked }
{
    match value {
        Some(value) => if sets {
            Some(Prefix::from(value))
        } else {
            asked
        },
        None => asked,
    }
}
