//! Matches as bytes, and which headers they hold.
ghost use Rattle.std.specs.Prelude.{◌≤◌};

use of10_match::ofp_match::wildcard;
use of10_match::{Header, IPV4, Match, OfpMatch, UNTAGGED, read};
use std::cmp::Ordering;
use std::process::Abort;
use std::test::*;

const EVERYTHING: [u8; 40] = [
    0x00, 0x38, 0x20, 0xff, 0, 0, 0, 0, 0, 0, 0, 0, 0, 0, 0, 0, 0, 0, 0, 0, 0, 0, 0, 0, 0, 0, 0, 0,
    0, 0, 0, 0, 0, 0, 0, 0, 0, 0, 0, 0,
];

const PORT: [u8; 40] = [
    0x00, 0x38, 0x20, 0xfe, 0, 1, 0, 0, 0, 0, 0, 0, 0, 0, 0, 0, 0, 0, 0, 0, 0, 0, 0, 0, 0, 0, 0, 0,
    0, 0, 0, 0, 0, 0, 0, 0, 0, 0, 0, 0,
];

const UNTAGGED_PORT: [u8; 40] = [
    0x00, 0x38, 0x20, 0xfc, 0, 1, 0, 0, 0, 0, 0, 0, 0, 0, 0, 0, 0, 0, 0xff, 0xff, 0, 0, 0, 0, 0, 0,
    0, 0, 0, 0, 0, 0, 0, 0, 0, 0, 0, 0, 0, 0,
];

const HOST: [u8; 40] = [
    0x00, 0x30, 0x20, 0xee, 0, 1, 0, 0, 0, 0, 0, 0, 0, 0, 0, 0, 0, 0, 0, 0, 0, 0, 0x08, 0x00, 0, 0,
    0, 0, 0, 0, 0, 0, 10, 0, 0, 1, 0, 0, 0, 0,
];

const NETWORK: [u8; 40] = [
    0x00, 0x38, 0x18, 0xef, 0, 0, 0, 0, 0, 0, 0, 0, 0, 0, 0, 0, 0, 0, 0, 0, 0, 0, 0x08, 0x00, 0, 0,
    0, 0, 10, 0, 0, 0, 0, 0, 0, 0, 0, 0, 0, 0,
];

// The match of a rule that a learning controller writes with no wildcard, and what is written of it.
const LEARNED: [u8; 40] = [
    0x00, 0x00, 0x00, 0x00, 0, 1, 0, 0, 0, 0, 0, 1, 0, 0, 0, 0, 0, 2, 0xff, 0xff, 0, 0, 0x08, 0x00,
    0, 1, 0, 0, 10, 0, 0, 1, 10, 0, 0, 2, 0, 8, 0, 0,
];

const LEARNED_SENT: [u8; 40] = [
    0x00, 0x10, 0x00, 0x00, 0, 1, 0, 0, 0, 0, 0, 1, 0, 0, 0, 0, 0, 2, 0xff, 0xff, 0, 0, 0x08, 0x00,
    0, 1, 0, 0, 10, 0, 0, 1, 10, 0, 0, 2, 0, 8, 0, 0,
];

// Every field is written, some beside a dl_type that they do not go with or with bits that do not
// count, and the padding is not zero.
const ARP: [u8; 40] = [
    0x00, 0x00, 0x08, 0x00, 0, 2, 0, 0, 0, 0, 0, 1, 0, 0, 0, 0, 0, 2, 0xf0, 0x05, 0x0b, 9, 0x08,
    0x06, 0xff, 6, 9, 9, 10, 0, 1, 1, 10, 0, 0, 2, 0, 80, 0, 80,
];

const ARP_SENT: [u8; 40] = [
    0x00, 0x20, 0x08, 0xc0, 0, 2, 0, 0, 0, 0, 0, 1, 0, 0, 0, 0, 0, 2, 0x00, 0x05, 0x03, 0, 0x08,
    0x06, 0, 6, 0, 0, 10, 0, 1, 0, 10, 0, 0, 2, 0, 0, 0, 0,
];

/// A match as text.
fn is_shown(rt: &(impl Abort + AllocGlobal), m: &Match, want: &str) -> Result<(), Fail> {
    let shown = m.to_string(rt.alloc())?;
    assert_eq!(rt; shown.as_str(), want);
    Ok(())
}

/// Bytes are read as the match of a text, exact or not, and written as others.
fn reads_and_writes(
    rt: &(impl Abort + AllocGlobal),
    bytes: &[u8; 40],
    exact: bool,
    text: &str,
    sent: &[u8; 40],
) -> Result<(), Fail> {
    let read = read(bytes);
    is_shown(rt, &read.normal, text)?;
    assert_eq!(rt; read.exact, exact, "{text}");
    assert_eq!(rt; read.normal.write(), *sent, "{text}");
    Ok(())
}

#[test]
fn reads_and_writes_worked_bytes(rt: HostRuntime) -> Result<(), Fail> {
    let learned = "in_port=1,dl_src=00:00:00:00:00:01,dl_dst=00:00:00:00:00:02,dl_vlan=65535,\
                   dl_type=0x0800,nw_tos=0,nw_proto=1,nw_src=10.0.0.1,nw_dst=10.0.0.2,tp_src=8,tp_dst=0";
    let arp = "in_port=2,dl_src=00:00:00:00:00:01,dl_dst=00:00:00:00:00:02,dl_vlan=5,\
               dl_vlan_pcp=3,dl_type=0x0806,nw_proto=6,nw_src=10.0.1.0/24,nw_dst=10.0.0.2";
    let table = [
        (EVERYTHING, false, "*", EVERYTHING),
        (PORT, false, "in_port=1", PORT),
        (
            UNTAGGED_PORT,
            false,
            "in_port=1,dl_vlan=65535",
            UNTAGGED_PORT,
        ),
        (
            HOST,
            false,
            "in_port=1,dl_type=0x0800,nw_dst=10.0.0.1",
            HOST,
        ),
        (NETWORK, false, "dl_type=0x0800,nw_src=10.0.0.0/8", NETWORK),
        (LEARNED, true, learned, LEARNED_SENT),
        (LEARNED_SENT, false, learned, LEARNED_SENT),
        (ARP, false, arp, ARP_SENT),
    ];
    for (bytes, exact, text, sent) in table {
        reads_and_writes(&rt, &bytes, exact, text, &sent)?;
    }
    Ok(())
}

/// The IPv4 packets to the addresses that begin with the first `len` bits of this one, as they are read.
fn to(addr: u32, len: u32) -> Match
    requires { len ≤ 32 }
{
    let open = wildcard::ALL - (1 << wildcard::DL_TYPE) - (63 << wildcard::NW_DST);
    let fields = OfpMatch {
        wildcards: open | (32 - len) << wildcard::NW_DST,
        dl_type: IPV4,
        nw_dst: addr,
        ..OfpMatch::from_bytes(&EVERYTHING)
    };
    read(&fields.to_bytes()).normal
}

/// What a match has in common with another, and whether it covers it.
fn compare(rt: &impl Abort, a: &Match, b: &Match, meet: Option<&Match>, covers: bool) {
    let found = (a.meet(b).as_ref() == meet, a.overlaps(b), a.covers(b));
    assert_eq!(rt; found, (true, meet.is_some(), covers), "{a} and {b}");
}

#[test]
fn meets_of_prefixes(rt: HostRuntime) {
    let ten = to(0x0a00_0000, 8);
    let ten_one = to(0x0a01_0000, 16);
    let eleven = to(0x0b00_0000, 8);
    let host = to(0x0a01_0203, 32);
    let pair = to(0x0a01_0202, 31);
    let other_pair = to(0x0a01_0204, 31);
    let lower = to(0, 1);
    let upper = to(0x8000_0000, 1);
    let all = to(0, 0);
    let table = [
        (ten, ten_one, Some(ten_one), true, false),
        (ten, ten, Some(ten), true, true),
        (ten, eleven, None, false, false),
        (all, eleven, Some(eleven), true, false),
        (all, all, Some(all), true, true),
        (pair, host, Some(host), true, false),
        (other_pair, host, None, false, false),
        (ten_one, pair, Some(pair), true, false),
        (lower, upper, None, false, false),
        (lower, ten, Some(ten), true, false),
    ];
    for (a, b, meet, covers, covered) in table {
        compare(&rt, &a, &b, meet.as_ref(), covers);
        compare(&rt, &b, &a, meet.as_ref(), covered);
    }
}

#[test]
fn shows_headers(rt: HostRuntime) -> Result<(), Fail> {
    let header = Header {
        in_port: 1,
        dl_src: 0x0200_0000_000a,
        dl_dst: 0xffff_ffff_ffff,
        dl_vlan: UNTAGGED,
        dl_vlan_pcp: 0,
        dl_type: 0x0800,
        nw_tos: 184,
        nw_proto: 17,
        nw_src: 0x0a00_0001,
        nw_dst: 0xc0a8_0102,
        tp_src: 68,
        tp_dst: 67,
    };
    assert_eq!(rt;
        header.to_string(rt.alloc())?.as_str(),
        "in_port=1,dl_src=02:00:00:00:00:0a,dl_dst=ff:ff:ff:ff:ff:ff,dl_vlan=65535,dl_vlan_pcp=0,\
         dl_type=0x0800,nw_tos=184,nw_proto=17,nw_src=10.0.0.1,nw_dst=192.168.1.2,tp_src=68,tp_dst=67"
    );
    assert!(rt; to(0xc0a8_0100, 24).holds(&header));
    assert!(rt; !to(0xc0a8_0200, 24).holds(&header));
    assert_eq!(rt; to(0, 1).cmp_bytes(&to(0, 2)), Ordering::Greater);
    Ok(())
}
