//! Lines of explanations, and the entry that a switch uses.
use cv_io::List;
use explain_path::LeafTrace;
use explain_text::{Finding, finding_line, used_for};
use install_plan::Written;
use of10_actions::Rewrite;
use of10_match::Match;
use pkt_bytes::header_of;
use policies::Policy;
use policy_file::built_in;
use std::alloc::Global;
use std::test::*;
use switch_meaning::PhysEntry;

/// A packet of UDP from 10.0.0.1 to 1.2.3.4.
const PACKET: [u8; 42] = [
    0x00, 0x00, 0x00, 0x00, 0x00, 0x02, 0x00, 0x00, 0x00, 0x00, 0x00, 0x01, 0x08, 0x00, 0x45, 0x00,
    0x00, 0x1c, 0x00, 0x00, 0x00, 0x00, 0x40, 0x11, 0x6c, 0xcb, 0x0a, 0x00, 0x00, 0x01, 0x01, 0x02,
    0x03, 0x04, 0x13, 0x88, 0x00, 0x35, 0x00, 0x08, 0xde, 0x1a,
];

/// A member that was asked.
fn asked(kind: u64, used: bool) -> Finding {
    Finding::Leaf {
        leaf: LeafTrace {
            member: 0,
            kind,
            used,
        },
    }
}

/// The packet leaves by a port, on its way to 2.0.0.1.
fn leaving() -> Finding {
    Finding::Out {
        switch: 0,
        port: 2,
        rewrite: Rewrite {
            nw_dst: Some(0x0200_0001),
            ..Rewrite::new()
        },
    }
}

/// The line of a finding, over a policy.
fn shown_over(alloc: Global, policy: &Policy, finding: &Finding) -> Result<String, Fail> {
    let line = finding_line(alloc, policy, PACKET.as_slice(), finding)?;
    Ok(format!(in alloc; "{line}")?)
}

/// The line of a finding, over the built-in policy, which is dropped before a test compares.
fn shown(alloc: Global, finding: &Finding) -> Result<String, Fail> {
    let policy = built_in(alloc)?;
    let shown = shown_over(alloc, &policy, finding);
    drop(policy);
    shown
}

#[test]
fn lines_of_findings(rt: HostRuntime) -> Result<(), Fail> {
    let line = shown(rt.alloc(), &asked(3, true))?;
    assert_eq!(rt; line.as_str(), "leaf ctl=app kind=entry serial=1 used=yes");
    Ok(())
}

#[test]
fn the_line_of_a_packet_that_leaves(rt: HostRuntime) -> Result<(), Fail> {
    let line = shown(rt.alloc(), &leaving())?;
    let want =
        "out s1:2 00000000000200000000000108004500001c0000000040116ed00a00000102000001138800350008e01f";
    assert_eq!(rt; line.as_str(), want);
    Ok(())
}

/// An entry for all packets that stands on a switch.
fn standing(alloc: Global, priority: u16, cookie: u64) -> Written {
    let entry = PhysEntry {
        m: Match::everything(),
        priority,
        actions: List::new(alloc),
        ancestry: List::new(alloc),
    };
    Written { entry, cookie }
}

#[test]
fn the_highest_entry_is_used(rt: HostRuntime) -> Result<(), Fail> {
    let entries = [
        standing(rt.alloc(), 2, 7),
        standing(rt.alloc(), 5, 9),
        standing(rt.alloc(), 5, 8),
    ];
    let header = header_of(PACKET.as_slice(), 1);
    let cookie = used_for(entries.as_slice(), &header).map_or(0, |used| used.cookie);
    assert_eq!(rt; cookie, 8);
    Ok(())
}
