//! What a grant refuses, and how a denial is shown.
use cv_io::{Duplicate, List, Memory};
use grants::{Denial, Detail, Grant, Why, check_flow, check_kind, check_out, sees_all};
use of10_actions::{Action, PortView, port};
use of10_match::{Header, Match};
use of10_msgs::{FlowMod, PacketOut};
use std::alloc::Global;
use std::test::Fail;

/// Each detail, as an audit line has it, with the type and the code of its ERROR.
const SHOWN: &[(Detail, &str)] = &[
    (Detail::Form { kind: 2, code: 1 }, "rule=form error=2,1 2,1"),
    (Detail::G1 { command: 5 }, "rule=G1 command=5 3,4"),
    (Detail::G2Emerg, "rule=G2 flag=emerg 3,2"),
    (Detail::G2Kind { kind: 15 }, "rule=G2 type=15 4,0"),
    (Detail::G2Kind { kind: 20 }, "rule=G2 type=20 1,5"),
    (Detail::G3 { buffer: 7 }, "rule=G3 buffer=7 1,8"),
    (Detail::G4 { field: 11 }, "rule=G4 field=tp_dst 3,2"),
    (Detail::G4 { field: 4 }, "rule=G4 field=dl_vlan_pcp 3,2"),
    (Detail::G5, "rule=G5 region=out 3,2"),
    (Detail::G6 { port: 3 }, "rule=G6 port=3 3,2"),
    (Detail::G7 { action: 4 }, "rule=G7 action=4 2,6"),
    (Detail::G8 { port: 65534 }, "rule=G8 port=65534 2,4"),
    (Detail::G9 { at: 0 }, "rule=G9 at=0 3,5"),
    (Detail::G10 { count: 65 }, "rule=G10 count=65 2,7"),
    (Detail::G11 { why: Why::Grant }, "rule=G11 why=grant 1,5"),
    (Detail::Overlap { with: 9 }, "rule=overlap with=9 3,1"),
    (
        Detail::Entries { limit: 1024 },
        "rule=entries limit=1024 3,0",
    ),
    (
        Detail::Budget { ranks: 7, limit: 6 },
        "rule=budget ranks=7 limit=6 3,0",
    ),
];

/// A denial and its error as text.
fn shown(alloc: Global, detail: Detail) -> Result<String, Fail> {
    let (kind, code) = detail.error();
    Ok(format!(in alloc; "{} {kind},{code}", Denial::of(detail))?)
}

#[test]
fn denials_are_shown_as_in_audit_lines(rt: HostRuntime) -> Result<(), Fail> {
    for (detail, want) in SHOWN {
        assert_eq!(rt; shown(rt.alloc(), *detail)?.as_str(), *want);
    }
    Ok(())
}

/// The ports 1 and 2, and the link port 8.
fn ports(alloc: Global) -> Result<PortView, Memory> {
    Ok(PortView {
        v: 0,
        outside: List::from_slice(alloc, &[1, 2])?,
        links: List::from_slice(alloc, &[8])?,
    })
}

/// A grant of dl_type and nw_dst up to 24 bits, and of output, pass and link, at these ports, everywhere.
fn grant(alloc: Global) -> Result<Grant, Memory> {
    Ok(Grant {
        fields: 0x220,
        src_max: 32,
        dst_max: 24,
        actions: 0xd,
        ports: ports(alloc)?,
        regions: List::from_slice(alloc, &[Match::everything()])?,
        misses: true,
        packet_out: true,
    })
}

/// What an answer says.
fn said(alloc: Global, answer: Result<(), Denial>) -> Result<String, Fail> {
    match answer {
        Ok(()) => Ok(format!(in alloc; "ok")?),
        Err(denial) => Ok(format!(in alloc; "{denial}")?),
    }
}

/// A FLOW_MOD of everything with two outputs.
fn flow(alloc: Global, command: u16, first: u16, last: u16) -> Result<FlowMod, Memory> {
    let to = |port| Action::Output { port, max_len: 0 };
    Ok(FlowMod {
        m: Match::everything().write(),
        cookie: 0,
        command,
        idle_timeout: 0,
        hard_timeout: 0,
        priority: 1,
        buffer_id: 0xffff_ffff,
        out_port: port::NONE,
        flags: 0,
        actions: List::from_slice(alloc, &[to(first), to(last)])?,
    })
}

/// A copy of the grant.
fn copied(alloc: Global) -> Result<Grant, Memory> {
    let granted = grant(alloc)?;
    granted.copy()
}

/// What the copy of the grant says to a FLOW_MOD.
fn judged(alloc: Global, m: &FlowMod) -> Result<Result<(), Denial>, Memory> {
    let seen = ports(alloc)?;
    let granted = copied(alloc)?;
    Ok(check_flow(&granted, &seen, m))
}

/// What a FLOW_MOD of everything with two outputs is answered.
fn flow_said(alloc: Global, command: u16, first: u16, last: u16) -> Result<String, Fail> {
    let m = flow(alloc, command, first, last)?;
    let answer = judged(alloc, &m);
    drop(m);
    said(alloc, answer?)
}

/// The command and the ports of each FLOW_MOD, and the answer.
const FLOWS: &[(u16, u16, u16, &str)] = &[
    (0, 1, 2, "ok"),
    (0, 1, 8, "ok"),
    (1, 8, 1, "rule=G9 at=0"),
    (2, 3, port::CONTROLLER, "rule=G7 action=0"),
    (0, port::NORMAL, 3, "rule=G8 port=3"),
    (0, port::ALL, port::NORMAL, "rule=G8 port=65532"),
    (3, 3, 3, "ok"),
    (5, 1, 1, "rule=G1 command=5"),
];

#[test]
fn flow_mods_are_checked(rt: HostRuntime) -> Result<(), Fail> {
    for (command, first, last, want) in FLOWS {
        assert_eq!(rt;
            flow_said(rt.alloc(), *command, *first, *last)?.as_str(),
            *want
        );
    }
    Ok(())
}

/// A header of a packet that comes by a port.
fn header(in_port: u16) -> Header {
    Header {
        in_port,
        dl_src: 1,
        dl_dst: 2,
        dl_vlan: 65535,
        dl_vlan_pcp: 0,
        dl_type: 0x0806,
        nw_tos: 0,
        nw_proto: 1,
        nw_src: 3,
        nw_dst: 4,
        tp_src: 0,
        tp_dst: 0,
    }
}

/// A PACKET_OUT to a port.
fn packet_out(alloc: Global, in_port: u16, to: u16) -> Result<PacketOut, Memory> {
    let action = Action::Output {
        port: to,
        max_len: 0,
    };
    Ok(PacketOut {
        buffer_id: 0xffff_ffff,
        in_port,
        actions: List::from_slice(alloc, &[action])?,
        bytes: List::new(alloc),
    })
}

/// What the grant says to a PACKET_OUT.
fn judged_out(alloc: Global, m: &PacketOut) -> Result<Result<(), Denial>, Memory> {
    let seen = ports(alloc)?;
    let granted = grant(alloc)?;
    Ok(check_out(&granted, &seen, m, &header(m.in_port)))
}

/// What a PACKET_OUT to a port is answered.
fn out_said(alloc: Global, in_port: u16, to: u16) -> Result<String, Fail> {
    let m = packet_out(alloc, in_port, to)?;
    let answer = judged_out(alloc, &m);
    drop(m);
    said(alloc, answer?)
}

/// The ports of each PACKET_OUT, and the answer.
const OUTS: &[(u16, u16, &str)] = &[
    (1, 2, "ok"),
    (1, port::TABLE, "ok"),
    (3, 2, "rule=G11 why=port"),
    (port::NONE, 2, "ok"),
    (port::NONE, port::TABLE, "rule=G11 why=port"),
];

#[test]
fn packet_outs_are_checked(rt: HostRuntime) -> Result<(), Fail> {
    for (in_port, to, want) in OUTS {
        assert_eq!(rt; out_said(rt.alloc(), *in_port, *to)?.as_str(), *want);
    }
    Ok(())
}

/// Whether the grant has all ports.
fn has_all(alloc: Global) -> Result<bool, Memory> {
    let seen = ports(alloc)?;
    let granted = grant(alloc)?;
    Ok(sees_all(&granted, &seen))
}

#[test]
fn kinds_are_checked(rt: HostRuntime) -> Result<(), Fail> {
    assert_eq!(rt;
        said(rt.alloc(), check_kind(15))?.as_str(),
        "rule=G2 type=15"
    );
    assert_eq!(rt; said(rt.alloc(), check_kind(14))?.as_str(), "ok");
    assert!(rt; has_all(rt.alloc())?);
    Ok(())
}
