//! Lists of actions as bytes, and what they do.
ghost use Rattle.of10_actions.specs.Actions.{AreInRange};
ghost use Rattle.of10_actions.specs.Ports.{AreRising};
ghost use Rattle.std.specs.Prelude.{◌≤◌, ◌<◌, ◌^◌, length};

use cv_io::List;
use of10_actions::meaning::effects;
use of10_actions::{
    Action, ActionFault, Dest, Effects, Out, PortView, Rewrite, Tail, list_length, read_list,
    write_list,
};
use of10_match::Header;
use std::alloc::Global;
use std::process::Abort;
use std::test::*;

mod vectors;

/// Sets nw_dst to 2.0.0.1, and outputs to port 1.
const WORKED: [u8; 16] = [0, 7, 0, 8, 2, 0, 0, 1, 0, 0, 0, 8, 0, 1, 0, 0];

/// Outputs to port 1.
const GOOD: [u8; 8] = [0, 0, 0, 8, 0, 1, 0, 0];

/// FLOOD, SET_NW_TOS 4, ALL, IN_PORT, CONTROLLER, an unknown port, NORMAL, and what isn't reached.
const FLOODS: [u8; 64] = [
    0, 0, 0, 8, 0xff, 0xfb, 0, 0, 0, 8, 0, 8, 4, 0, 0, 0, 0, 0, 0, 8, 0xff, 0xfc, 0, 0, 0, 0, 0, 8,
    0xff, 0xf8, 0, 0, 0, 0, 0, 8, 0xff, 0xfd, 0, 64, 0, 0, 0, 8, 0, 3, 0, 0, 0, 0, 0, 8, 0xff,
    0xfa, 0, 0, 0, 0, 0, 8, 0, 1, 0, 0,
];

/// nw_dst 10.0.0.1, tp_dst 80, output 1, nw_dst 10.0.0.2, output 2.
const SETS: [u8; 40] = [
    0, 7, 0, 8, 10, 0, 0, 1, 0, 10, 0, 8, 0, 80, 0, 0, 0, 0, 0, 8, 0, 1, 0, 0, 0, 7, 0, 8, 10, 0,
    0, 2, 0, 0, 0, 8, 0, 2, 0, 0,
];

/// Outside ports, and link port 9.
fn ports(alloc: Global, outside: &[u16]) -> Result<PortView, Fail> {
    let outside = List::from_slice(alloc, outside)?;
    let links = List::from_slice(alloc, &[9])?;
    Ok(PortView {
        v: 7,
        outside,
        links,
    })
}

/// The effects of written actions for member 3.
fn effects_of(alloc: Global, bytes: &[u8], ports: &PortView) -> Result<Effects, Fail>
    requires fits { length bytes.now < 2 ^ 32 }
    requires rising { AreRising ports.now }
{
    let list = read_list(alloc, bytes)?;
    let found = effects(alloc, &list, ports, 3);
    drop(list);
    Ok(found?)
}

/// The effects for member 3 at these outside ports, or none where the ports do not rise.
fn effects_at(alloc: Global, bytes: &[u8], outside: &[u16]) -> Result<Option<Effects>, Fail>
    requires { length bytes.now < 2 ^ 32 }
{
    let ports = ports(alloc, outside)?;
    if ports.is_rising() {
        let found = effects_of(alloc, bytes, &ports);
        drop(ports);
        Ok(Some(found?))
    } else {
        Ok(None)
    }
}

/// Whether a list is written as these bytes.
fn is_written(alloc: Global, list: &List<Action>, right: &[u8]) -> Result<bool, Fail>
    requires { AreInRange list.now }
{
    let bytes = write_list(alloc, list)?;
    let same = bytes.as_slice() == right;
    drop(bytes);
    Ok(same)
}

/// Whether the bytes on the left are read as the actions, how many bytes these have, and whether they
/// are written as those on the right.
fn read_and_written(
    alloc: Global,
    left: &[u8],
    right: &[u8],
    actions: &[Action],
) -> Result<(bool, usize, bool), Fail>
    requires { length left.now < 2 ^ 32 }
{
    let list = read_list(alloc, left)?;
    let found = (list.as_slice() == actions, list_length(&list));
    let written = is_written(alloc, &list, right);
    drop(list);
    Ok((found.0, found.1, written?))
}

/// The bytes on the left are read as the actions, which are written as those on the right.
fn are_read_and_written(
    rt: &(impl Abort + AllocGlobal),
    left: &[u8],
    right: &[u8],
    actions: &[Action],
) -> Result<(), Fail>
    requires { length left.now < 2 ^ 32 }
{
    let found = read_and_written(rt.alloc(), left, right, actions)?;
    assert_eq!(rt; found, (true, right.len(), true));
    Ok(())
}

#[test]
fn the_worked_actions(rt: HostRuntime) -> Result<(), Fail> {
    let want = [
        Action::SetNwDst {
            address: 0x0200_0001,
        },
        Action::Output {
            port: 1,
            max_len: 0,
        },
    ];
    are_read_and_written(&rt, &WORKED, &WORKED, &want)
}

/// The first bytes on both sides are those of the action.
fn is_read_and_written(
    rt: &(impl Abort + AllocGlobal),
    ones: &[u8; 16],
    zeros: &[u8; 16],
    action: Action,
) -> Result<(), Fail> {
    let length = usize::from(action.kind().length()).min(16);
    are_read_and_written(rt, &ones[..length], &zeros[..length], &[action])
}

#[test]
fn each_kind_is_read_and_written(rt: HostRuntime) -> Result<(), Fail> {
    for (ones, zeros, action) in &vectors::KINDS {
        is_read_and_written(&rt, ones, zeros, *action)?;
    }
    Ok(())
}

fn moved(fault: ActionFault, place: u32) -> ActionFault {
    match fault {
        ActionFault::BadType { .. } => ActionFault::BadType { at: place },
        ActionFault::BadLen { .. } => ActionFault::BadLen { at: place },
        ActionFault::BadArgument { .. } => ActionFault::BadArgument { at: place },
        ActionFault::BadVendor { .. } => ActionFault::BadVendor { at: place },
        ActionFault::Memory => ActionFault::Memory,
    }
}

/// Three actions, of which one has these bytes, and the others are good.
fn with_bytes_at(bytes: &[u8; 8], place: u32) -> [u8; 24]
    requires { place ≤ 16 }
{
    let mut list = [0; 24];
    for (i, byte) in list.iter_mut().enumerate() {
        *byte = GOOD[i % 8];
    }
    for (i, byte) in bytes.iter().enumerate() {
        if i < 8 {
            list[place as usize + i] = *byte;
        }
    }
    list
}

#[test]
fn each_fault_at_each_place(rt: HostRuntime) {
    for (name, bytes, fault) in &vectors::FAULTS {
        for place in [0u32, 8, 16] {
            let found = read_list(rt.alloc(), &with_bytes_at(bytes, place)).err();
            assert_eq!(rt; found, Some(moved(*fault, place)), "{name} at {place}");
        }
    }
}

/// The bytes end before the action at a place does.
fn is_cut(rt: &(impl Abort + AllocGlobal), bytes: &[u8], at: u32)
    requires { length bytes.now < 2 ^ 32 }
{
    let fault = read_list(rt.alloc(), bytes).err();
    assert_eq!(rt; fault, Some(ActionFault::BadLen { at }));
}

#[test]
fn cut_lists(rt: HostRuntime) {
    for length in [1, 3, 4, 7] {
        is_cut(&rt, &GOOD[..length], 0);
    }
    for length in [9, 12, 15] {
        is_cut(&rt, &WORKED[..length], 8);
    }
    assert!(rt; read_list(rt.alloc(), &[]).is_ok());
}

/// Whether the actions have these outs and this tail.
fn has_effects(alloc: Global, bytes: &[u8], outs: &[Out], tail: Tail) -> Result<bool, Fail>
    requires { length bytes.now < 2 ^ 32 }
{
    let found = effects_at(alloc, bytes, &[1, 2, 4, 5])?;
    let outs = List::from_slice(alloc, outs)?;
    Ok(found == Some(Effects { outs, tail }))
}

fn to_port(rewrite: Rewrite, port: u16) -> Out {
    Out {
        rewrite,
        dest: Dest::Port { v: 7, port },
    }
}

fn to_flood(rewrite: Rewrite, port: u16) -> Out {
    Out {
        rewrite,
        dest: Dest::Flood { v: 7, port },
    }
}

#[test]
fn effects_of_lists(rt: HostRuntime) -> Result<(), Fail> {
    let none = Rewrite::new();
    let server = Rewrite {
        nw_dst: Some(0x0200_0001),
        ..none
    };
    let first = Rewrite {
        nw_dst: Some(0x0a00_0001),
        tp_dst: Some(80),
        ..none
    };
    let second = Rewrite {
        nw_dst: Some(0x0a00_0002),
        ..first
    };
    let sets = [to_port(first, 1), to_port(second, 2)];
    let link = [0, 0, 0, 8, 0, 9, 0, 0];
    let alloc = rt.alloc();
    assert!(rt; has_effects(alloc, &WORKED, &[to_port(server, 1)], Tail::Nothing)?);
    assert!(rt; has_effects(alloc, &SETS, &sets, Tail::Nothing)?);
    assert!(rt; has_effects(alloc, &link, &[], Tail::Link(none, 9))?);
    Ok(())
}

#[test]
fn floods_go_by_rising_ports(rt: HostRuntime) -> Result<(), Fail> {
    let none = Rewrite::new();
    let tos = Rewrite {
        nw_tos: Some(4),
        ..none
    };
    let told = Dest::Tell {
        member: 3,
        reason: 1,
    };
    let outs = [
        to_flood(none, 1),
        to_flood(none, 2),
        to_flood(none, 4),
        to_flood(none, 5),
        to_flood(tos, 1),
        to_flood(tos, 2),
        to_flood(tos, 4),
        to_flood(tos, 5),
        Out {
            rewrite: tos,
            dest: Dest::Ingress,
        },
        Out {
            rewrite: tos,
            dest: told,
        },
    ];
    assert!(rt; has_effects(rt.alloc(), &FLOODS, &outs, Tail::Pass(tos))?);
    assert_eq!(rt; effects_at(rt.alloc(), &FLOODS, &[1, 1])?, None);
    assert_eq!(rt; effects_at(rt.alloc(), &FLOODS, &[4, 2])?, None);
    Ok(())
}

#[test]
fn fields_that_a_packet_has(rt: HostRuntime) {
    let rewrite = Rewrite {
        dl_dst: Some(9),
        nw_dst: Some(0x0a00_0002),
        tp_dst: Some(80),
        ..Rewrite::new()
    };
    // dl_type, nw_proto, and whether nw and tp fields are set
    for (dl_type, nw_proto, nw, tp) in [
        (0x0800, 6, true, true),
        (0x0800, 17, true, true),
        (0x0800, 1, true, false),
        (0x0806, 1, false, false),
        (0x0806, 6, false, false),
        (0x86dd, 6, false, false),
    ] {
        let header = Header {
            in_port: 1,
            dl_src: 1,
            dl_dst: 2,
            dl_vlan: 0xffff,
            dl_vlan_pcp: 0,
            dl_type,
            nw_tos: 0,
            nw_proto,
            nw_src: 3,
            nw_dst: 4,
            tp_src: 5,
            tp_dst: 6,
        };
        let want = Header {
            dl_dst: 9,
            nw_dst: if nw { 0x0a00_0002 } else { 4 },
            tp_dst: if tp { 80 } else { 6 },
            ..header
        };
        assert_eq!(rt; rewrite.apply(&header), want, "{dl_type} {nw_proto}");
    }
}
