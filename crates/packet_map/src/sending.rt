//! What members send: a PACKET_OUT's actions, and what the policy gives where it takes the packet up.
ghost use Rattle.std.specs.Prelude.{◌≡◌, IfOk, OnOk, slice_get};
ghost use Rattle.of10_actions.specs.Actions.{AreInRange};
ghost use Rattle.of10_actions.specs.Rewriting.{no_rewrite};
ghost use Rattle.grants.specs.Rows.{is_to_table as is_to_table_of};
ghost use Rattle.packet_map.specs.Networks.{SeeRising, links_of};
ghost use Rattle.packet_map.specs.Sending.{ingress_of, sent_of, table_from, taken_up as taken_up_of};

use crate::emitting::{Gate, add_outs};
use crate::hop::{Hop, arriving};
use crate::walking::{follow, nowhere};
use crate::world::World;
use cv_io::Memory;
use of10_actions::meaning::effects;
use of10_actions::port::{MAX, TABLE};
use of10_actions::{Action, Rewrite, Tail};
use of10_match::Header;
use of10_msgs::PacketOut;
use policy_meaning::{Onward, Place, Walked};
use std::alloc::Global;

/// The port by which a packet comes, if the number is one of a port.
fn ingress(in_port: u16) -> Option<u16>
    ensures { result ≡ ingress_of in_port }
{
    if in_port < MAX { Some(in_port) } else { None }
}

/// Whether an action is an output to TABLE.
fn is_to_table(action: &Action) -> bool
    ensures { result ≡ is_to_table_of action.now }
{
    matches!(action, Action::Output { port: TABLE, .. })
}

/// The rewrite in force at an output to TABLE, if there is one.
fn table_rewrite(actions: &[Action]) -> Option<Rewrite>
    requires { AreInRange actions.now }
    ensures { result ≡ table_from no_rewrite actions.now }
{
    let mut rewrite = Rewrite::new();
    for action in actions {
        if is_to_table(action) {
            return Some(rewrite);
        }
        rewrite = rewrite.then(&action.rewrite());
    }
    None
}

/// Where the policy takes the packet up: beyond the link that the tail names, or at the in_port.
fn taken_up(world: &World, v: u32, tail: &Tail, m: &PacketOut) -> Option<Onward>
    requires { AreInRange m.now.actions }
    ensures { result ≡ taken_up_of (links_of world.now.topology.now v) v tail.now m.now }
{
    if let Some(on) = world.onward(v, tail, m.in_port) {
        return Some(on);
    }
    let rewrite = table_rewrite(m.actions.as_slice())?;
    Some(Onward {
        rewrite,
        place: Place { v, port: m.in_port },
    })
}

/// What a PACKET_OUT of a member gives whose data has this header: its actions are done as if the packet
/// had come by its in_port, by none where that is no port's number, and where the list ends at a link port
/// or at TABLE, the policy takes the packet up. Tellings carry the in_port as it was given. A member that
/// isn't there sends nothing.
pub fn sent(
    alloc: Global,
    world: &World,
    member: u32,
    m: &PacketOut,
    h: &Header,
) -> Result<Walked, Memory>
    requires rising { SeeRising world.now }
    requires in_range { AreInRange m.now.actions }
    ensures { IfOk result (λ walked. walked ≡ sent_of world.now member m.now h.now) }
{
    let mut walked = nowhere(alloc);
    let Some(grant) = world.grants.get(member as usize) else {
        return Ok(walked);
    };
    let v = grant.ports.v;
    let effects = effects(alloc, &m.actions, &grant.ports, member)?;
    let gate = Gate {
        v,
        in_port: m.in_port,
        ingress: ingress(m.in_port),
    };
    add_outs(&mut walked, &gate, &Rewrite::new(), &effects.outs)?;
    match taken_up(world, v, &effects.tail, m) {
        None => Ok(walked),
        Some(on) => {
            let hop = Hop {
                v: on.place.v,
                header: arriving(&on, h),
                rewrite: on.rewrite,
            };
            follow(alloc, world, world.hops, &hop, &mut walked)?;
            Ok(walked)
        }
    }
}
