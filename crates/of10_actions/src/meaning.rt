//! From a list of actions to its effects.
ghost use Rattle.std.specs.Prelude.{◌≡◌, ◌++◌, IfOk, OnOk};
ghost use Rattle.of10_actions.specs.Actions.{AreInRange};
ghost use Rattle.of10_actions.specs.Effects.{BuildsUp, dests_of, effects_of, flood_of, outs_of, tail_of};
ghost use Rattle.of10_actions.specs.Ports.{AreRising};

use crate::action::Action;
use crate::effects::{ACTION, Dest, Effects, Out, PortView, Tail};
use crate::port::{ALL, CONTROLLER, FLOOD, IN_PORT, NORMAL};
use crate::rewrite::Rewrite;
use cv_io::{List, Memory};
use std::alloc::Global;

/// What a list of actions does for a member at its visible ports: an output is outs with the rewrite
/// in force, or a tail, which ends the list. An output to a number that names no visible port, as
/// TABLE, LOCAL and NONE, does nothing; nor do actions on VLANs and queues.
pub fn effects(
    alloc: Global,
    list: &List<Action>,
    ports: &PortView,
    member: u32,
) -> Result<Effects, Memory>
    requires in_range { AreInRange list.now }
    requires rising { AreRising ports.now }
    ensures meaning { IfOk result (λ effects. effects ≡ effects_of ports.now member list.now) }
    ensures builds_up { IfOk result (λ effects. BuildsUp effects) }
{
    let mut outs = List::new(alloc);
    let mut rewrite = Rewrite::new();
    for action in list.as_slice() {
        match *action {
            Action::Output { port, .. } => match tail_at(ports, &rewrite, port) {
                Tail::Nothing => output(&mut outs, &rewrite, ports, member, port)?,
                tail => return Ok(Effects { outs, tail }),
            },
            set => rewrite = rewrite.then(&set.rewrite()),
        }
    }
    Ok(Effects {
        outs,
        tail: Tail::Nothing,
    })
}

/// The tail that an output is.
fn tail_at(ports: &PortView, rewrite: &Rewrite, port: u16) -> Tail
    ensures { result ≡ tail_of ports.now rewrite.now port }
{
    if port == NORMAL {
        Tail::Pass(*rewrite)
    } else if ports.links.as_slice().contains(&port) {
        Tail::Link(*rewrite, port)
    } else {
        Tail::Nothing
    }
}

/// Appends the outs of an output.
fn output(
    outs: &mut List<Out>,
    rewrite: &Rewrite,
    ports: &PortView,
    member: u32,
    port: u16,
) -> Result<(), Memory>
    ensures { OnOk result (outs.new ≡ outs.old ++ outs_of rewrite.now (dests_of ports.now member port)) }
{
    let dest = match port {
        FLOOD | ALL => return flood(outs, rewrite, ports),
        IN_PORT => Dest::Ingress,
        CONTROLLER => Dest::Tell {
            member,
            reason: ACTION,
        },
        _ if ports.outside.as_slice().contains(&port) => Dest::Port { v: ports.v, port },
        _ => return Ok(()),
    };
    outs.push(Out {
        rewrite: *rewrite,
        dest,
    })
}

/// Appends an out for each visible outside port.
fn flood(outs: &mut List<Out>, rewrite: &Rewrite, ports: &PortView) -> Result<(), Memory>
    ensures { OnOk result (outs.new ≡ outs.old ++ outs_of rewrite.now (flood_of ports.now)) }
{
    for port in ports.outside.as_slice() {
        outs.push(Out {
            rewrite: *rewrite,
            dest: Dest::Flood {
                v: ports.v,
                port: *port,
            },
        })?;
    }
    Ok(())
}
