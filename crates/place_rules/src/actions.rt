//! The list of actions of the entry of a rule.
ghost use Rattle.std.specs.Prelude.{◌≡◌, ◌++◌, ℕ, List, Option, IfOk, OnOk, None};
ghost use Rattle.of10_actions.specs.Fields.{RewriteOf};
ghost use Rattle.of10_actions.specs.Rewriting.{no_rewrite};
ghost use Rattle.of10_actions.specs.declared.action.Action.{Action};
ghost use Rattle.place_rules.specs.InsideActions.{actions_by, copy_if, outs_kept, way_kept as way_kept_of};
ghost use Rattle.place_rules.specs.Joined.{wiring_of};
ghost use Rattle.switch_meaning.specs.Placing.{actions_of as actions_of_of, field_sets as field_sets_of, going};
ghost use Rattle.switch_meaning.specs.Placing.{is_silent as is_silent_of, is_telling as is_telling_of};
ghost use Rattle.switch_meaning.specs.Placing.{retag as retag_of, set_unless, sets, tells as tells_of};

use crate::look::way_of;
use cv_io::{List, Memory};
use inner_paths::Paths;
use of10_actions::port::CONTROLLER;
use of10_actions::{Action, Dest, Out, Rewrite};
use std::alloc::Global;
use switch_meaning::{Site, Way};
use virtual_topology::Topology;

/// Appends the action that sets a field, unless the one before did the same.
fn push_set(
    actions: &mut List<Action>,
    now: Option<Action>,
    want: Option<Action>,
) -> Result<(), Memory>
    ensures { OnOk result (actions.new ≡ actions.old ++ set_unless now want) }
{
    match want {
        None => Ok(()),
        Some(set) => match now {
            None => actions.push(set),
            Some(done) => {
                if done == set {
                    Ok(())
                } else {
                    actions.push(set)
                }
            }
        },
    }
}

/// The actions that set the fields of a rewrite, in the order in which they are written.
fn field_sets(r: &Rewrite) -> [Option<Action>; 7]
    ensures { result ≡ field_sets_of r.now }
{
    [
        r.dl_src.map(|address| Action::SetDlSrc { address }),
        r.dl_dst.map(|address| Action::SetDlDst { address }),
        r.nw_src.map(|address| Action::SetNwSrc { address }),
        r.nw_dst.map(|address| Action::SetNwDst { address }),
        r.nw_tos.map(|tos| Action::SetNwTos { tos }),
        r.tp_src.map(|port| Action::SetTpSrc { port }),
        r.tp_dst.map(|port| Action::SetTpDst { port }),
    ]
}

/// Appends the actions that lead from one rewrite to the next.
fn push_sets(actions: &mut List<Action>, now: &Rewrite, want: &Rewrite) -> Result<(), Memory>
    ensures { OnOk result (actions.new ≡ actions.old ++ sets now.now want.now) }
{
    let done = field_sets(now);
    let set = field_sets(want);
    for field in 0..7 {
        push_set(actions, done[field], set[field])?;
    }
    Ok(())
}

/// Appends the action that takes the tag that is on for the one that is wanted.
fn retag(actions: &mut List<Action>, tag: Option<u16>, want: Option<u16>) -> Result<(), Memory>
    ensures { OnOk result (actions.new ≡ actions.old ++ retag_of tag want) }
{
    match want {
        None => match tag {
            None => Ok(()),
            Some(_) => actions.push(Action::StripVlan),
        },
        Some(vid) => match tag {
            None => actions.push(Action::SetVlanVid { vid }),
            Some(on) => {
                if on == vid {
                    Ok(())
                } else {
                    actions.push(Action::SetVlanVid { vid })
                }
            }
        },
    }
}

/// What the actions that are written so far have made of a packet.
#[derive(Clone, Copy, PartialEq, Eq, Debug)]
struct Force {
    rewrite: Rewrite,
    tag: Option<u16>,
}

/// Appends the actions of an out that goes by a way, if it has one.
fn push_out(
    actions: &mut List<Action>,
    force: &mut Force,
    way: Option<Way>,
    rewrite: &Rewrite,
) -> Result<(), Memory>
    ensures { OnOk result ((later : RewriteOf → Option ℕ → List Action)
        → actions.new ++ later force.new.rewrite force.new.tag
        ≡ actions.old ++ going way force.old.rewrite force.old.tag rewrite.now later) }
{
    let way = match way {
        Some(way) => way,
        None => return Ok(()),
    };
    push_sets(actions, &force.rewrite, rewrite)?;
    retag(actions, force.tag, way.tag)?;
    actions.push(Action::Output {
        port: way.port,
        max_len: 0,
    })?;
    force.rewrite = force.rewrite.then(rewrite);
    force.tag = way.tag;
    Ok(())
}

/// Whether the out goes to the port by which the packet came.
fn is_silent(v: u32, in_port: Option<u16>, dest: Dest) -> bool
    ensures { result ≡ is_silent_of v in_port dest }
{
    match dest {
        Dest::Port { v: at, port } => at == v && in_port == Some(port),
        Dest::Flood { v: at, port } => at == v && in_port == Some(port),
        Dest::Ingress => false,
        Dest::Tell { .. } => false,
    }
}

/// The way to where an out goes, unless it is left out: a rule for all ports has outs to the port that
/// its match names.
fn way_kept(
    topology: &Topology,
    paths: &Paths,
    site: Site,
    in_port: Option<u16>,
    ingress: Option<u16>,
    dest: Dest,
) -> Option<Way>
    requires { paths.now ≡ topology.now }
    ensures { result ≡ way_kept_of (wiring_of topology.now) site in_port ingress dest }
{
    if site.whole && is_silent(site.v, in_port, dest) {
        None
    } else {
        way_of(topology, paths, site.switch, ingress, dest)
    }
}

/// Appends the actions of the outs to ports.
fn push_outs(
    actions: &mut List<Action>,
    topology: &Topology,
    paths: &Paths,
    site: Site,
    in_port: Option<u16>,
    ingress: Option<u16>,
    outs: &[Out],
) -> Result<(), Memory>
    requires { paths.now ≡ topology.now }
    ensures { OnOk result (actions.new ≡ actions.old ++ actions_by
        (way_kept_of (wiring_of topology.now) site in_port ingress) no_rewrite None outs.now) }
{
    let mut force = Force {
        rewrite: Rewrite::new(),
        tag: None,
    };
    for out in outs {
        let way = way_kept(topology, paths, site, in_port, ingress, out.dest);
        push_out(actions, &mut force, way, &out.rewrite)?;
    }
    Ok(())
}

/// Whether the out tells a member.
fn is_telling(dest: Dest) -> bool
    ensures { result ≡ is_telling_of dest }
{
    match dest {
        Dest::Tell { .. } => true,
        Dest::Port { .. } => false,
        Dest::Flood { .. } => false,
        Dest::Ingress => false,
    }
}

/// Whether somebody is told.
fn tells(outs: &[Out]) -> bool
    ensures { result ≡ tells_of outs.now }
{
    outs.iter().any(|out| is_telling(out.dest))
}

/// Appends a copy to the controller, where somebody is told.
fn push_copy(actions: &mut List<Action>, told: bool) -> Result<(), Memory>
    ensures { OnOk result (actions.new ≡ actions.old ++ copy_if told) }
{
    if told {
        actions.push(Action::Output {
            port: CONTROLLER,
            max_len: 65535,
        })?;
    }
    Ok(())
}

/// The list of actions of the outs of a rule: one copy to the controller first, where somebody is
/// told.
pub fn actions_of(
    alloc: Global,
    topology: &Topology,
    paths: &Paths,
    site: Site,
    in_port: Option<u16>,
    ingress: Option<u16>,
    outs: &[Out],
) -> Result<List<Action>, Memory>
    requires { paths.now ≡ topology.now }
    ensures { IfOk result (λ actions. actions ≡ actions_of_of (wiring_of topology.now) site.switch ingress
        (outs_kept site in_port outs.now)) }
{
    let mut actions = List::new(alloc);
    push_copy(&mut actions, tells(outs))?;
    push_outs(&mut actions, topology, paths, site, in_port, ingress, outs)?;
    Ok(actions)
}
