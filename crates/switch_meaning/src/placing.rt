//! The entry that is put on a switch for a rule.
ghost use Rattle.std.specs.Prelude.{◌≡◌, ◌<◌, ◌++◌, ℕ, List, Option, IfOk, OnOk, filter, not};
ghost use Rattle.of10_actions.specs.Fields.{RewriteOf};
ghost use Rattle.of10_actions.specs.Rewriting.{no_rewrite};
ghost use Rattle.of10_actions.specs.declared.action.Action.{Action};
ghost use Rattle.of10_actions.specs.declared.effects.Out.{Out};
ghost use Rattle.switch_meaning.specs.Placing.{actions_from, actions_of as actions_of_of, entry_of};
ghost use Rattle.switch_meaning.specs.Placing.{field_sets as field_sets_of, ingress_of as ingress_of_of};
ghost use Rattle.switch_meaning.specs.Placing.{is_silent as is_silent_of, is_telling as is_telling_of, going};
ghost use Rattle.switch_meaning.specs.Placing.{match_written as match_written_of, outs_written as outs_written_of};
ghost use Rattle.switch_meaning.specs.Placing.{retag as retag_of, set_unless, sets, tells as tells_of};
ghost use Rattle.switch_meaning.specs.Placing.{untagged as untagged_of, way_across as way_across_of};
ghost use Rattle.switch_meaning.specs.Placing.{way_of as way_of_of, way_to as way_to_of};
ghost use Rattle.switch_meaning.specs.Placing.{written_port as written_port_of};

use crate::entry::{FlatRule, PhysEntry, Site};
use crate::wiring::{Outside, Wiring};
use cv_io::{Duplicate, List, Memory};
use of10_actions::port::{CONTROLLER, IN_PORT};
use of10_actions::{Action, Dest, Out, Rewrite};
use of10_match::{Match, UNTAGGED};
use std::alloc::Global;

/// How a packet leaves a switch: the tag that it carries, and the port.
#[derive(Clone, Copy, PartialEq, Eq, Debug)]
pub struct Way {
    pub tag: Option<u16>,
    pub port: u16,
}

/// The port as it is written: IN_PORT where the packet came by it.
fn written_port(ingress: Option<u16>, port: u16) -> u16
    ensures { result ≡ written_port_of ingress port }
{
    if ingress == Some(port) { IN_PORT } else { port }
}

/// The way to an outside port of another switch.
fn way_across(tag: Option<u16>, port: Option<u16>) -> Option<Way>
    ensures { result ≡ way_across_of tag port }
{
    match tag {
        Some(_) => match port {
            Some(port) => Some(Way { tag, port }),
            None => None,
        },
        None => None,
    }
}

/// The way from a switch to an outside port.
fn way_to(wiring: &Wiring, switch: u32, ingress: Option<u16>, o: Outside) -> Option<Way>
    ensures { result ≡ way_to_of wiring.now switch ingress o }
{
    if o.at.switch == switch {
        Some(Way {
            tag: None,
            port: written_port(ingress, o.at.port),
        })
    } else {
        way_across(o.tag, wiring.next_hop(switch, o.at.switch))
    }
}

/// The way from a switch to where an out goes. A telling has none.
fn way_of(wiring: &Wiring, switch: u32, ingress: Option<u16>, dest: Dest) -> Option<Way>
    ensures { result ≡ way_of_of wiring.now switch ingress dest }
{
    match dest {
        Dest::Port { v, port } | Dest::Flood { v, port } => match wiring.outside_at(v, port) {
            Some(o) => way_to(wiring, switch, ingress, o),
            None => None,
        },
        Dest::Ingress => Some(Way {
            tag: None,
            port: IN_PORT,
        }),
        Dest::Tell { .. } => None,
    }
}

/// Appends the action that sets a field, unless the one before did the same.
fn push_set(
    actions: &mut List<Action>,
    now: Option<Action>,
    want: Option<Action>,
) -> Result<(), Memory>
    ensures { OnOk result (actions.new ≡ actions.old ++ set_unless now want) }
{
    match want {
        None => Ok(()),
        Some(set) => match now {
            None => actions.push(set),
            Some(done) => {
                if done == set {
                    Ok(())
                } else {
                    actions.push(set)
                }
            }
        },
    }
}

/// The actions that set the fields of a rewrite, in the order in which they are written.
fn field_sets(r: &Rewrite) -> [Option<Action>; 7]
    ensures { result ≡ field_sets_of r.now }
{
    [
        r.dl_src.map(|address| Action::SetDlSrc { address }),
        r.dl_dst.map(|address| Action::SetDlDst { address }),
        r.nw_src.map(|address| Action::SetNwSrc { address }),
        r.nw_dst.map(|address| Action::SetNwDst { address }),
        r.nw_tos.map(|tos| Action::SetNwTos { tos }),
        r.tp_src.map(|port| Action::SetTpSrc { port }),
        r.tp_dst.map(|port| Action::SetTpDst { port }),
    ]
}

/// Appends the actions that lead from one rewrite to the next.
fn push_sets(actions: &mut List<Action>, now: &Rewrite, want: &Rewrite) -> Result<(), Memory>
    ensures { OnOk result (actions.new ≡ actions.old ++ sets now.now want.now) }
{
    let done = field_sets(now);
    let set = field_sets(want);
    for field in 0..7 {
        push_set(actions, done[field], set[field])?;
    }
    Ok(())
}

/// Appends the action that takes the tag that is on for the one that is wanted.
fn retag(actions: &mut List<Action>, tag: Option<u16>, want: Option<u16>) -> Result<(), Memory>
    ensures { OnOk result (actions.new ≡ actions.old ++ retag_of tag want) }
{
    match want {
        None => match tag {
            None => Ok(()),
            Some(_) => actions.push(Action::StripVlan),
        },
        Some(vid) => match tag {
            None => actions.push(Action::SetVlanVid { vid }),
            Some(on) => {
                if on == vid {
                    Ok(())
                } else {
                    actions.push(Action::SetVlanVid { vid })
                }
            }
        },
    }
}

/// Whether the out tells a member.
fn is_telling(dest: Dest) -> bool
    ensures { result ≡ is_telling_of dest }
{
    match dest {
        Dest::Tell { .. } => true,
        Dest::Port { .. } => false,
        Dest::Flood { .. } => false,
        Dest::Ingress => false,
    }
}

/// Whether the out goes to the port by which the packet came.
fn is_silent(v: u32, in_port: Option<u16>, dest: Dest) -> bool
    ensures { result ≡ is_silent_of v in_port dest }
{
    match dest {
        Dest::Port { v: at, port } => at == v && in_port == Some(port),
        Dest::Flood { v: at, port } => at == v && in_port == Some(port),
        Dest::Ingress => false,
        Dest::Tell { .. } => false,
    }
}

/// The match of packets without a tag.
fn untagged() -> Match
    ensures { result ≡ untagged_of }
{
    Match {
        dl_vlan: Some(UNTAGGED),
        ..Match::everything()
    }
}

/// What the actions that are written so far have made of a packet.
#[derive(Clone, Copy, PartialEq, Eq, Debug)]
struct Force {
    rewrite: Rewrite,
    tag: Option<u16>,
}

/// Appends the actions of an out that goes by a way, if it has one.
fn push_out(
    actions: &mut List<Action>,
    force: &mut Force,
    way: Option<Way>,
    rewrite: &Rewrite,
) -> Result<(), Memory>
    ensures { OnOk result ((later : RewriteOf → Option ℕ → List Action)
        → actions.new ++ later force.new.rewrite force.new.tag
        ≡ actions.old ++ going way force.old.rewrite force.old.tag rewrite.now later) }
{
    let way = match way {
        Some(way) => way,
        None => return Ok(()),
    };
    push_sets(actions, &force.rewrite, rewrite)?;
    retag(actions, force.tag, way.tag)?;
    actions.push(Action::Output {
        port: way.port,
        max_len: 0,
    })?;
    force.rewrite = force.rewrite.then(rewrite);
    force.tag = way.tag;
    Ok(())
}

/// Appends the actions of the outs to ports.
fn push_outs(
    actions: &mut List<Action>,
    wiring: &Wiring,
    switch: u32,
    ingress: Option<u16>,
    outs: &List<Out>,
) -> Result<(), Memory>
    ensures { OnOk result (actions.new ≡ actions.old ++ actions_from wiring.now switch ingress no_rewrite None
        outs.now) }
{
    let mut force = Force {
        rewrite: Rewrite::new(),
        tag: None,
    };
    for out in outs.as_slice() {
        let way = way_of(wiring, switch, ingress, out.dest);
        push_out(actions, &mut force, way, &out.rewrite)?;
    }
    Ok(())
}

/// The list of actions of the outs of a rule: one copy to the controller first, where somebody is
/// told.
fn actions_of(
    alloc: Global,
    wiring: &Wiring,
    switch: u32,
    ingress: Option<u16>,
    outs: &List<Out>,
) -> Result<List<Action>, Memory>
    ensures { IfOk result (λ actions. actions ≡ actions_of_of wiring.now switch ingress outs.now) }
{
    let mut actions = List::new(alloc);
    if tells(outs) {
        actions.push(Action::Output {
            port: CONTROLLER,
            max_len: 65535,
        })?;
    }
    push_outs(&mut actions, wiring, switch, ingress, outs)?;
    Ok(actions)
}

/// Whether somebody is told.
fn tells(outs: &List<Out>) -> bool
    ensures { result ≡ tells_of outs.now }
{
    outs.as_slice().iter().any(|out| is_telling(out.dest))
}

/// The outs that are written: of a rule for all ports none to the port that its match names.
fn outs_written(alloc: Global, site: Site, rule: &FlatRule) -> Result<List<Out>, Memory>
    ensures { IfOk result (λ outs. outs ≡ outs_written_of site rule.now) }
{
    if site.whole {
        spoken(alloc, site.v, rule.m.in_port, &rule.outs)
    } else {
        rule.outs.copy()
    }
}

/// The outs that don't go to the port by which the packet came.
fn spoken(
    alloc: Global,
    v: u32,
    in_port: Option<u16>,
    outs: &List<Out>,
) -> Result<List<Out>, Memory>
    ensures { IfOk result (λ kept. kept ≡ filter (λ (o : Out). not (is_silent_of v in_port o.dest)) outs.now) }
{
    let mut kept = List::new(alloc);
    for out in outs.as_slice() {
        if !is_silent(v, in_port, out.dest) {
            kept.push(*out)?;
        }
    }
    Ok(kept)
}

/// The physical port that a rule names, if it names one.
fn ingress_of(wiring: &Wiring, site: Site, rule: &FlatRule) -> Option<u16>
    ensures { result ≡ ingress_of_of wiring.now site rule.now }
{
    match rule.m.in_port {
        Some(port) => match wiring.outside_at(site.v, port) {
            Some(o) => Some(o.at.port),
            None => None,
        },
        None => None,
    }
}

/// The match of a rule on its switch, or none where no header is left.
fn match_written(wiring: &Wiring, site: Site, rule: &FlatRule) -> Option<Match>
    ensures { result ≡ match_written_of wiring.now site rule.now }
{
    let in_port = ingress_of(wiring, site, rule);
    let met = if site.spread {
        rule.m.meet(&untagged())
    } else {
        Some(rule.m)
    };
    match met {
        Some(m) => Some(Match { in_port, ..m }),
        None => None,
    }
}

/// The entry of a rule on its switch, or none where no header is left: a spread virtual switch takes
/// no packets with a tag.
pub fn place(
    alloc: Global,
    wiring: &Wiring,
    site: Site,
    rule: &FlatRule,
) -> Result<Option<PhysEntry>, Memory>
    requires { rule.now.level < 65535 }
    ensures { IfOk result (λ entry. entry ≡ entry_of wiring.now site rule.now) }
{
    let m = match match_written(wiring, site, rule) {
        Some(m) => m,
        None => return Ok(None),
    };
    let ingress = ingress_of(wiring, site, rule);
    let outs = outs_written(alloc, site, rule)?;
    Ok(Some(PhysEntry {
        m,
        priority: (rule.level + 1) as u16,
        actions: actions_of(alloc, wiring, site.switch, ingress, &outs)?,
        ancestry: List::from_slice(alloc, rule.ancestry.as_slice())?,
    }))
}
