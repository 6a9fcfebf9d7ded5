//! The entries that carry tagged packets from switch to switch.
ghost use Rattle.std.specs.Prelude.{◌≡◌, ◌<◌, ◌==◌, ◌++◌, [], ◌∷◌, IfOk, OnOk, IfSome, filter, map};
ghost use Rattle.std.specs.List.{list_any};
ghost use Rattle.place_rules.specs.Joined.{wiring_of};
ghost use Rattle.switch_meaning.specs.Fixed.{AreTagsInRange, arrivals, ends_at as ends_at_of, passes as passes_of};
ghost use Rattle.switch_meaning.specs.Fixed.{step as step_of, transit as transit_of};
ghost use Rattle.switch_meaning.specs.Fixed.{transit_actions as transit_actions_of, transits as transits_of};
ghost use Rattle.place_rules.specs.InsideTransits.{transits_by};
ghost use Rattle.switch_meaning.specs.Wirings.{same_spot as same_spot_of};
ghost use Rattle.switch_meaning.specs.declared.wiring.SwitchPort.{SwitchPort};

use crate::look::{far_end, next_hop};
use cv_io::{List, Memory};
use inner_paths::Paths;
use of10_actions::Action;
use of10_match::Match;
use std::alloc::Global;
use switch_meaning::{Cable, Outside, PhysEntry, SwitchPort, Wiring};
use virtual_topology::Topology;

/// Appends the transit entries of a switch, for each port of a spread virtual switch.
pub fn push_transits(
    alloc: Global,
    entries: &mut List<PhysEntry>,
    topology: &Topology,
    paths: &Paths,
    wiring: &Wiring,
    switch: u32,
) -> Result<(), Memory>
    requires paths { paths.now ≡ topology.now }
    requires wiring { wiring.now ≡ wiring_of topology.now }
    requires tags { AreTagsInRange wiring.now }
    ensures { OnOk result (entries.new ≡ entries.old ++ transits_of wiring.now switch) }
{
    let ends = ends_at(alloc, switch, &wiring.cables)?;
    for goal in wiring.outside.as_slice() {
        push_transits_to(alloc, entries, topology, paths, wiring, &ends, goal)?;
    }
    Ok(())
}

/// Appends a transit entry for each cable by which packets to a port come to this switch.
fn push_transits_to(
    alloc: Global,
    entries: &mut List<PhysEntry>,
    topology: &Topology,
    paths: &Paths,
    wiring: &Wiring,
    ends: &List<SwitchPort>,
    goal: &Outside,
) -> Result<(), Memory>
    requires paths { paths.now ≡ topology.now }
    requires wiring { wiring.now ≡ wiring_of topology.now }
    requires tag { IfSome goal.now.tag (λ t. t < 4096) }
    ensures { OnOk result (entries.new ≡ entries.old ++ transits_by wiring.now ends.now goal.now) }
{
    let tag = match goal.tag {
        Some(tag) => tag,
        None => return Ok(()),
    };
    for end in ends.as_slice() {
        push_transit(alloc, entries, topology, paths, wiring, *end, goal, tag)?;
    }
    Ok(())
}

/// Appends the entry for packets that come to a spot with the tag of a port, if such packets do.
fn push_transit(
    alloc: Global,
    entries: &mut List<PhysEntry>,
    topology: &Topology,
    paths: &Paths,
    wiring: &Wiring,
    spot: SwitchPort,
    goal: &Outside,
    tag: u16,
) -> Result<(), Memory>
    requires paths { paths.now ≡ topology.now }
    requires wiring { wiring.now ≡ wiring_of topology.now }
    requires tag { tag < 4096 }
    ensures { OnOk result (entries.new ≡ entries.old ++ map (λ (s : SwitchPort). transit_of wiring.now s goal.now tag)
        (filter (λ (s : SwitchPort). passes_of wiring.now s goal.now) (spot ∷ []))) }
{
    if !passes(topology, paths, wiring, spot, goal) {
        return Ok(());
    }
    entries.push(PhysEntry {
        m: Match {
            dl_vlan: Some(tag),
            ..Match::at_port(spot.port)
        },
        priority: 65535,
        actions: transit_actions(alloc, paths, spot.switch, goal)?,
        ancestry: List::new(alloc),
    })
}

/// What a switch does with a packet that is on its way to a port: at the goal it is sent out without
/// its tag, else on.
fn transit_actions(
    alloc: Global,
    paths: &Paths,
    switch: u32,
    goal: &Outside,
) -> Result<List<Action>, Memory>
    ensures { IfOk result (λ actions. actions ≡ transit_actions_of (wiring_of paths.now) switch goal.now) }
{
    let mut actions = List::new(alloc);
    if goal.at.switch == switch {
        actions.push(Action::StripVlan)?;
        actions.push(Action::Output {
            port: goal.at.port,
            max_len: 0,
        })?;
        return Ok(actions);
    }
    if let Some(port) = next_hop(paths, switch, goal.at.switch) {
        actions.push(Action::Output { port, max_len: 0 })?;
    }
    Ok(actions)
}

/// The ends of cables at a switch.
fn ends_at(alloc: Global, switch: u32, cables: &List<Cable>) -> Result<List<SwitchPort>, Memory>
    ensures { IfOk result (λ ends. ends ≡ ends_at_of switch cables.now) }
{
    let mut ends = List::new(alloc);
    for cable in cables.as_slice() {
        add_end(&mut ends, switch, cable.one)?;
        add_end(&mut ends, switch, cable.other)?;
    }
    Ok(ends)
}

/// Appends the end of a cable, if it lies at this switch.
fn add_end(ends: &mut List<SwitchPort>, switch: u32, end: SwitchPort) -> Result<(), Memory>
    ensures { OnOk result (ends.new ≡ ends.old ++ filter (λ (s : SwitchPort). s.switch == switch) (end ∷ [])) }
{
    if end.switch != switch {
        return Ok(());
    }
    ends.push(end)
}

/// Whether a packet from some port of a virtual switch comes to this spot on its way to another port
/// of it.
fn passes(
    topology: &Topology,
    paths: &Paths,
    wiring: &Wiring,
    spot: SwitchPort,
    goal: &Outside,
) -> bool
    requires paths { paths.now ≡ topology.now }
    requires wiring { wiring.now ≡ wiring_of topology.now }
    ensures { result ≡ passes_of wiring.now spot goal.now }
{
    let cables = wiring.cables.len();
    let to = goal.at.switch;
    wiring.outside.as_slice().iter().any(|o| o.v == goal.v
        && comes_by(topology, paths, cables, o.at.switch, to, spot))
}

/// Whether a packet on the way from one switch to another comes to a spot, over at most so many
/// cables.
fn comes_by(
    topology: &Topology,
    paths: &Paths,
    cables: usize,
    from: u32,
    to: u32,
    spot: SwitchPort,
) -> bool
    requires { paths.now ≡ topology.now }
    ensures { result ≡ list_any (same_spot_of spot) (arrivals (wiring_of topology.now) cables from to) }
{
    if cables == 0 || from == to {
        return false;
    }
    match step(topology, paths, from, to) {
        Some(at) => { spot == at || comes_by(topology, paths, cables - 1, at.switch, to, spot) }
        None => false,
    }
}

/// Where a packet comes to over the first cable of its way from one switch to another.
fn step(topology: &Topology, paths: &Paths, from: u32, to: u32) -> Option<SwitchPort>
    requires { paths.now ≡ topology.now }
    ensures { result ≡ step_of (wiring_of topology.now) from to }
{
    match next_hop(paths, from, to) {
        Some(port) => far_end(topology, SwitchPort { switch: from, port }),
        None => None,
    }
}
