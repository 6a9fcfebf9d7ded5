//! The entries that are put on a switch whatever the tables of members have.
ghost use Rattle.std.specs.Prelude.{◌≡◌, ◌<◌, ◌==◌, ◌++◌, [], ◌∷◌, IfOk, OnOk, IfSome, ℕ, filter, map, not};
ghost use Rattle.std.specs.List.{list_any};
ghost use Rattle.switch_meaning.specs.Fixed.{AreTagsInRange, arrivals, drop_entry as drop_entry_of, drops as drops_of};
ghost use Rattle.switch_meaning.specs.Fixed.{ends_at as ends_at_of, fixed_entries as fixed_entries_of};
ghost use Rattle.switch_meaning.specs.Fixed.{guard as guard_of, guards as guards_of, is_guarded as is_guarded_of};
ghost use Rattle.switch_meaning.specs.Fixed.{is_outside as is_outside_of, passes as passes_of, step as step_of};
ghost use Rattle.switch_meaning.specs.Fixed.{transit as transit_of, transit_actions as transit_actions_of};
ghost use Rattle.switch_meaning.specs.Fixed.{transits as transits_of, transits_to as transits_to_of};
ghost use Rattle.switch_meaning.specs.Wirings.{same_spot as same_spot_of};
ghost use Rattle.switch_meaning.specs.declared.wiring.SwitchPort.{SwitchPort};

use crate::entry::PhysEntry;
use crate::wiring::{Cable, Outside, SwitchPort, Wiring};
use cv_io::{List, Memory};
use of10_actions::Action;
use of10_match::Match;
use std::alloc::Global;

/// The guards of a switch and then its transit entries.
pub fn fixed_entries(alloc: Global, wiring: &Wiring, switch: u32) -> Result<List<PhysEntry>, Memory>
    requires { AreTagsInRange wiring.now }
    ensures { IfOk result (λ entries. entries ≡ fixed_entries_of wiring.now switch) }
{
    let mut entries = guards(alloc, wiring, switch)?;
    add_transits(alloc, &mut entries, wiring, switch)?;
    Ok(entries)
}

/// A guard for each port of a spread virtual switch that is a port of this switch.
pub fn guards(alloc: Global, wiring: &Wiring, switch: u32) -> Result<List<PhysEntry>, Memory>
    ensures { IfOk result (λ entries. entries ≡ guards_of wiring.now switch) }
{
    let mut entries = List::new(alloc);
    for o in wiring.outside.as_slice() {
        add_guard(alloc, &mut entries, switch, o)?;
    }
    Ok(entries)
}

/// Appends the guard of a port, if it has one on this switch.
fn add_guard(
    alloc: Global,
    entries: &mut List<PhysEntry>,
    switch: u32,
    o: &Outside,
) -> Result<(), Memory>
    ensures { OnOk result (entries.new ≡ entries.old ++ map guard_of (filter (is_guarded_of switch) (o.now ∷ []))) }
{
    if !is_guarded(switch, o) {
        return Ok(());
    }
    entries.push(guard(alloc, o))
}

/// Whether the port is one of a spread virtual switch, on this switch.
fn is_guarded(switch: u32, o: &Outside) -> bool
    ensures { result ≡ is_guarded_of switch o.now }
{
    o.at.switch == switch && o.tag.is_some()
}

/// Packets that come by the port of a spread virtual switch go nowhere, unless another entry takes
/// them.
fn guard(alloc: Global, o: &Outside) -> PhysEntry
    ensures { result ≡ guard_of o.now }
{
    PhysEntry {
        m: Match::at_port(o.at.port),
        priority: 0,
        actions: List::new(alloc),
        ancestry: List::new(alloc),
    }
}

/// The transit entries of a switch, for each port of a spread virtual switch.
pub fn transits(alloc: Global, wiring: &Wiring, switch: u32) -> Result<List<PhysEntry>, Memory>
    requires { AreTagsInRange wiring.now }
    ensures { IfOk result (λ entries. entries ≡ transits_of wiring.now switch) }
{
    let mut entries = List::new(alloc);
    add_transits(alloc, &mut entries, wiring, switch)?;
    Ok(entries)
}

/// Appends the transit entries of a switch.
fn add_transits(
    alloc: Global,
    entries: &mut List<PhysEntry>,
    wiring: &Wiring,
    switch: u32,
) -> Result<(), Memory>
    requires { AreTagsInRange wiring.now }
    ensures { OnOk result (entries.new ≡ entries.old ++ transits_of wiring.now switch) }
{
    for goal in wiring.outside.as_slice() {
        add_transits_to(alloc, entries, wiring, switch, goal)?;
    }
    Ok(())
}

/// Appends a transit entry for each cable by which packets to a port come to this switch.
fn add_transits_to(
    alloc: Global,
    entries: &mut List<PhysEntry>,
    wiring: &Wiring,
    switch: u32,
    goal: &Outside,
) -> Result<(), Memory>
    requires { IfSome goal.now.tag (λ t. t < 4096) }
    ensures { OnOk result (entries.new ≡ entries.old ++ transits_to_of wiring.now switch goal.now) }
{
    let tag = match goal.tag {
        Some(tag) => tag,
        None => return Ok(()),
    };
    let ends = ends_at(alloc, switch, &wiring.cables)?;
    for end in ends.as_slice() {
        add_transit(alloc, entries, wiring, *end, goal, tag)?;
    }
    Ok(())
}

/// Appends the entry for packets that come to a spot with the tag of a port, if such packets do.
fn add_transit(
    alloc: Global,
    entries: &mut List<PhysEntry>,
    wiring: &Wiring,
    spot: SwitchPort,
    goal: &Outside,
    tag: u16,
) -> Result<(), Memory>
    requires { tag < 4096 }
    ensures { OnOk result (entries.new ≡ entries.old ++ map (λ (s : SwitchPort). transit_of wiring.now s goal.now tag)
        (filter (λ (s : SwitchPort). passes_of wiring.now s goal.now) (spot ∷ []))) }
{
    if !passes(wiring, spot, goal) {
        return Ok(());
    }
    entries.push(PhysEntry {
        m: Match {
            dl_vlan: Some(tag),
            ..Match::at_port(spot.port)
        },
        priority: 65535,
        actions: transit_actions(alloc, wiring, spot.switch, goal)?,
        ancestry: List::new(alloc),
    })
}

/// What a switch does with a packet that is on its way to a port.
fn transit_actions(
    alloc: Global,
    wiring: &Wiring,
    switch: u32,
    goal: &Outside,
) -> Result<List<Action>, Memory>
    ensures { IfOk result (λ actions. actions ≡ transit_actions_of wiring.now switch goal.now) }
{
    let mut actions = List::new(alloc);
    if goal.at.switch == switch {
        actions.push(Action::StripVlan)?;
        actions.push(Action::Output {
            port: goal.at.port,
            max_len: 0,
        })?;
        return Ok(actions);
    }
    if let Some(port) = wiring.next_hop(switch, goal.at.switch) {
        actions.push(Action::Output { port, max_len: 0 })?;
    }
    Ok(actions)
}

/// The ends of cables at a switch.
fn ends_at(alloc: Global, switch: u32, cables: &List<Cable>) -> Result<List<SwitchPort>, Memory>
    ensures { IfOk result (λ ends. ends ≡ ends_at_of switch cables.now) }
{
    let mut ends = List::new(alloc);
    for cable in cables.as_slice() {
        add_end(&mut ends, switch, cable.one)?;
        add_end(&mut ends, switch, cable.other)?;
    }
    Ok(ends)
}

/// Appends the end of a cable, if it lies at this switch.
fn add_end(ends: &mut List<SwitchPort>, switch: u32, end: SwitchPort) -> Result<(), Memory>
    ensures { OnOk result (ends.new ≡ ends.old ++ filter (λ (s : SwitchPort). s.switch == switch) (end ∷ [])) }
{
    if end.switch != switch {
        return Ok(());
    }
    ends.push(end)
}

/// Whether a packet from some port of a virtual switch comes to this spot on its way to another port
/// of it.
fn passes(wiring: &Wiring, spot: SwitchPort, goal: &Outside) -> bool
    ensures { result ≡ passes_of wiring.now spot goal.now }
{
    let cables = wiring.cables.len();
    let to = goal.at.switch;
    wiring.outside.as_slice().iter().any(|o| o.v == goal.v
        && comes_by(wiring, cables, o.at.switch, to, spot))
}

/// Whether a packet on the way from one switch to another comes to a spot, over at most so many
/// cables.
fn comes_by(wiring: &Wiring, cables: usize, from: u32, to: u32, spot: SwitchPort) -> bool
    ensures { result ≡ list_any (same_spot_of spot) (arrivals wiring.now cables from to) }
{
    if cables == 0 || from == to {
        return false;
    }
    match step(wiring, from, to) {
        Some(at) => spot == at || comes_by(wiring, cables - 1, at.switch, to, spot),
        None => false,
    }
}

/// Where a packet comes to over the first cable of its way from one switch to another.
fn step(wiring: &Wiring, from: u32, to: u32) -> Option<SwitchPort>
    ensures { result ≡ step_of wiring.now from to }
{
    match wiring.next_hop(from, to) {
        Some(port) => wiring.far_end(SwitchPort { switch: from, port }),
        None => None,
    }
}

/// Of a switch with one entry for all ports, an entry for each port that is no outside port: its
/// packets are dropped.
pub fn drops(
    alloc: Global,
    wiring: &Wiring,
    switch: u32,
    ports: &List<u16>,
) -> Result<List<PhysEntry>, Memory>
    ensures { IfOk result (λ entries. entries ≡ drops_of wiring.now switch ports.now) }
{
    let mut entries = List::new(alloc);
    for port in ports.as_slice() {
        add_drop(alloc, &mut entries, wiring, switch, *port)?;
    }
    Ok(entries)
}

/// Appends the entry that drops the packets of a port, if that is no outside port.
fn add_drop(
    alloc: Global,
    entries: &mut List<PhysEntry>,
    wiring: &Wiring,
    switch: u32,
    port: u16,
) -> Result<(), Memory>
    ensures { OnOk result (entries.new ≡ entries.old ++ map drop_entry_of
        (filter (λ (p : ℕ). not (is_outside_of wiring.now switch p)) (port ∷ []))) }
{
    if is_outside(wiring, SwitchPort { switch, port }) {
        return Ok(());
    }
    entries.push(PhysEntry {
        m: Match::at_port(port),
        priority: 65535,
        actions: List::new(alloc),
        ancestry: List::new(alloc),
    })
}

/// Whether the port of a switch is an outside port.
fn is_outside(wiring: &Wiring, spot: SwitchPort) -> bool
    ensures { result ≡ is_outside_of wiring.now spot.switch spot.port }
{
    wiring.outside.as_slice().iter().any(|o| o.at == spot)
}
