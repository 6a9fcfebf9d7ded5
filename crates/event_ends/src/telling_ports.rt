//! Members are told which outside ports went dark, and which aren't dark any more.
ghost use Rattle.std.specs.Prelude.{◌≡◌, ◌++◌, ◌<◌, IsTrue, OnOk, flat_map, length, map};
ghost use Rattle.std.specs.List.{AllByRecursion, enumerate_from};
ghost use Rattle.policies.specs.declared.policy.MemberItem.{MemberItem as MemberItemOf};
ghost use Rattle.policies.specs.Policies.{plan};
ghost use Rattle.machine_drafts.specs.InsideSwitches.{is_dark_among, is_dark_over};
ghost use Rattle.event_ends.specs.InsideTelling.{IsStillAt, letters_on, lies_over, member_letters};
ghost use Rattle.event_ends.specs.InsideTelling.{switches_before, turn_letters};
ghost use Rattle.machine_meaning.specs.Lists.{places};
ghost use Rattle.machine_drafts.specs.Outcomes.{bases, draft_in, members_in, switch_bases, switches_in};
ghost use Rattle.machine_meaning.specs.States.{State};
ghost use Rattle.machine_meaning.specs.Telling.{tell_ports as tell_ports_of};
ghost use Rattle.machine_drafts.specs.SwitchDrafts.{IsStill};
ghost use Rattle.machine_drafts.specs.Views.{switch_of};

use cv_io::{List, Memory};
use machine_drafts::looking::is_dark_at;
use machine_drafts::member_draft::MemberDraft;
use machine_drafts::outcome::Outcome;
use machine_drafts::sessions::is_member_up;
use machine_drafts::setup::Setup;
use machine_drafts::switch_draft::SwitchDraft;
use machine_meaning::Letter;
use member_replies::port_status;
use policies::MemberItem;
use std::alloc::Global;
use virtual_topology::Topology;

/// A physical port was dark as the event began.
fn was_dark(switches: &[SwitchDraft<'_>], spot: (u32, u16)) -> bool
    ensures { result ≡ is_dark_among (switches_before switches.now) spot }
{
    match switches.get(spot.0 as usize) {
        Some(switch) => !switch.outbox().is_up() || switch.known_before().is_dark(spot.1),
        None => true,
    }
}

/// An outside port of a virtual switch was dark as the event began.
fn was_dark_at(topology: &Topology, switches: &[SwitchDraft<'_>], v: u32, port: u16) -> bool
    ensures { result ≡ is_dark_over topology.now (switches_before switches.now) v port }
{
    match topology.outside(v, port) {
        Some(spot) => was_dark(switches, spot),
        None => false,
    }
}

/// An outside port lies on a switch.
fn lies_on(topology: &Topology, v: u32, switch: u32, port: u16) -> bool
    ensures { result ≡ lies_over topology.now v switch port }
{
    match topology.outside(v, port) {
        Some(spot) => spot.0 == switch,
        None => false,
    }
}

/// The member of a number is told of an outside port, if that changed.
fn tell_port(
    alloc: Global,
    topology: &Topology,
    switches: &[SwitchDraft<'_>],
    letters: &mut List<Letter>,
    n: u32,
    v: u16,
    port: u16,
) -> Result<(), Memory>
    ensures { OnOk result (letters.new ≡ letters.old
        ++ turn_letters topology.now (switches_before switches.now) (switches_in switches.now) n v port) }
{
    let is_dark = is_dark_at(topology, switches, u32::from(v), port);
    if was_dark_at(topology, switches, u32::from(v), port) == is_dark {
        return Ok(());
    }
    let bytes = port_status(alloc, v, port, false, is_dark)?;
    letters.push(Letter { to: n, bytes })
}

/// The switch of a number is up or down as it was, and its ports are as dark as they were.
fn is_still_at(switches: &[SwitchDraft<'_>], n: u32) -> bool
    ensures { IsTrue result → IsStillAt switches.now n }
{
    match switches.get(n as usize) {
        Some(switch) => switch.is_still(),
        None => true,
    }
}

/// It is told of those of some outside ports that lie on a switch and changed. Where nothing turned at the switch, no
/// port is looked at.
fn tell_ports_on(
    alloc: Global,
    topology: &Topology,
    switches: &[SwitchDraft<'_>],
    letters: &mut List<Letter>,
    n: u32,
    v: u16,
    outside: &[u16],
    switch: u32,
) -> Result<(), Memory>
    ensures { OnOk result (letters.new ≡ letters.old
        ++ letters_on topology.now (switches_before switches.now) (switches_in switches.now) n v outside.now switch) }
{
    if is_still_at(switches, switch) {
        return Ok(());
    }
    for port in outside {
        if lies_on(topology, u32::from(v), switch, *port) {
            tell_port(alloc, topology, switches, letters, n, v, *port)?;
        }
    }
    Ok(())
}

/// It is told of those of some outside ports that changed, switch by switch.
fn tell_all(
    alloc: Global,
    topology: &Topology,
    switches: &[SwitchDraft<'_>],
    letters: &mut List<Letter>,
    n: u32,
    v: u16,
    outside: &[u16],
) -> Result<(), Memory>
    ensures { OnOk result (letters.new ≡ letters.old
        ++ flat_map (letters_on topology.now (switches_before switches.now) (switches_in switches.now) n v outside.now)
        (places topology.now.switches)) }
{
    for (switch, _item) in topology.plan().switches.as_slice().iter().enumerate() {
        tell_ports_on(
            alloc,
            topology,
            switches,
            letters,
            n,
            v,
            outside,
            switch as u32,
        )?;
    }
    Ok(())
}

/// A member is told of the outside ports that it sees and that changed, if it is up.
fn tell_member(
    setup: &Setup,
    members: &[MemberDraft<'_>],
    switches: &[SwitchDraft<'_>],
    letters: &mut List<Letter>,
    n: u32,
    m: &MemberItem,
) -> Result<(), Memory>
    requires { m.now.grant.ports.v < length setup.now.virtuals }
    ensures { OnOk result (letters.new ≡ letters.old ++ member_letters setup.now (members_in members.now)
        (switches_before switches.now) (switches_in switches.now) (n, m.now)) }
{
    if !is_member_up(members, n) {
        return Ok(());
    }
    let topology = setup.topology();
    // The proof learns that there are at most 16 virtual switches.
    let _ = topology.plan();
    let v = m.grant.ports.v as u16;
    let outside = m.grant.ports.outside.as_slice();
    tell_all(setup.alloc(), topology, switches, letters, n, v, outside)
}

/// Each member that is up is told of the outside ports that it sees and that changed.
fn tell_members(
    setup: &Setup,
    members: &[MemberDraft<'_>],
    switches: &[SwitchDraft<'_>],
    letters: &mut List<Letter>,
) -> Result<(), Memory>
    ensures { OnOk result (letters.new ≡ letters.old ++ flat_map
        (member_letters setup.now (members_in members.now) (switches_before switches.now) (switches_in switches.now))
        (enumerate_from 0 setup.now.members)) }
{
    for (n, m) in setup.members().iter().enumerate() {
        tell_member(setup, members, switches, letters, n as u32, m)?;
    }
    Ok(())
}

/// Switches are up or down as they were, and their ports are as dark as they were.
fn are_still(switches: &[SwitchDraft<'_>]) -> bool
    ensures { IsTrue result → AllByRecursion IsStill switches.now }
{
    switches.iter().all(|switch| switch.is_still())
}

/// Each member that is up is told of the outside ports that it sees and that changed. Most events turn no port, and then
/// no member is looked at.
fn tell_turned(
    setup: &Setup,
    members: &[MemberDraft<'_>],
    switches: &[SwitchDraft<'_>],
    letters: &mut List<Letter>,
) -> Result<(), Memory>
    ensures { OnOk result (letters.new ≡ letters.old ++ flat_map
        (member_letters setup.now (members_in members.now) (switches_before switches.now) (switches_in switches.now))
        (enumerate_from 0 setup.now.members)) }
{
    if are_still(switches) {
        return Ok(());
    }
    tell_members(setup, members, switches, letters)
}

/// Each member that is up is told of the outside ports that it sees and that changed.
pub fn tell_ports(setup: &Setup, draft: &mut Outcome<'_>) -> Result<(), Memory>
    ensures drafted { OnOk result ((before : State)
        → before.switches ≡ map switch_of (switch_bases draft.old.switches)
        → draft_in draft.new ≡ tell_ports_of setup.now before (draft_in draft.old)) }
    ensures bases { OnOk result (bases draft.new ≡ bases draft.old) }
{
    tell_turned(
        setup,
        draft.members.as_slice(),
        draft.switches.as_slice(),
        &mut draft.ports,
    )?;
    Ok(())
}
