//! What is read of the switches of a draft, by their numbers.
ghost use Rattle.std.specs.Prelude.{◌≡◌, ◌++◌, [], IfOk, OnOk, filter, map, slice_get};
ghost use Rattle.std.specs.List.{flat_map};
ghost use Rattle.std.specs.Option.{option_map_or};
ghost use Rattle.switch_state.specs.Known.{unanswered};
ghost use Rattle.machine_drafts.specs.InsideSwitches.{is_dark_among, is_dark_over};
ghost use Rattle.machine_drafts.specs.InsideSwitches.{is_up_among, unanswered_among};
ghost use Rattle.machine_drafts.specs.Outcomes.{switches_in};
ghost use Rattle.machine_meaning.specs.States.{SwitchOf};
ghost use Rattle.waitings.specs.Waitings.{unwritten};

use crate::switch_draft::SwitchDraft;
use cv_io::{List, Memory};
use std::alloc::Global;
use virtual_topology::Topology;
use waitings::{Part, Parts};

/// The switch of a number is up.
pub fn is_up(switches: &[SwitchDraft<'_>], n: u32) -> bool
    ensures { result ≡ is_up_among (switches_in switches.now) n }
{
    match switches.get(n as usize) {
        Some(switch) => switch.is_up(),
        None => false,
    }
}

/// The answers of those of some switches that are up, to a request that has no xid yet.
pub fn unwritten_parts(
    alloc: Global,
    switches: &[SwitchDraft<'_>],
    numbers: &[u32],
) -> Result<Parts, Memory>
    ensures { IfOk result (λ parts. parts
        ≡ map unwritten (filter (is_up_among (switches_in switches.now)) numbers.now)) }
{
    let mut parts = Parts::new(alloc);
    for n in numbers {
        if is_up(switches, *n) {
            parts.push(Part {
                switch: *n,
                number: 0,
            })?;
        }
    }
    Ok(parts)
}

/// Appends barriers of the switch of a number.
fn add_barriers(parts: &mut Parts, n: u32, numbers: &[u64]) -> Result<(), Memory>
    ensures { OnOk result (parts.new
        ≡ parts.old ++ map (λ number. record { switch = n; number = number }) numbers.now) }
{
    for number in numbers {
        parts.push(Part {
            switch: n,
            number: *number,
        })?;
    }
    Ok(())
}

/// The numbers of the barriers that the switch of a number hasn't answered.
fn unanswered_numbers(
    alloc: Global,
    switches: &[SwitchDraft<'_>],
    n: u32,
) -> Result<List<u64>, Memory>
    ensures { IfOk result (λ numbers. numbers
        ≡ option_map_or (λ (x : SwitchOf). unanswered x.known) (slice_get (switches_in switches.now) n) []) }
{
    match switches.get(n as usize) {
        Some(switch) => switch.known().unanswered(alloc),
        None => Ok(List::new(alloc)),
    }
}

/// Appends the barriers that the switch of a number hasn't answered.
fn add_unanswered(
    alloc: Global,
    parts: &mut Parts,
    switches: &[SwitchDraft<'_>],
    n: u32,
) -> Result<(), Memory>
    ensures { OnOk result (parts.new ≡ parts.old ++ unanswered_among (switches_in switches.now) n) }
{
    let numbers = unanswered_numbers(alloc, switches, n)?;
    add_barriers(parts, n, numbers.as_slice())
}

/// The barriers that some switches haven't answered.
pub fn unanswered_parts(
    alloc: Global,
    switches: &[SwitchDraft<'_>],
    numbers: &[u32],
) -> Result<Parts, Memory>
    ensures { IfOk result (λ parts. parts
        ≡ flat_map (unanswered_among (switches_in switches.now)) numbers.now) }
{
    let mut parts = Parts::new(alloc);
    for n in numbers {
        add_unanswered(alloc, &mut parts, switches, *n)?;
    }
    Ok(parts)
}

/// A physical port is dark: its switch isn't up, or said that the port is down.
fn is_dark(switches: &[SwitchDraft<'_>], spot: (u32, u16)) -> bool
    ensures { result ≡ is_dark_among (switches_in switches.now) spot }
{
    match switches.get(spot.0 as usize) {
        Some(switch) => !switch.is_up() || switch.known().is_dark(spot.1),
        None => true,
    }
}

/// An outside port of a virtual switch is dark.
pub fn is_dark_at(topology: &Topology, switches: &[SwitchDraft<'_>], v: u32, port: u16) -> bool
    ensures { result ≡ is_dark_over topology.now (switches_in switches.now) v port }
{
    match topology.outside(v, port) {
        Some(spot) => is_dark(switches, spot),
        None => false,
    }
}

/// Those of some outside ports of a virtual switch that are dark.
pub fn dark_among(
    alloc: Global,
    topology: &Topology,
    switches: &[SwitchDraft<'_>],
    v: u32,
    outside: &[u16],
) -> Result<List<u16>, Memory>
    ensures { IfOk result (λ dark. dark
        ≡ filter (is_dark_over topology.now (switches_in switches.now) v) outside.now) }
{
    let mut dark = List::new(alloc);
    for port in outside {
        if is_dark_at(topology, switches, v, *port) {
            dark.push(*port)?;
        }
    }
    Ok(dark)
}
