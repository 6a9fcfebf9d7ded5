//! Distances by count of cables.
ghost use Rattle.std.specs.Prelude.{◌≡◌, ◌<◌, ◌^◌, ◌==◌, ◌+◌, ℕ, suc, Bool, false, None, Some, IfOk, length};
ghost use Rattle.std.specs.Prelude.{slice_index_or, if◌then◌else◌};
ghost use Rattle.std.specs.Option.{option_or};
ghost use Rattle.inner_paths.specs.Distances.{distance_within, has_path};
ghost use Rattle.inner_paths.specs.Tables.{IsRow, leads_into as leads_into_of};
ghost use Rattle.virtual_topology.specs.Within.{AreWithin};

use cv_io::Memory;
use std::alloc::Global;

/// From an end of a cable to the other: each a switch by number and a port.
pub(crate) type Way = ((u32, u16), (u32, u16));

/// Whether a layer has a switch.
fn has(layer: &[bool], switch: u32) -> bool
    ensures { result ≡ slice_index_or layer.now switch false }
{
    layer.get(switch as usize).copied().unwrap_or(false)
}

/// Whether some way leads from a switch to one of a layer.
fn leads_into(ways: &[Way], layer: &[bool], from: u32) -> bool
    ensures { result ≡ leads_into_of ways.now layer.now from }
{
    for way in ways {
        if way.0.0 == from && has(layer, way.1.0) {
            return true;
        }
    }
    false
}

/// The layer of the switch itself.
fn own_layer(alloc: Global, count: u32, to: u32) -> Result<Vec<bool>, Memory>
    ensures whole { IfOk result (λ v. length v.items ≡ count) }
    ensures each { IfOk result (λ v. (s : ℕ) → s < count → slice_index_or v.items s false ≡ (s == to)) }
{
    let mut layer = Vec::new(alloc);
    for switch in 0..count {
        layer.push(switch == to)?;
    }
    Ok(layer)
}

/// The switches from which a way leads to one of a layer.
fn next_layer(alloc: Global, ways: &[Way], layer: &[bool], count: u32) -> Result<Vec<bool>, Memory>
    ensures whole { IfOk result (λ v. length v.items ≡ count) }
    ensures each { IfOk result (λ v. (s : ℕ) → s < count
        → slice_index_or v.items s false ≡ leads_into_of ways.now layer.now s) }
{
    let mut next = Vec::new(alloc);
    for switch in 0..count {
        next.push(leads_into(ways, layer, switch))?;
    }
    Ok(next)
}

/// The distance of a switch, once those are known that have a path of so many cables.
fn noted_at(distances: &[Option<u32>], layer: &[bool], cables: u32, switch: u32) -> Option<u32>
    ensures { result ≡ option_or (slice_index_or distances.now switch None)
        (if slice_index_or layer.now switch false then Some cables else None) }
{
    let known = distances.get(switch as usize).copied().unwrap_or(None);
    known.or(if has(layer, switch) {
        Some(cables)
    } else {
        None
    })
}

/// The distances, once the switches are known that have a path of so many cables.
fn noted(
    alloc: Global,
    distances: &[Option<u32>],
    layer: &[bool],
    cables: u32,
    count: u32,
) -> Result<Vec<Option<u32>>, Memory>
    ensures { IfOk result
        (λ v. IsRow count (λ s. option_or (slice_index_or distances.now s None)
        (if slice_index_or layer.now s false then Some cables else None)) v.items) }
{
    let mut noted = Vec::new(alloc);
    for switch in 0..count {
        noted.push(noted_at(distances, layer, cables, switch))?;
    }
    Ok(noted)
}

/// The distances from each switch to one.
pub(crate) fn distances(
    alloc: Global,
    ways: &[Way],
    count: u32,
    to: u32,
) -> Result<Vec<Option<u32>>, Memory>
    requires { AreWithin count ways.now }
    ensures { IfOk result (λ v. IsRow count (λ s. distance_within ways.now count s to) v.items) }
{
    let mut layer = own_layer(alloc, count, to)?;
    let mut distances = noted(alloc, &[], &layer, 0, count)?;
    for cables in 0..count {
        layer = next_layer(alloc, ways, &layer, count)?;
        distances = noted(alloc, &distances, &layer, cables + 1, count)?;
    }
    Ok(distances)
}
