//! The port by which packets from one switch to another leave the first.
ghost use Rattle.std.specs.Prelude.{◌≡◌, ◌==◌, ℕ, None, Some, filter_map, option_map, slice_index_or, if◌then◌else◌};
ghost use Rattle.inner_paths.specs.Hops.{is_nearer as is_nearer_of, lead_by as lead_by_of, nearer as nearer_of};
ghost use Rattle.inner_paths.specs.Hops.{nearest as nearest_of, nearest_with as nearest_with_of};

use crate::distance::Way;

/// A distance that is left, and the port that leads so far.
type Lead = (u32, u16);

/// Whether the one leads nearer, or as near by a port of lower number.
fn is_nearer(a: Lead, b: Lead) -> bool
    ensures { result ≡ is_nearer_of a b }
{
    a.0 < b.0 || a.0 == b.0 && a.1 < b.1
}

fn nearer(a: Lead, b: Option<Lead>) -> Lead
    ensures { result ≡ nearer_of a b }
{
    match b {
        None => a,
        Some(b) => { if is_nearer(b, a) { b } else { a } }
    }
}

/// The nearer of what leads on, if anything does.
fn nearest_with(a: Option<Lead>, b: Option<Lead>) -> Option<Lead>
    ensures { result ≡ nearest_with_of a b }
{
    match a {
        None => b,
        Some(a) => Some(nearer(a, b)),
    }
}

/// How a cable leads on from a switch.
fn lead_by(distances: &[Option<u32>], from: u32, way: &Way) -> Option<Lead>
    ensures { result ≡ lead_by_of (λ s. slice_index_or distances.now s None) from way.now }
{
    if way.0.0 != from {
        return None;
    }
    let left = distances.get(way.1.0 as usize).copied().unwrap_or(None)?;
    Some((left, way.0.1))
}

/// What leads nearest from a switch; of what leads as near the port of least number.
pub(crate) fn nearest(ways: &[Way], distances: &[Option<u32>], from: u32) -> Option<Lead>
    ensures { result ≡ nearest_of (filter_map (lead_by_of (λ s. slice_index_or distances.now s None) from) ways.now) }
{
    let mut best = None;
    let mut left = ways.len();
    while left > 0 {
        left -= 1;
        best = nearest_with(lead_by(distances, from, &ways[left]), best);
    }
    best
}
