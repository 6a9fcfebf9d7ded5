//! The dials of the endpoints.
ghost use Rattle.std.specs.Prelude.{◌≡◌, ◌≤◌, IfOk, MatchOption};
ghost use Rattle.outside.specs.Outside.{Rose, RoseBy};
ghost use Rattle.outside.specs.declared.links.Endpoint.{Endpoint};
ghost use Rattle.serving.specs.Lines.{AreLinesOf, IsLineOf};

use crate::place::Place;
use cv_io::{List, Memory};
use endpoint_works::Side;
use outside::Links;
use std::alloc::Global;

/// An endpoint that has a dial.
#[derive(Drop)]
pub(crate) struct Line<D: Drop> {
    pub side: Side,
    pub dial: D,
}

/// The endpoints that have a dial, and how many have none.
#[derive(Drop)]
pub(crate) struct Lines<D: Drop> {
    pub lines: List<Line<D>>,
    pub undialled: usize,
}

/// Dials every endpoint. Those that can't be dialled are left out.
pub(crate) fn dial_all<L: Links>(
    alloc: Global,
    links: &mut L,
    places: List<Place>,
) -> Result<Lines<L::Dial>, Memory>
where
    L::Dial: Drop,
    ensures lines { IfOk result (λ all. AreLinesOf (L.told links.old) (L.is_reliable links.old)
        L.Dial.left L.Dial.is_reliable all.undialled places all.lines) }
    ensures fault { IfOk result (λ all. RoseBy all.undialled (L.faults links.old) (L.faults links.new)) }
    ensures never_falls { L.faults links.old ≤ L.faults links.new }
{
    let count = places.len();
    let mut lines = List::with_capacity(alloc, count)?;
    for place in places.into_vec() {
        let Some(line) = dial_one(links, place) else {
            continue;
        };
        lines.push(line)?;
    }
    let undialled = count - lines.len();
    Ok(Lines { lines, undialled })
}

/// Dials an endpoint, if that can be done.
fn dial_one<L: Links>(links: &mut L, place: Place) -> Option<Line<L::Dial>>
where
    L::Dial: Drop,
    ensures line { MatchOption result (Rose (L.faults links.old) (L.faults links.new))
        (IsLineOf (L.told links.old) (L.is_reliable links.old) L.Dial.left L.Dial.is_reliable place) }
    ensures told { (end : Endpoint) → L.told links.new end ≡ L.told links.old end }
    ensures reliable { (end : Endpoint) → L.is_reliable links.new end ≡ L.is_reliable links.old end }
    ensures never_falls { L.faults links.old ≤ L.faults links.new }
{
    let Place { end, side } = place;
    let dial = links.dial(&end).ok()?;
    Some(Line { side, dial })
}
