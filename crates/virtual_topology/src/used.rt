//! Places that are used once each.
ghost use Rattle.std.specs.Prelude.{◌≡◌, [], None, IfOk, map};
ghost use Rattle.std.specs.List.{list_any};
ghost use Rattle.std.specs.HashSet.{contains};
ghost use Rattle.virtual_topology.specs.Faults.{Answers, first_again, twice_among};
ghost use Rattle.virtual_topology.specs.Places.{same_use};
ghost use Rattle.virtual_topology.specs.Shown.{shown, same_shown};

use crate::fault::TopologyFault;
use crate::text::use_text;
use crate::uses::Use;
use cv_io::Memory;
use std::alloc::Global;
use std::collections::HashSet;
use std::marker::Model;

/// Places that are used, in the order of the file, each once.
#[derive(Drop)]
pub(crate) struct Used<'a> {
    list: Vec<Use<'a>>,
    set: HashSet<Use<'a>>,
}

impl<'a> Model for Used<'a> {
    ghost use Rattle.std.specs.Prelude.{◌≡◌, List, map};
    ghost use Rattle.std.specs.List.{list_any};
    ghost use Rattle.std.specs.HashSet.{contains};
    ghost use Rattle.virtual_topology.specs.Places.{PlaceUse, same_use};

    ghost Value = { List PlaceUse };

    ghost use Rattle.virtual_topology.specs.declared.uses.Use.{Use};
    ghost use Rattle.virtual_topology.specs.Shown.{shown, same_shown};

    ghost view = { λ a. map shown a.list.items };

    ghost invariant = { λ a. (u : Use)
        → contains same_shown a.set u ≡ list_any (same_use (shown u)) (map shown a.list.items) };
}

/// The set of places that are each used once, or the fault of the first that is used again.
fn set_of<'a>(alloc: Global, list: &[Use<'a>]) -> Result<HashSet<Use<'a>>, TopologyFault>
    ensures fault { Answers TopologyFault.Memory result (twice_among (map shown list.now)) }
    ensures contains { IfOk result (λ set. (u : _)
        → contains same_shown set u ≡ list_any (same_use (shown u)) (map shown list.now)) }
{
    let mut set = HashSet::with_capacity(alloc, list.len())?;
    for place in list {
        if !set.insert(*place)? {
            return Err(TopologyFault::PortTwice {
                name: use_text(alloc, place)?,
            });
        }
    }
    Ok(set)
}

impl<'a> Used<'a> {
    /// Places that are each used once; the fault names the first that is used again.
    pub(crate) fn of(alloc: Global, list: Vec<Use<'a>>) -> Result<Used<'a>, TopologyFault>
        ensures fault { Answers TopologyFault.Memory result (twice_among (map shown list.entry.items)) }
        ensures list { IfOk result (λ used. used ≡ map shown list.entry.items) }
    {
        let set = set_of(alloc, &list)?;
        Ok(Used { list, set })
    }

    /// Whether a place is used.
    pub(crate) fn contains(&self, place: &Use<'a>) -> bool
        ensures { result ≡ list_any (same_use (shown place.now)) self.now }
    {
        self.set.contains(place)
    }

    /// The places, in the order of the file.
    pub(crate) fn list(&self) -> &[Use<'a>]
        ensures { map shown result.now ≡ self.now }
    {
        &self.list
    }
}
