//! The entry that a switch uses for a packet.
ghost use Rattle.std.specs.Prelude.{◌≡◌, ◌∷◌, []};
ghost use Rattle.std.specs.Option.{option_copied};
ghost use Rattle.of10_match.specs.Highest.{highest};
ghost use Rattle.of10_match.specs.Matching.{holds};
ghost use Rattle.switch_meaning.specs.Choosing.{chosen_entry, height_of};
ghost use Rattle.switch_meaning.specs.InsideChoosing.{after};
ghost use Rattle.switch_meaning.specs.MayUse.{MayUse};

use crate::entry::FlowEntry;
use cv_io::List;
use of10_match::{Header, rank};

/// How a switch ranks the entries that hold a packet.
#[derive(Clone, Copy, PartialEq, Eq, Debug)]
pub enum Reading {
    /// Entries without wildcards come before all others (section 3.4).
    ExactFirst,
    PriorityAlone,
}

/// The entry that a switch uses for the packets of a header: of those that hold it the first of the
/// highest.
pub fn usable<'a>(
    table: &'a List<FlowEntry>,
    header: &Header,
    reading: Reading,
) -> Option<&'a FlowEntry>
    ensures value { option_copied result ≡ chosen_entry reading table.now header.now }
    ensures may_use { MayUse table.now header.now (option_copied result) }
{
    let mut best = None;
    for entry in table.as_slice() {
        best = better(best, entry, header, reading);
    }
    best
}

/// The entry before, or this one where it holds the header and is above it.
fn better<'a>(
    best: Option<&'a FlowEntry>,
    entry: &'a FlowEntry,
    header: &Header,
    reading: Reading,
) -> Option<&'a FlowEntry>
    ensures { option_copied result ≡ after (height_of reading) (option_copied best.entry)
        (highest (λ e. holds e.m header.now) (height_of reading) (entry.now ∷ [])) }
{
    if !entry.m.holds(header) {
        return best;
    }
    match best {
        Some(other) => {
            if height(other, reading) < height(entry, reading) {
                Some(entry)
            } else {
                best
            }
        }
        None => Some(entry),
    }
}

/// How high an entry is by a reading.
fn height(entry: &FlowEntry, reading: Reading) -> u32
    ensures { result ≡ height_of reading entry.now }
{
    match reading {
        Reading::ExactFirst => rank(entry.m.is_one_header(), entry.priority),
        Reading::PriorityAlone => u32::from(entry.priority),
    }
}
