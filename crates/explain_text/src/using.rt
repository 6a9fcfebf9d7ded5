//! The entry that a switch uses for a packet.
ghost use Rattle.std.specs.Prelude.{◌≡◌};
ghost use Rattle.std.specs.Option.{option_copied};
ghost use Rattle.install_plan.specs.Best.{is_above as is_above_of, is_holding, rank_of};
ghost use Rattle.explain_text.specs.Using.{UsedIsBest, above as above_of, used_for as used_for_of};

use install_plan::Written;
use of10_match::{Header, rank};

/// Where an entry stands among those that hold a packet: entries without wildcards come before all others.
fn rank_of_entry(written: &Written) -> u32
    ensures { result ≡ rank_of written.now.entry }
{
    rank(written.entry.m.is_one_header(), written.entry.priority)
}

/// Whether the first is of a higher rank, or of the same one and of a lesser cookie.
fn is_above(one: &Written, other: &Written) -> bool
    ensures { result ≡ is_above_of one.now other.now }
{
    let (high, low) = (rank_of_entry(one), rank_of_entry(other));
    low < high || (low == high && one.cookie < other.cookie)
}

fn holds(written: &Written, header: &Header) -> bool
    ensures { result ≡ is_holding header.now written.now }
{
    written.entry.m.holds(header)
}

/// The one of two that is above the other; else the first.
fn above<'a>(best: Option<&'a Written>, next: &'a Written) -> &'a Written
    ensures { result.now ≡ above_of (option_copied best.entry) next.now }
{
    match best {
        Some(best) if !is_above(next, best) => best,
        _ => next,
    }
}

/// The highest of the entries that hold a packet of a header, if one does.
pub fn used_for<'a>(standing: &'a [Written], header: &Header) -> Option<&'a Written>
    ensures { option_copied result ≡ used_for_of header.now standing.now }
{
    let mut best = None;
    for written in standing {
        if holds(written, header) {
            best = Some(above(best, written));
        }
    }
    best
}

/// It is the first by the rule of tables of switches.
pub fn used_is_best()
    ensures { UsedIsBest }
{}
