//! The parts that a long FLOW reply is cut into.
ghost use Rattle.std.specs.Prelude.{◌≡◌, ◌<◌, ◌≤◌, All, length};
ghost use Rattle.of10_stats.specs.Parts.{taken};
ghost use Rattle.of10_stats.specs.Ranges.{CanWriteEntry};

use crate::reply::FlowStat;

/// How many bytes a part has at most, its header included, unless it is one long entry.
const PART: usize = 2048;

/// How many bytes of a message stand before what its statistics tell.
pub const HEAD: usize = 12;

/// How many of the entries the next part takes: as many as fit, and at least one.
#[tactic(auto, unfolding(crate::specs::Parts::taken))]
pub fn part_length(entries: &[FlowStat]) -> usize
    requires { All CanWriteEntry entries.now }
    ensures { result ≡ taken 0 entries.now }
{
    let mut count = 0;
    let mut used = 0;
    for entry in entries {
        let size = entry.length();
        if used > 0 && HEAD + used + size > PART {
            break;
        }
        used += size;
        count += 1;
    }
    count
}
