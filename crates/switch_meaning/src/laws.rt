//! Laws of switches and of what is put on them: each function's contract is the law.
ghost use Rattle.std.specs.Prelude.{List};
ghost use Rattle.switch_meaning.specs.BatchLaw.{BatchGivesTable, FreshGivesTable, InstalledHasOneAKey, OrderIsFree};
ghost use Rattle.switch_meaning.specs.BatchLaw.{SortedByKey};
ghost use Rattle.switch_meaning.specs.BestLaw.{BestIsInstalled, BestIsUsed};
ghost use Rattle.switch_meaning.specs.Choosing.{chosen, table_at};
ghost use Rattle.switch_meaning.specs.Counts.{CountsAdd, CountsWithoutTotals, FoldingKeepsCounts};
ghost use Rattle.switch_meaning.specs.Following.{IsAllowed};
ghost use Rattle.switch_meaning.specs.FiringLaw.{FiringGivesOuts};
ghost use Rattle.switch_meaning.specs.declared.choosing.Reading.{Reading};
ghost use Rattle.switch_meaning.specs.declared.entry.FlowEntry.{FlowEntry};

/// A switch that uses the entry of a rule sends each packet exactly as the rule's outs say, and makes
/// one copy for the controller where a member is told.
pub fn firing()
    ensures { FiringGivesOuts }
{}

/// Of entries that are one for each key, with the smallest ancestry, a switch uses the one of the
/// best rule, whether it puts entries without wildcards first or goes by priority alone.
pub fn using()
    ensures one_per_key { BestIsUsed }
    ensures installed { BestIsInstalled }
{}

/// Whatever the tables have, each switch has something that it may use, by either reading.
pub fn choosing()
    ensures { (tables : List (List FlowEntry)) (reading : Reading)
        → IsAllowed (table_at tables) (chosen tables reading) }
{}

/// A batch makes one table of another, in whichever order a switch takes the messages of each phase,
/// and so does an installation from any table. What a switch may use does not depend on the order of
/// its table. The messages of a phase are written by rising key, and what is installed has one entry
/// for each.
pub fn batching()
    ensures from_table { BatchGivesTable }
    ensures from_any { FreshGivesTable }
    ensures any_order { OrderIsFree }
    ensures by_key { SortedByKey }
    ensures installed { InstalledHasOneAKey }
{}

/// The packets and bytes of a leaf are summed over the cookies that name it, each once. Sums that stand still at
/// 2^64 - 1 hang neither on order nor on grouping, so cookies that are folded into totals may be forgotten.
pub fn counting()
    ensures whole { CountsWithoutTotals }
    ensures folded { FoldingKeepsCounts }
    ensures parts { CountsAdd }
{}
