//! Worked examples, each computed by the checker.
ghost use Rattle.switch_meaning.specs.Counts.{ThreeAreCounted};
ghost use Rattle.switch_meaning.specs.WorkedEntries.{BalancerIsPlaced, IngressIsWritten, OneCopyFirst, TableIsChanged};
ghost use Rattle.switch_meaning.specs.WorkedEntries.{WholeIsPlaced};
ghost use Rattle.switch_meaning.specs.WorkedFlood.{FloodIsFired, FloodIsFollowed, FloodIsPlaced, OthersAreDropped};
ghost use Rattle.switch_meaning.specs.WorkedFlood.{TagsAreCarried};
ghost use Rattle.switch_meaning.specs.WorkedKeys.{ExactIsPassedOver, LevelsMove, NetGoes, SixAreInstalled};

/// FLOOD over three switches: its entry, the fixed entries, what the first switch makes of a packet,
/// and the way of it.
pub fn worked_flood()
    ensures flood_is_placed { FloodIsPlaced }
    ensures tags_are_carried { TagsAreCarried }
    ensures flood_is_fired { FloodIsFired }
    ensures flood_is_followed { FloodIsFollowed }
    ensures others_are_dropped { OthersAreDropped }
{}

/// Entries of rules, and a table after changes.
pub fn worked_entries()
    ensures balancer_is_placed { BalancerIsPlaced }
    ensures ingress_is_written { IngressIsWritten }
    ensures one_copy_first { OneCopyFirst }
    ensures whole_is_placed { WholeIsPlaced }
    ensures table_is_changed { TableIsChanged }
{}

/// Pairs that share a key, and changes from table to table.
pub fn worked_keys()
    ensures six_are_installed { SixAreInstalled }
    ensures exact_is_passed_over { ExactIsPassedOver }
    ensures net_goes { NetGoes }
    ensures levels_move { LevelsMove }
{}

/// Packets and bytes of a leaf, with and without totals.
pub fn worked_counts()
    ensures three_are_counted { ThreeAreCounted }
{}
