//! Laws.
ghost use Rattle.packet_map.specs.Bare.{BestIsTheLeafs, WalksAreBare};

/// The entry that a member's table finds is the best one of its leaf, whatever the levels.
#[tactic(auto, using(crate::proofs::BareWalks::best_is_the_leafs))]
pub fn best_entry_is_the_leafs()
    ensures { BestIsTheLeafs }
{}

/// Walks don't look at levels, nor at whether a virtual switch is all of its physical one.
#[tactic(auto, using(crate::proofs::BareWalks::walks_are_bare))]
pub fn levels_change_no_walk()
    ensures { WalksAreBare }
{}
