//! Worked examples, computed by the checker.
ghost use Rattle.member_table.specs.Worked.{ActionsChange, ChangesAreNamed, EntriesAreRefused, EntriesCome, EntriesGo};
ghost use Rattle.member_table.specs.Worked.{ExactIsAbove, HighestIsBest, ExpiredGo, TimesAreUp};

/// A table of two entries, what the five commands make of it, what is refused, which entry is best,
/// when time is up, and what is left then.
#[tactic(auto, unfolding(crate::specs::Tables::is_output_to))]
pub fn worked_examples()
    ensures entries_come { EntriesCome }
    ensures actions_change { ActionsChange }
    ensures entries_go { EntriesGo }
    ensures changes_are_named { ChangesAreNamed }
    ensures entries_are_refused { EntriesAreRefused }
    ensures exact_is_above { ExactIsAbove }
    ensures highest_is_best { HighestIsBest }
    ensures times_are_up { TimesAreUp }
    ensures expired_go { ExpiredGo }
{}
