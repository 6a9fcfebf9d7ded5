//! Laws of what is kept: each function's contract is the law.
ghost use Rattle.composed_tables.specs.ComposedLaw.{EntriesByEntrance, EntriesChange};

/// The entries of a switch from scratch are those of the rules at each entrance, and where these change, exactly
/// the entries of what went and came go and come.
pub fn entries_follow_rules()
    ensures scratch { EntriesByEntrance }
    ensures changes { EntriesChange }
{}
