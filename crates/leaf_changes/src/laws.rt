//! Each function's contract is a law.
ghost use Rattle.leaf_changes.specs.Leaves.{LeavesChange};
ghost use Rattle.leaf_changes.specs.Plans.{MessagesArePlans};

/// Where the leaves of some entries go and the rules of those that are there then come, the rules are those of the
/// table that differs in these entries alone.
pub fn leaves_change()
    ensures { LeavesChange }
{}

/// What `MemberState::judge` plans for a message is a plan whose changes can be told.
pub fn messages_are_plans()
    ensures { MessagesArePlans }
{}
