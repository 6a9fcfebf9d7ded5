ghost use Rattle.policy_expr.specs.Accepting.{HasOneTree};

/// The grammar is unambiguous: a text derives with one tree at most.
pub fn one_tree()
    ensures { HasOneTree }
{}
