//! Laws.
ghost use Rattle.explain_path.specs.Bare.{TracesAreBare};
ghost use Rattle.explain_path.specs.Used.{UsedOfExpressions, UsedOfNodes};

/// The leaves that a trace uses, in order, are those that the best composed rule is made of: of an
/// expression's rules, and of those of each node, through hops.
pub fn used_leaves_are_the_ancestry()
    ensures expressions { UsedOfExpressions }
    ensures nodes { UsedOfNodes }
{}

/// Traces don't look at levels, nor at whether a virtual switch is all of its physical one.
#[tactic(auto, using(crate::proofs::BareTraces::traces_are_bare))]
pub fn levels_change_no_trace()
    ensures { TracesAreBare }
{}
