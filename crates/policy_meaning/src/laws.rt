//! The laws on which the hypervisor rests: each function's contract is the law.
ghost use Rattle.policy_meaning.specs.CentralFact.{CentralFact, RulesAreSound};
ghost use Rattle.policy_meaning.specs.Disjoint.{DisjointRulesDiffer, LeafRulesAreDisjoint, NodesAreDisjoint};
ghost use Rattle.policy_meaning.specs.Disjoint.{RulesAreDisjoint};
ghost use Rattle.policy_meaning.specs.EveryNode.{EveryExpression, EveryNode, ExpressionsAreSound};
ghost use Rattle.policy_meaning.specs.Fitting.{NodesAreBelow, RulesAreBelow, SoundTablesFit};
ghost use Rattle.policy_meaning.specs.HopFact.{HopFact};
ghost use Rattle.policy_meaning.specs.LeafFact.{LeafFact, LeafRulesAreSound};
ghost use Rattle.policy_meaning.specs.Order.{ListingIsUnique, OrderKeepsBest};
ghost use Rattle.policy_meaning.specs.Ranged.{NodesAreInRange, RulesAreInRange};
ghost use Rattle.policy_meaning.specs.Written.{NodesAreWritten, NodesHaveLeaves, RulesAreWritten, RulesHaveLeaves};

/// Of the rules of a member's table that hold a header exactly one is best, and it means what the
/// table means.
pub fn leaf_fact()
    ensures best { LeafFact }
    ensures sound { LeafRulesAreSound }
{}

/// Of the rules of an expression that hold a header exactly one is best, and it means what the
/// expression means.
pub fn central_fact()
    ensures best { CentralFact }
    ensures sound { RulesAreSound }
{}

/// Of the rules of a node that hold a header exactly one is best, and its outs are those of the walk.
pub fn hop_fact()
    ensures { HopFact }
{}

/// The same from tables, levels, expressions and links, with nothing between.
pub fn every_node()
    ensures { EveryNode }
{}

/// The same of expressions: of the rules of one that hold a header exactly one is best, and it does what the
/// expression does.
pub fn every_expression()
    ensures best { EveryExpression }
    ensures sound { ExpressionsAreSound }
{}

/// Two rules of which one's leaves begin with the other's, or are the same, hold no header together: of a
/// member's table, of an expression by itself, and of a node, through hops.
pub fn disjointness()
    ensures leaves { LeafRulesAreDisjoint }
    ensures expressions { RulesAreDisjoint }
    ensures nodes { NodesAreDisjoint }
    ensures differ { DisjointRulesDiffer }
{}

/// A rule is written by at most so many actions for each of its leaves as the entries of members are, and has
/// at most the leaves of its expression, and of one for each hop.
pub fn composed_lists()
    ensures rules { RulesAreWritten }
    ensures nodes { NodesAreWritten }
    ensures leaves { RulesHaveLeaves }
    ensures node_leaves { NodesHaveLeaves }
{}

/// What rules set is in range, where what members' entries set is.
pub fn values_in_range()
    ensures rules { RulesAreInRange }
    ensures nodes { NodesAreInRange }
{}

/// In whatever order rules are listed, the same one is best; and of disjoint rules there is one listing in their
/// order.
pub fn stated_order()
    ensures best { OrderKeepsBest }
    ensures listing { ListingIsUnique }
{}

/// Over tables that fit, and sound tables do, the levels of rules are below their expression's or
/// node's size: where that fits a u64, so do they.
pub fn levels_are_below()
    ensures rules { RulesAreBelow }
    ensures nodes { NodesAreBelow }
    ensures sound { SoundTablesFit }
{}
