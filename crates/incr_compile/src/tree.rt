//! A tree of operators over the rules of members.
ghost use Rattle.std.specs.Prelude.{◌≡◌, ◌+◌, ◌≤◌, ℕ, IfOk, List, OnErr, OnOk, Some, length, map};
ghost use Rattle.op_compose.specs.declared.op.Side.TheVariants.{Left, Right};
ghost use Rattle.policy_meaning.specs.declared.rule.Rule.{Rule};
ghost use Rattle.rule_ancestry.specs.Holding.{Held, item_of};
ghost use Rattle.made_rules.specs.Changing.{IsReady};
ghost use Rattle.made_rules.specs.Rules.{rules_in};
ghost use Rattle.made_rules.specs.declared.made.Made.{Made};
ghost use Rattle.incr_compile.specs.Candidates.{left_cost, right_cost};
ghost use Rattle.incr_compile.specs.Compiling.{Asks, IsOf, MemberChanges, policy_in};
ghost use Rattle.incr_compile.specs.Costs.{steps_of};
ghost use Rattle.incr_compile.specs.Nodes.{IsCarried, LeftChanges, RightChanges, made_by, node_of};
ghost use Rattle.incr_compile.specs.Trees.{CanCarryLeft, CanCarryRight, CanChange, IsReadyIn, IsSettled, IsUnderWay};
ghost use Rattle.incr_compile.specs.Trees.{TreeOf, has_member, made_in, tree_of};
ghost use Rattle.incr_compile.specs.declared.compiled.LeafDelta.{LeafDelta};
ghost use Rattle.incr_compile.specs.declared.tree.MemberChange.{MemberChange};

use crate::node::{Below, Node};
use cv_io::{Duplicate, Memory, Steps};
use made_rules::{Change, Made, Origin, made_of};
use op_compose::Side;
use rule_ancestry::Store;
use std::alloc::Global;
use std::sync::ledger::Ledger;

/// A member's rules, or what an operator makes of those of two trees.
#[derive(Drop)]
pub enum Tree {
    Member {
        member: u32,
        size: u64,
        made: Store<Made>,
    },
    Operator {
        node: Node,
        left: Box<Tree>,
        right: Box<Tree>,
    },
}

/// A change of a member's rules: what is made of these leaves goes, and these rules come.
#[derive(Drop)]
pub struct MemberChange {
    pub member: u32,
    pub gone: Vec<Origin>,
    pub come: Vec<Made>,
}

/// Carries a change of the left operand on, or takes it back.
fn carry_left<G: Ledger>(
    alloc: Global,
    node: &mut Node,
    left: &mut Tree,
    right: &Tree,
    below: Change,
    steps: &mut Steps<G>,
) -> Result<Change, Memory>
    requires { CanCarryLeft (node_of node.old) left.old (tree_of right.now) below }
    ensures carried { (before mid : List (Held Made))
        → LeftChanges (node_of node.old) before (made_in (tree_of left.old)) mid (made_in (tree_of right.now)) below
        → IfOk result (λ change. (after : List (Held Made))
        × IsCarried node.old.made node.new.made after change
        (made_by (node_of node.old) (rules_in mid) (rules_in (made_in (tree_of right.now))))) }
    ensures below { OnOk result (node.new.below ≡ Some (record { side = Left; change = below })) }
    ensures room { OnOk result (length below.come ≤ node.new.lefts.room) }
    ensures rest { node_of node.new ≡ record (node_of node.old) { made = node.new.made } }
    ensures left { OnOk result (left.new ≡ left.old) }
    ensures steps { (before mid : List (Held Made))
        → (l : LeftChanges (node_of node.old) before (made_in (tree_of left.old)) mid (made_in (tree_of right.now))
        below)
        → steps.new ≤ steps.old + left_cost node.old.op (rules_in (made_in (tree_of right.now)))
        (rules_in l.ready.coming) }
    ensures memory { OnErr result (node.new.made ≡ node.old.made) }
    ensures undone { (asked : MemberChange) → (before : TreeOf) → (mid : List (Held Made))
        → IsReadyIn asked before left.old below mid → OnErr result (tree_of left.new ≡ before) }
{
    // That no two are held under one id.
    let _count = left.made().len();
    match node.ready_left(alloc, left.made(), right.made(), &below, steps) {
        Ok(change) => {
            node.below = Some(Below {
                side: Side::Left,
                change: below,
            });
            Ok(change)
        }
        Err(wanted) => {
            left.undo(below);
            Err(wanted)
        }
    }
}

/// Carries a change of the right operand on, or takes it back.
fn carry_right<G: Ledger>(
    alloc: Global,
    node: &mut Node,
    left: &Tree,
    right: &mut Tree,
    below: Change,
    steps: &mut Steps<G>,
) -> Result<Change, Memory>
    requires { CanCarryRight (node_of node.old) (tree_of left.now) right.old below }
    ensures carried { (before mid : List (Held Made))
        → RightChanges (node_of node.old) before (made_in (tree_of right.old)) mid (made_in (tree_of left.now)) below
        → IfOk result (λ change. (after : List (Held Made))
        × IsCarried node.old.made node.new.made after change
        (made_by (node_of node.old) (rules_in (made_in (tree_of left.now))) (rules_in mid))) }
    ensures below { OnOk result (node.new.below ≡ Some (record { side = Right; change = below })) }
    ensures room { OnOk result (length below.come ≤ node.new.rights.room) }
    ensures rest { node_of node.new ≡ record (node_of node.old) { made = node.new.made } }
    ensures right { OnOk result (right.new ≡ right.old) }
    ensures steps { (before mid : List (Held Made))
        → (l : RightChanges (node_of node.old) before (made_in (tree_of right.old)) mid (made_in (tree_of left.now))
        below)
        → steps.new ≤ steps.old + right_cost node.old.op (rules_in (made_in (tree_of left.now)))
        (rules_in l.ready.coming) }
    ensures memory { OnErr result (node.new.made ≡ node.old.made) }
    ensures undone { (asked : MemberChange) → (before : TreeOf) → (mid : List (Held Made))
        → IsReadyIn asked before right.old below mid → OnErr result (tree_of right.new ≡ before) }
{
    // That no two are held under one id.
    let _count = right.made().len();
    match node.ready_right(alloc, left.made(), right.made(), &below, steps) {
        Ok(change) => {
            node.below = Some(Below {
                side: Side::Right,
                change: below,
            });
            Ok(change)
        }
        Err(wanted) => {
            right.undo(below);
            Err(wanted)
        }
    }
}

impl Tree {
    /// The rules at the root.
    pub fn made(&self) -> &Store<Made>
        ensures { result.now ≡ made_in (tree_of self.now) }
    {
        match self {
            Tree::Member { made, .. } => made,
            Tree::Operator { node, .. } => &node.made,
        }
    }

    /// Whether a member is one of the tree's.
    pub fn has(&self, wanted: u32) -> bool
        ensures { result ≡ has_member wanted (tree_of self.now) }
    {
        match self {
            Tree::Member { member, .. } => wanted == *member,
            Tree::Operator { left, right, .. } => left.has(wanted) || right.has(wanted),
        }
    }

    /// Makes a change of a member's rules ready, from there to the root.
    pub fn ready<G: Ledger>(
        &mut self,
        alloc: Global,
        asked: MemberChange,
        steps: &mut Steps<G>,
    ) -> Result<Change, Memory>
        requires { CanChange asked (tree_of self.old) }
        ensures ready { IfOk result (λ change. (after : List (Held Made))
            × IsReadyIn asked (tree_of self.old) self.new change after) }
        ensures steps { (delta : LeafDelta) → (sizes : ℕ → ℕ) → (before after : ℕ → List Rule)
            → Asks delta asked → MemberChanges delta before after → IsOf sizes before (tree_of self.old)
            → steps.new ≤ steps.old + steps_of sizes before after (policy_in (tree_of self.old)) }
        ensures memory { OnErr result (tree_of self.new ≡ tree_of self.old) }
    {
        match self {
            Tree::Member { made, .. } => {
                let lost = made_of(alloc, made, &asked.gone)?;
                Change::ready(alloc, made, &lost, asked.come)
            }
            Tree::Operator { node, left, right } => {
                if left.has(asked.member) {
                    let below = left.ready(alloc, asked, steps)?;
                    carry_left(alloc, node, left, right, below, steps)
                } else {
                    let below = right.ready(alloc, asked, steps)?;
                    carry_right(alloc, node, left, right, below, steps)
                }
            }
        }
    }

    /// Settles a change that is ready: what goes leaves each store. This takes no memory. The rules
    /// that leave the root are handed out.
    pub fn settle(&mut self, change: Change) -> Vec<Made>
        requires { IsUnderWay self.old change }
        ensures settled { (asked : MemberChange) → (before : TreeOf) → (after : List (Held Made))
            → CanChange asked before → IsReadyIn asked before self.old change after
            → IsSettled asked before (tree_of self.new) after }
        ensures left { (before : List (Held Made)) → (lost : _) → (fresh : List Made)
            → (r : IsReady before (made_in (tree_of self.old)) lost fresh change)
            → result.items ≡ map item_of r.going }
    {
        match self {
            Tree::Member { made, .. } => change.settle(made),
            Tree::Operator { node, left, right } => match node.below.take() {
                Some(
                    Below {
                        side,
                        change: below,
                    },
                ) => match side {
                    Side::Left => {
                        let gone = node.settle_left(left.made(), &below, change);
                        left.settle(below);
                        gone
                    }
                    Side::Right => {
                        let gone = node.settle_right(right.made(), &below, change);
                        right.settle(below);
                        gone
                    }
                },
                None => change.settle(&mut node.made),
            },
        }
    }

    /// Takes a change back that is ready. This takes no memory.
    pub fn undo(&mut self, change: Change)
        requires { IsUnderWay self.old change }
        ensures { (asked : MemberChange) → (before : TreeOf) → (after : List (Held Made))
            → IsReadyIn asked before self.old change after → tree_of self.new ≡ before }
    {
        match self {
            Tree::Member { made, .. } => change.undo(made),
            Tree::Operator { node, left, right } => {
                change.undo(&mut node.made);
                match node.below.take() {
                    Some(
                        Below {
                            side,
                            change: below,
                        },
                    ) => match side {
                        Side::Left => left.undo(below),
                        Side::Right => right.undo(below),
                    },
                    None => {}
                }
            }
        }
    }

    /// A copy of a tree of which no change is under way.
    pub fn copy(&self, alloc: Global) -> Result<Tree, Memory>
        ensures { IfOk result (λ copied. tree_of copied ≡ tree_of self.now) }
    {
        Ok(match self {
            Tree::Member { member, size, made } => Tree::Member {
                member: *member,
                size: *size,
                made: made.copy()?,
            },
            Tree::Operator { node, left, right } => Tree::Operator {
                node: node.copy()?,
                left: Box::new(alloc, left.copy(alloc)?)?,
                right: Box::new(alloc, right.copy(alloc)?)?,
            },
        })
    }
}
