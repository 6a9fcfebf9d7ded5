//! A compiled expression: its rules, kept under changes of its members' rules.
use crate::building::build_tree;
use crate::member::asked_of;
use crate::telling::{all_rules, rules_in_room, tell};
use crate::tree::Tree;
use cv_io::{Leaf, List, Memory, Steps};
use op_compose::RuleDelta;
use policy_expr::Expr;
use policy_meaning::{LeafTable, Rule, listed};
use std::alloc::Global;
use std::marker::Model;
use std::sync::ledger::Ledger;
use std::thread::Threads;

/// A change of a member's rules: all rules of some leaves go, and some rules come.
#[derive(Debug, Drop)]
pub struct LeafDelta {
    pub member: u32,
    pub gone: List<Leaf>,
    pub come: List<Rule>,
}

/// The rules of an expression, kept under changes of its members' rules.
#[derive(Drop)]
pub struct Compiled {
    alloc: Global,
    tree: Tree,
}

impl Model for Compiled {
    ghost use Rattle.incr_compile.specs.Trees.{IsOnce, IsTree, tree_of};
    ghost use Rattle.incr_compile.specs.declared.tree.Tree.{Tree};
    ghost use Rattle.incr_compile.specs.contracts.tree.Tree as e;
    ghost use Rattle.std.specs.Coded.{codes};

    ghost Value = { Tree };

    ghost coded = { Prim.hlevel (codes, e.the_row.coded) };

    ghost view = { λ c. c.tree };

    ghost invariant = { λ c. IsTree (tree_of c.tree) × IsOnce (tree_of c.tree) };
}

impl Compiled {
    ghost use Rattle.std.specs.Prelude.{◌≡◌, ◌≢◌, ◌+◌, ◌<◌, ◌≤◌, ◌^◌, ℕ, All, IfOk, IsPermutation, List, OnErr, OnOk};
    ghost use Rattle.std.specs.Prelude.{true};
    ghost use Rattle.std.specs.List.{AllByRecursion};
    ghost use Rattle.list_change.specs.Changes.{Apart, Changed};
    ghost use Rattle.policy_expr.specs.Policy.{members_of, policy_of};
    ghost use Rattle.policy_meaning.specs.Fitting.{IsFittingTable, levels_of};
    ghost use Rattle.policy_meaning.specs.LeafFact.{EachPair, IsSoundTable};
    ghost use Rattle.policy_meaning.specs.Order.{IsListing};
    ghost use Rattle.policy_meaning.specs.Rules.{rules_of};
    ghost use Rattle.policy_meaning.specs.declared.rule.Rule.{Rule};
    ghost use Rattle.incr_compile.specs.Compiling.{IsMemberDelta, IsOf, IsOfTables, MemberChanges, policy_in, rules_at};
    ghost use Rattle.incr_compile.specs.Costs.{steps_from_scratch, steps_of};
    ghost use Rattle.incr_compile.specs.Trees.{has_member, tree_of};

    /// The rules of an expression over these tables, from scratch.
    pub fn build<R: Threads + Sync, G: Ledger>(
        rt: &R,
        alloc: Global,
        expr: &Expr,
        tables: &List<LeafTable>,
        ports: &List<u16>,
        steps: &mut Steps<G>,
    ) -> Result<Compiled, Memory>
        requires tables { All IsFittingTable tables.now }
        requires sound { AllByRecursion IsSoundTable tables.now }
        requires size { levels_of tables.now (policy_of expr.now) < 2 ^ 64 }
        requires once { EachPair (λ i j. i ≢ j) (members_of (policy_of expr.now)) }
        ensures policy { IfOk result (λ compiled. policy_in (tree_of compiled) ≡ policy_of expr.now) }
        ensures tables { IfOk result (λ compiled. IsOfTables tables.now ports.now (tree_of compiled)) }
        ensures steps { steps.new ≤ steps.old + steps_from_scratch tables.now ports.now (policy_of expr.now) }
    {
        Ok(Compiled {
            alloc,
            tree: build_tree(rt, alloc, tables, ports, expr, steps)?,
        })
    }

    /// Changes the rules of a member, and tells how the rules of the expression changed.
    pub fn apply<G: Ledger>(
        &mut self,
        delta: LeafDelta,
        steps: &mut Steps<G>,
    ) -> Result<RuleDelta, Memory>
        requires member { has_member delta.member (tree_of self.old) ≡ true }
        requires come { IsMemberDelta delta (tree_of self.old) }
        // The rules of the member are changed so, and no others.
        ensures members { (sizes : ℕ → ℕ) → (before after : ℕ → List Rule) → MemberChanges delta before after
            → IsOf sizes before (tree_of self.old) → OnOk result (IsOf sizes after (tree_of self.new)) }
        ensures policy { OnOk result (policy_in (tree_of self.new) ≡ policy_in (tree_of self.old)) }
        // What is told is what changed, and no rule is in both lists.
        ensures told { IfOk result
            (λ told. Changed (rules_at (tree_of self.old)) (rules_at (tree_of self.new)) told.gone told.come) }
        ensures apart { IfOk result (λ told. Apart told.gone told.come) }
        // Whatever the result is, the steps are those for the rules that come.
        ensures steps { (sizes : ℕ → ℕ) → (before after : ℕ → List Rule) → MemberChanges delta before after
            → IsOf sizes before (tree_of self.old)
            → steps.new ≤ steps.old + steps_of sizes before after (policy_in (tree_of self.old)) }
        ensures memory { OnErr result (tree_of self.new ≡ tree_of self.old) }
    {
        let asked = asked_of(self.alloc, delta)?;
        let change = self.tree.ready(self.alloc, asked, steps)?;
        match tell(self.alloc, self.tree.made(), &change) {
            Ok(told) => {
                let gone = self.tree.settle(change);
                Ok(RuleDelta {
                    gone: List::from_vec(rules_in_room(gone, told.gone)),
                    come: List::from_vec(told.come),
                })
            }
            Err(wanted) => {
                self.tree.undo(change);
                Err(wanted)
            }
        }
    }

    /// The rules, in their order. They are those from scratch.
    pub fn rules(&self) -> Result<List<Rule>, Memory>
        ensures listed { IfOk result (IsListing (rules_at (tree_of self.now))) }
        ensures scratch { (sizes : ℕ → ℕ) → (rules : ℕ → List Rule) → IsOf sizes rules (tree_of self.now)
            → IfOk result (IsPermutation (rules_of sizes rules (policy_in (tree_of self.now)))) }
    {
        let rules = all_rules(self.alloc, self.tree.made())?;
        listed(List::from_vec(rules))
    }

    /// A copy, with the same rules at each node.
    pub fn copy(&self) -> Result<Compiled, Memory>
        ensures { IfOk result (λ copied. tree_of copied ≡ tree_of self.now) }
    {
        Ok(Compiled {
            alloc: self.alloc,
            tree: self.tree.copy(self.alloc)?,
        })
    }
}
