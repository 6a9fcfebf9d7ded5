//! A compiled expression and what is known of its members.
ghost use Rattle.std.specs.Prelude.{◌≡◌, ◌<◌, ◌+◌, ◌≤◌, ◌^◌, ℕ, List as ListOf, All, IfOk, IfSome, IsPermutation};
ghost use Rattle.std.specs.Prelude.{IsTrue, OnErr, OnOk};
ghost use Rattle.std.specs.List.{AllByRecursion};
ghost use Rattle.list_change.specs.Changes.{Apart, Changed};
ghost use Rattle.of10_match.specs.Normal.{IsNormal};
ghost use Rattle.policy_expr.specs.Policy.{policy_of};
ghost use Rattle.policy_meaning.specs.LeafFact.{IsSoundTable};
ghost use Rattle.policy_meaning.specs.Order.{IsListing};
ghost use Rattle.policy_meaning.specs.Rules.{rules_of};
ghost use Rattle.policy_meaning.specs.declared.rule.Rule.{Rule as RuleOf};
ghost use Rattle.incr_compile.specs.Compiling.{IsOf, IsOfTables, MemberChanges, policy_in, rules_at};
ghost use Rattle.incr_compile.specs.Costs.{steps_from_scratch, steps_of};
ghost use Rattle.incr_compile.specs.Trees.{tree_of};
ghost use Rattle.fitting_changes.specs.Composers.{CanTake, Fits, FitsIn, HasSize, IsComposed, Suits, policy_by};

use crate::shape::Shape;
use cv_io::{List, Memory, Steps};
use incr_compile::{Compiled, LeafDelta};
use of10_match::Match;
use op_compose::RuleDelta;
use policy_meaning::{LeafTable, Rule, expression_size, tables_fit};
use std::alloc::Global;
use std::marker::Model;
use std::sync::ledger::Ledger;
use std::thread::Threads;

/// A compiled expression of members that all have so many levels.
#[derive(Drop)]
pub struct Composer {
    shape: Shape,
    size: u64,
    compiled: Compiled,
}

impl Model for Composer {
    ghost use Rattle.fitting_changes.specs.Composers.{IsComposed};
    ghost use Rattle.incr_compile.specs.Trees.{tree_of};
    ghost use Rattle.incr_compile.specs.declared.tree.Tree.{Tree};
    ghost use Rattle.incr_compile.specs.contracts.tree.Tree as e;
    ghost use Rattle.std.specs.Coded.{codes};

    ghost Value = { Tree };

    ghost coded = { Prim.hlevel (codes, e.the_row.coded) };

    ghost view = { λ c. c.compiled };

    ghost invariant = { λ c. IsComposed c.shape c.size (tree_of c.compiled) };
}

/// Whether each field of a match stands with the fields that it needs.
fn is_normal(m: &Match) -> bool
    ensures { IsTrue result → IsNormal m.now }
{
    m.normal() == *m
}

/// Whether a rule has one of so many levels, and a normal match.
pub fn fits_in(size: u64, rule: &Rule) -> bool
    ensures { IsTrue result → FitsIn size rule.now }
{
    rule.level < size && is_normal(&rule.m)
}

/// Whether all rules do.
fn all_fit_in(size: u64, rules: &List<Rule>) -> bool
    ensures { IsTrue result → AllByRecursion (FitsIn size) rules.now }
{
    for rule in rules.as_slice() {
        if !fits_in(size, rule) {
            return false;
        }
    }
    true
}

/// Whether a table has so many levels.
fn has_size(size: u64, table: &LeafTable) -> bool
    ensures { IsTrue result → HasSize size table.now }
{
    table.size == size
}

/// Whether all tables have so many levels.
fn all_have_size(size: u64, tables: &List<LeafTable>) -> bool
    ensures { IsTrue result → AllByRecursion (HasSize size) tables.now }
{
    for table in tables.as_slice() {
        if !has_size(size, table) {
            return false;
        }
    }
    true
}

/// Whether there is a table for each member of a shape, and all have so many levels.
fn suits(shape: Shape, size: u64, tables: &List<LeafTable>) -> bool
    ensures { IsTrue result → Suits shape size tables.now }
{
    tables.len() as u64 == u64::from(shape.members()) && all_have_size(size, tables)
}

/// Whether a change is one of a member's rules to rules that fit.
fn fits(shape: Shape, size: u64, delta: &LeafDelta) -> bool
    ensures { IsTrue result → Fits shape size delta.now }
{
    delta.member < shape.members() && all_fit_in(size, &delta.come)
}

/// A compiled expression, and what is known of its members.
fn known(shape: Shape, size: u64, compiled: Compiled) -> Composer
    requires { IsComposed shape size (tree_of compiled) }
    ensures { result ≡ compiled }
{
    Composer {
        shape,
        size,
        compiled,
    }
}

impl Composer {
    /// The expression of a shape over tables of these members, at a virtual switch of these ports; none where there
    /// are not as many tables as members, where they have not as many levels, or where those of the expression are
    /// too many.
    pub fn build<R: Threads + Sync, G: Ledger>(
        rt: &R,
        alloc: Global,
        shape: Shape,
        size: u64,
        tables: &List<LeafTable>,
        ports: &List<u16>,
        steps: &mut Steps<G>,
    ) -> Result<Option<Composer>, Memory>
        requires { AllByRecursion IsSoundTable tables.now }
        ensures policy { IfOk result (λ made. IfSome made (λ c. policy_in (tree_of c) ≡ policy_by shape)) }
        ensures tables { IfOk result (λ made. IfSome made (λ c. IsOfTables tables.now ports.now (tree_of c))) }
        ensures steps { steps.new ≤ steps.old + steps_from_scratch tables.now ports.now (policy_by shape) }
    {
        if !suits(shape, size, tables) {
            return Ok(None);
        }
        let expr = shape.expr(alloc)?;
        if !tables_fit(tables) || expression_size(tables, &expr) == u64::MAX {
            return Ok(None);
        }
        let compiled = Compiled::build(rt, alloc, &expr, tables, ports, steps)?;
        Ok(Some(known(shape, size, compiled)))
    }

    /// Whether a change is one of a member's rules to rules that fit.
    pub fn can_take(&self, delta: &LeafDelta) -> bool
        ensures { IsTrue result → CanTake delta.now (tree_of self.now) }
    {
        fits(self.shape, self.size, delta)
    }

    /// Changes the rules of a member, and tells how the rules of the expression changed.
    pub fn apply<G: Ledger>(
        &mut self,
        delta: LeafDelta,
        steps: &mut Steps<G>,
    ) -> Result<RuleDelta, Memory>
        requires { CanTake delta (tree_of self.old) }
        ensures members { (sizes : ℕ → ℕ) → (before after : ℕ → ListOf RuleOf) → MemberChanges delta before after
            → IsOf sizes before (tree_of self.old) → OnOk result (IsOf sizes after (tree_of self.new)) }
        ensures told { IfOk result
            (λ told. Changed (rules_at (tree_of self.old)) (rules_at (tree_of self.new)) told.gone told.come) }
        ensures apart { IfOk result (λ told. Apart told.gone told.come) }
        ensures steps { (sizes : ℕ → ℕ) → (before after : ℕ → ListOf RuleOf) → MemberChanges delta before after
            → IsOf sizes before (tree_of self.old)
            → steps.new ≤ steps.old + steps_of sizes before after (policy_in (tree_of self.old)) }
        ensures memory { OnErr result (tree_of self.new ≡ tree_of self.old) }
    {
        self.compiled.apply(delta, steps)
    }

    /// The rules, in their order.
    pub fn rules(&self) -> Result<List<Rule>, Memory>
        ensures listed { IfOk result (IsListing (rules_at (tree_of self.now))) }
        ensures scratch { (sizes : ℕ → ℕ) → (rules : ℕ → ListOf RuleOf) → IsOf sizes rules (tree_of self.now)
            → IfOk result (IsPermutation (rules_of sizes rules (policy_in (tree_of self.now)))) }
    {
        self.compiled.rules()
    }

    /// A copy, with the same rules.
    pub fn copy(&self) -> Result<Composer, Memory>
        ensures { IfOk result (λ copied. tree_of copied ≡ tree_of self.now) }
    {
        let compiled = self.compiled.copy()?;
        Ok(known(self.shape, self.size, compiled))
    }
}
