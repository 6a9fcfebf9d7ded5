//! The tree of an expression over members' tables, from scratch.
ghost use Rattle.std.specs.Prelude.{◌≡◌, ◌+◌, ◌<◌, ◌≤◌, ◌^◌, All, IfOk, Ok, slice_get};
ghost use Rattle.std.specs.List.{AllByRecursion};
ghost use Rattle.policy_expr.specs.Policy.{member as member_of, policy_of};
ghost use Rattle.policy_meaning.specs.Fitting.{IsFittingTable, levels_of};
ghost use Rattle.policy_meaning.specs.LeafFact.{IsSoundTable};
ghost use Rattle.policy_meaning.specs.Networks.{table_rules, table_size};
ghost use Rattle.made_rules.specs.Rules.{rules_in};
ghost use Rattle.incr_compile.specs.Candidates.{left_cost, right_cost};
ghost use Rattle.incr_compile.specs.Compiling.{CanBeOver, IsBuilt, IsOver};
ghost use Rattle.incr_compile.specs.Costs.{steps_from_scratch};
ghost use Rattle.incr_compile.specs.Trees.{made_in, tree_of};

use crate::member::member_rules;
use crate::node::Node;
use crate::tree::Tree;
use cv_io::{List, Memory, Steps};
use op_compose::Op;
use policy_expr::Expr;
use policy_meaning::{LeafTable, Rule, expression_size};
use rule_ancestry::Store;
use std::alloc::Global;
use std::sync::ledger::Ledger;
use std::thread::Threads;

/// How many levels the rules of a member have; one without a table has one.
fn member_size(tables: &List<LeafTable>, member: u32) -> u64
    ensures { result ≡ table_size (slice_get tables.now member) }
{
    match tables.get(member as usize) {
        Some(table) => table.size,
        None => 1,
    }
}

/// The rules of a member; one without a table has none.
fn rules_of_member(
    alloc: Global,
    tables: &List<LeafTable>,
    ports: &List<u16>,
    member: u32,
) -> Result<List<Rule>, Memory>
    requires { All IsFittingTable tables.now }
    ensures { IfOk result (λ rules. rules ≡ table_rules ports.now (slice_get tables.now member)) }
{
    match tables.get(member as usize) {
        Some(table) => table.rules(alloc, ports),
        None => Ok(List::new(alloc)),
    }
}

/// The tree of a member.
fn member_tree(
    alloc: Global,
    tables: &List<LeafTable>,
    ports: &List<u16>,
    member: u32,
) -> Result<Tree, Memory>
    requires tables { All IsFittingTable tables.now }
    requires sound { AllByRecursion IsSoundTable tables.now }
    ensures { IfOk result (λ tree. IsBuilt tables.now ports.now (member_of member) (tree_of tree)) }
{
    let rules = rules_of_member(alloc, tables, ports, member)?;
    let mut made = Store::new(alloc);
    made.add_all(member_rules(alloc, rules)?)?;
    Ok(Tree::Member {
        member,
        size: member_size(tables, member),
        made,
    })
}

/// The tree of an operator over two trees.
fn operator_tree<R: Threads + Sync, G: Ledger>(
    rt: &R,
    alloc: Global,
    op: Op,
    size: u64,
    left: Tree,
    right: Tree,
    steps: &mut Steps<G>,
) -> Result<Tree, Memory>
    requires { CanBeOver op size (tree_of left) (tree_of right) }
    ensures over { IfOk result (λ tree. IsOver op (tree_of left) (tree_of right) (tree_of tree)) }
    ensures steps { steps.new ≤ steps.old +
        (left_cost op (rules_in (made_in (tree_of right))) (rules_in (made_in (tree_of left)))
        + right_cost op (rules_in (made_in (tree_of left))) (rules_in (made_in (tree_of right)))) }
{
    // The node comes last, so that no failure has to let go of it.
    let left = Box::new(alloc, left)?;
    let right = Box::new(alloc, right)?;
    let node = Node::of(rt, alloc, op, size, left.made(), right.made(), steps)?;
    Ok(Tree::Operator { node, left, right })
}

/// Both trees, where the second was built. What lets go of the first by a call has one step where its parts would
/// have many.
fn both(first: Tree, second: Result<Tree, Memory>) -> Result<(Tree, Tree), Memory>
    ensures first { IfOk result (λ both. both.0 ≡ first) }
    ensures second { IfOk result (λ both. second ≡ Ok both.1) }
{
    match second {
        Ok(tree) => Ok((first, tree)),
        Err(memory) => {
            drop(first);
            Err(memory)
        }
    }
}

/// The tree of an expression over these tables.
pub(crate) fn build_tree<R: Threads + Sync, G: Ledger>(
    rt: &R,
    alloc: Global,
    tables: &List<LeafTable>,
    ports: &List<u16>,
    expr: &Expr,
    steps: &mut Steps<G>,
) -> Result<Tree, Memory>
    requires tables { All IsFittingTable tables.now }
    requires sound { AllByRecursion IsSoundTable tables.now }
    requires size { levels_of tables.now (policy_of expr.now) < 2 ^ 64 }
    ensures built { IfOk result (λ tree. IsBuilt tables.now ports.now (policy_of expr.now) (tree_of tree)) }
    ensures steps { steps.new ≤ steps.old + steps_from_scratch tables.now ports.now (policy_of expr.now) }
{
    match expr {
        Expr::Member { index } => member_tree(alloc, tables, ports, *index),
        Expr::Par { left, right } => {
            let first = build_tree(rt, alloc, tables, ports, left, steps)?;
            let second = build_tree(rt, alloc, tables, ports, right, steps);
            let both = both(first, second)?;
            let size = expression_size(tables, right);
            operator_tree(rt, alloc, Op::Par, size, both.0, both.1, steps)
        }
        Expr::Seq { left, right } => {
            let first = build_tree(rt, alloc, tables, ports, left, steps)?;
            let second = build_tree(rt, alloc, tables, ports, right, steps);
            let both = both(first, second)?;
            let size = expression_size(tables, right);
            operator_tree(rt, alloc, Op::Seq, size, both.0, both.1, steps)
        }
        Expr::Over { left, right } => {
            let first = build_tree(rt, alloc, tables, ports, left, steps)?;
            let second = build_tree(rt, alloc, tables, ports, right, steps);
            let both = both(first, second)?;
            let size = expression_size(tables, right);
            operator_tree(rt, alloc, Op::Over, size, both.0, both.1, steps)
        }
    }
}
