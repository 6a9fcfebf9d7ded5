//! The rules of an expression, from scratch.
ghost use Rattle.std.specs.Prelude.{◌≡◌, ◌<◌, ◌^◌, ◌↔◌, ◌++◌, All, IfOk, IsTrue, flat_map, slice_get};
ghost use Rattle.alg_priority.specs.Levels.{capped, concat_level, shift_level, sum_level};
ghost use Rattle.policy_expr.specs.Policy.{policy_of};
ghost use Rattle.alg_priority.specs.Sizes.{concat_size, shift_size, sum_size};
ghost use Rattle.policy_meaning.specs.Fitting.{AreBelow, IsFittingTable, composed_of, levels_of};
ghost use Rattle.policy_meaning.specs.Networks.{table_rules, table_size};
ghost use Rattle.policy_meaning.specs.Rules.{chains_with, shifts_with, sums_with};

use crate::composing::{add_chains, add_shifted, add_sums};
use crate::leaf::LeafTable;
use crate::rule::Rule;
use alg_priority::{size_concat, size_shift, size_sum};
use cv_io::{List, Memory};
use policy_expr::Expr;
use std::alloc::Global;

/// The rules of all pairs of `+`.
fn sums(alloc: Global, xs: &List<Rule>, bs: &List<Rule>) -> Result<List<Rule>, Memory>
    requires { All (λ (a : Rule). All (λ (b : Rule). sum_level a.level b.level < 2 ^ 64) bs.now) xs.now }
    ensures { IfOk result (λ rules. rules ≡ flat_map (sums_with bs.now) xs.now) }
{
    let mut rules = List::new(alloc);
    for a in xs.as_slice() {
        add_sums(&mut rules, a, bs)?;
    }
    Ok(rules)
}

/// The rules of all pairs of `>>`, and those of the left that stand alone.
fn chains(alloc: Global, size: u64, xs: &List<Rule>, bs: &List<Rule>) -> Result<List<Rule>, Memory>
    requires pairs { All (λ (a : Rule). All (λ (b : Rule). concat_level a.level b.level size < 2 ^ 64) bs.now) xs.now }
    requires alone { All (λ (a : Rule). concat_level a.level 0 size < 2 ^ 64) xs.now }
    ensures { IfOk result (λ rules. rules ≡ flat_map (chains_with size bs.now) xs.now) }
{
    let mut rules = List::new(alloc);
    for a in xs.as_slice() {
        add_chains(&mut rules, size, a, bs)?;
    }
    Ok(rules)
}

/// The touched rules of the left of `|>`, and then those of the right.
fn shifts(alloc: Global, size: u64, xs: &List<Rule>, bs: List<Rule>) -> Result<List<Rule>, Memory>
    requires { All (λ (a : Rule). shift_level a.level size < 2 ^ 64) xs.now }
    ensures { IfOk result (λ rules. rules ≡ flat_map (shifts_with size) xs.now ++ bs) }
{
    let mut rules = List::new(alloc);
    for a in xs.as_slice() {
        add_shifted(&mut rules, size, a)?;
    }
    for b in bs.into_vec() {
        rules.push(b)?;
    }
    Ok(rules)
}

/// Whether all tables fit.
pub fn tables_fit(tables: &List<LeafTable>) -> bool
    ensures { IsTrue result ↔ All IsFittingTable tables.now }
{
    tables.as_slice().iter().all(|table| table.fits())
}

/// How many levels a member has; one without a table has one.
fn member_size(tables: &List<LeafTable>, index: u32) -> u64
    ensures { result ≡ table_size (slice_get tables.now index) }
{
    match tables.get(index as usize) {
        Some(table) => table.size,
        None => 1,
    }
}

/// How many levels the rules of an expression have, at most the greatest u64.
pub fn expression_size(tables: &List<LeafTable>, expr: &Expr) -> u64
    requires { All IsFittingTable tables.now }
    ensures { result ≡ capped (levels_of tables.now (policy_of expr.now)) }
{
    match expr {
        Expr::Member { index } => member_size(tables, *index),
        Expr::Par { left, right } => size_sum(
            expression_size(tables, left),
            expression_size(tables, right),
        ),
        Expr::Seq { left, right } => size_concat(
            expression_size(tables, left),
            expression_size(tables, right),
        ),
        Expr::Over { left, right } => size_shift(
            expression_size(tables, left),
            expression_size(tables, right),
        ),
    }
}

/// The rules of a member; one without a table has none.
fn member_rules(
    alloc: Global,
    tables: &List<LeafTable>,
    ports: &List<u16>,
    index: u32,
) -> Result<List<Rule>, Memory>
    requires { All IsFittingTable tables.now }
    ensures { IfOk result (λ rules. rules ≡ table_rules ports.now (slice_get tables.now index)) }
{
    match tables.get(index as usize) {
        Some(table) => table.rules(alloc, ports),
        None => Ok(List::new(alloc)),
    }
}

/// The rules of an expression, and how many levels they have.
#[derive(PartialEq, Eq, Debug, Drop)]
pub struct Composed {
    pub rules: List<Rule>,
    pub size: u64,
}

/// The rules of `a + b`.
fn composed_sum(alloc: Global, left: &Composed, right: &Composed) -> Result<Composed, Memory>
    requires left { AreBelow left.now }
    requires right { AreBelow right.now }
    requires size { sum_size left.now.size right.now.size < 2 ^ 64 }
    ensures { IfOk result (λ composed. composed
        ≡ record {
          rules = flat_map (sums_with right.now.rules) left.now.rules;
          size = sum_size left.now.size right.now.size;
        }) }
{
    Ok(Composed {
        rules: sums(alloc, &left.rules, &right.rules)?,
        size: size_sum(left.size, right.size),
    })
}

/// The rules of `a >> b`.
fn composed_chain(alloc: Global, left: &Composed, right: &Composed) -> Result<Composed, Memory>
    requires left { AreBelow left.now }
    requires right { AreBelow right.now }
    requires size { concat_size left.now.size right.now.size < 2 ^ 64 }
    ensures { IfOk result (λ composed. composed
        ≡ record {
          rules = flat_map (chains_with right.now.size right.now.rules) left.now.rules;
          size = concat_size left.now.size right.now.size;
        }) }
{
    Ok(Composed {
        rules: chains(alloc, right.size, &left.rules, &right.rules)?,
        size: size_concat(left.size, right.size),
    })
}

/// The rules of `a |> b`.
fn composed_shift(alloc: Global, left: &Composed, right: Composed) -> Result<Composed, Memory>
    requires left { AreBelow left.now }
    requires size { shift_size left.now.size right.size < 2 ^ 64 }
    ensures { IfOk result (λ composed. composed
        ≡ record {
          rules = flat_map (shifts_with right.size) left.now.rules ++ right.rules;
          size = shift_size left.now.size right.size;
        }) }
{
    let Composed { rules, size } = right;
    Ok(Composed {
        rules: shifts(alloc, size, &left.rules, rules)?,
        size: size_shift(left.size, size),
    })
}

/// The rules of an expression, by those of its members: all pairs that meet, and all that stand alone,
/// in no order that counts.
pub fn expression_rules(
    alloc: Global,
    tables: &List<LeafTable>,
    ports: &List<u16>,
    expr: &Expr,
) -> Result<Composed, Memory>
    requires tables { All IsFittingTable tables.now }
    requires size { levels_of tables.now (policy_of expr.now) < 2 ^ 64 }
    ensures { IfOk result (λ composed. composed ≡ composed_of tables.now ports.now (policy_of expr.now)) }
{
    match expr {
        Expr::Member { index } => Ok(Composed {
            rules: member_rules(alloc, tables, ports, *index)?,
            size: member_size(tables, *index),
        }),
        Expr::Par { left, right } => {
            let first = expression_rules(alloc, tables, ports, left)?;
            let second = expression_rules(alloc, tables, ports, right)?;
            composed_sum(alloc, &first, &second)
        }
        Expr::Seq { left, right } => {
            let first = expression_rules(alloc, tables, ports, left)?;
            let second = expression_rules(alloc, tables, ports, right)?;
            composed_chain(alloc, &first, &second)
        }
        Expr::Over { left, right } => {
            let first = expression_rules(alloc, tables, ports, left)?;
            let second = expression_rules(alloc, tables, ports, right)?;
            composed_shift(alloc, &first, second)
        }
    }
}
