//! What an expression does to the packets of one header.
ghost use Rattle.std.specs.Prelude.{◌≡◌, IfOk, slice_get};
ghost use Rattle.policy_expr.specs.Policy.{policy_of};
ghost use Rattle.policy_meaning.specs.Meaning.{evaluate as evaluate_of};
ghost use Rattle.policy_meaning.specs.Networks.{table_meaning as table_meaning_of};

use crate::leaf::LeafTable;
use crate::meaning::{Meaning, both_act, first_touched, outside, passes_on};
use cv_io::{List, Memory};
use of10_actions::Tail;
use of10_match::Header;
use policy_expr::Expr;
use std::alloc::Global;

/// What a member does; a member without a table does nothing.
fn member_meaning(
    alloc: Global,
    tables: &List<LeafTable>,
    index: u32,
    header: &Header,
) -> Result<Meaning, Memory>
    ensures { IfOk result (λ meaning. meaning ≡ table_meaning_of (slice_get tables.now index) header.now) }
{
    match tables.get(index as usize) {
        Some(table) => table.meaning(alloc, header),
        None => Ok(outside(alloc)),
    }
}

/// What an expression does to the packets of a header. Its members are named by the places of their
/// tables.
pub fn evaluate(
    alloc: Global,
    tables: &List<LeafTable>,
    expr: &Expr,
    header: &Header,
) -> Result<Meaning, Memory>
    ensures { IfOk result (λ meaning. meaning ≡ evaluate_of (λ i. table_meaning_of (slice_get tables.now i))
        (policy_of expr.now) header.now) }
{
    match expr {
        Expr::Member { index } => member_meaning(alloc, tables, *index, header),
        Expr::Par { left, right } => {
            let first = evaluate(alloc, tables, left, header)?;
            let second = evaluate(alloc, tables, right, header)?;
            both_act(first, &second)
        }
        Expr::Seq { left, right } => {
            let first = evaluate(alloc, tables, left, header)?;
            let rewrite = match &first.tail {
                Tail::Pass(rewrite) => *rewrite,
                _ => return Ok(first),
            };
            let second = evaluate(alloc, tables, right, &rewrite.apply(header))?;
            passes_on(first, &rewrite, &second)
        }
        Expr::Over { left, right } => {
            let first = evaluate(alloc, tables, left, header)?;
            let second = evaluate(alloc, tables, right, header)?;
            Ok(first_touched(first, second))
        }
    }
}
