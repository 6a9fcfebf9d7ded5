//! All pairs.
ghost use Rattle.std.specs.Prelude.{◌<◌, ◌^◌};
ghost use Rattle.op_compose.specs.Composition.{Joins, joined_level};

use super::rules::{SIZE, lefts, rights};
use cv_io::{Memory, Steps};
use of10_actions::Tail;
use op_compose::{Op, Rule, join};
use std::alloc::Global;
use std::sync::ledger::Ledger;

/// How many rules were made, and the sum of their levels.
#[derive(Clone, Copy)]
pub struct Made {
    pub rules: u64,
    pub levels: u64,
}

impl Made {
    fn add(&mut self, rule: &Option<Rule>) {
        if let Some(rule) = rule {
            self.rules = self.rules.wrapping_add(1);
            self.levels = self.levels.wrapping_add(rule.level);
        }
    }
}

/// Joins a pair under both operators.
fn join_both<G: Ledger>(
    a: &Rule,
    b: &Rule,
    steps: &mut Steps<G>,
    made: &mut Made,
) -> Result<(), Memory> {
    if a.level >= SIZE || b.level >= SIZE {
        return Ok(());
    }
    made.add(&join(Op::Par, a, b, SIZE, steps)?);
    if let Tail::Pass(_) = &a.tail {
        made.add(&join(Op::Seq, a, b, SIZE, steps)?);
    }
    Ok(())
}

/// Joins each of so many rules with each of as many.
pub fn join_all<G: Ledger>(
    alloc: Global,
    rules: u16,
    steps: &mut Steps<G>,
) -> Result<Made, Memory> {
    let bs = rights(alloc, rules)?;
    let mut made = Made {
        rules: 0,
        levels: 0,
    };
    for a in lefts(alloc, rules)?.as_slice() {
        for b in bs.as_slice() {
            join_both(a, b, steps, &mut made)?;
        }
    }
    Ok(made)
}
