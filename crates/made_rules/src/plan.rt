//! What a change does to each rule.
ghost use Rattle.std.specs.Prelude.{◌≡◌, IfOk, map};
ghost use Rattle.rule_ancestry.specs.Holding.{id_of};
ghost use Rattle.made_rules.specs.Changing.{AreHeld, IsPlan};

use crate::made::Made;
use crate::old::{Old, olds};
use crate::parting::{Both, part};
use cv_io::Memory;
use rule_ancestry::Store;
use std::alloc::Global;

/// The ids that go, the rules that come, and those that stay and are made anew.
#[derive(Drop)]
pub(crate) struct Plan {
    pub(crate) gone: Vec<usize>,
    pub(crate) come: Vec<Made>,
    pub(crate) both: Vec<Both>,
}

/// The ids of rules.
fn ids_of(alloc: Global, olds: &[Old]) -> Result<Vec<usize>, Memory>
    ensures { IfOk result (λ ids. ids.items ≡ map id_of olds.now) }
{
    let mut ids = Vec::with_capacity(alloc, olds.len())?;
    for old in olds {
        ids.push(old.id)?;
    }
    Ok(ids)
}

/// Tells apart what goes, what comes and what stays.
pub(crate) fn plan_of(
    alloc: Global,
    store: &Store<Made>,
    lost: &[usize],
    made: Vec<Made>,
) -> Result<Plan, Memory>
    requires { AreHeld lost.now store.now }
    ensures { IfOk result (λ plan. IsPlan store.now lost.now made.items plan.gone.items plan.come.items
        plan.both.items) }
{
    let held = olds(alloc, store, lost)?;
    let parted = part(alloc, held, made)?;
    let gone = ids_of(alloc, &parted.gone)?;
    Ok(Plan {
        gone,
        come: parted.come,
        both: parted.both,
    })
}
