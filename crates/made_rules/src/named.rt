//! The rules that are made of some leaves or rules.
ghost use Rattle.std.specs.Prelude.{◌≡◌, IfOk, filter, map};
ghost use Rattle.rule_ancestry.specs.Holding.{id_of};
ghost use Rattle.made_rules.specs.Rules.{is_held_of};

use crate::made::{Made, Origin};
use cv_io::Memory;
use rule_ancestry::Store;
use std::alloc::Global;

/// The ids of the rules that are made of some of these, rising.
pub fn made_of(alloc: Global, store: &Store<Made>, origins: &[Origin]) -> Result<Vec<usize>, Memory>
    ensures { IfOk result (λ ids. ids.items ≡ map id_of (filter (is_held_of origins.now) store.now)) }
{
    let mut ids = Vec::new(alloc);
    for origin in origins {
        let mut more = store.descend(*origin)?;
        ids.append(&mut more)?;
    }
    // A rule may be made of two of them.
    ids.sort()?;
    ids.dedup();
    let _count = store.len();
    Ok(ids)
}
