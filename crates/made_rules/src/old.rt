//! Rules that are held, as a change looks at them.
ghost use Rattle.std.specs.Prelude.{◌≡◌, ◌++◌, IfOk, IsPermutation, List, OnOk, map, option_map, option_to_list};
ghost use Rattle.rule_ancestry.specs.Holding.{Held, id_of, item_at};
ghost use Rattle.made_rules.specs.Rules.{rule_under, rules_in};
ghost use Rattle.made_rules.specs.declared.made.Made.{Made};

use crate::made::Made;
use cv_io::Memory;
use policy_meaning::Rule;
use rule_ancestry::Store;
use std::alloc::Global;
use std::marker::Model;

/// A rule that is held, and its id.
#[derive(Drop)]
pub struct Old<'a> {
    pub id: usize,
    pub rule: &'a Rule,
}

impl<'a> Model for Old<'a> {
    ghost use Rattle.rule_ancestry.specs.Holding.{Held};
    ghost use Rattle.policy_meaning.specs.declared.rule.Rule.{Rule};

    ghost Value = { Held Rule };

    ghost view = { λ old. record { id = old.id; item = old.rule.now } };
}

/// The rule of an id.
fn old_at<'a>(store: &'a Store<Made>, id: usize) -> Option<Old<'a>>
    ensures { result ≡ option_map (rule_under id) (item_at store.now id) }
{
    match store.get(id) {
        Some(made) => Some(Old {
            id,
            rule: &made.rule,
        }),
        None => None,
    }
}

/// Appends a rule, if there is one.
fn push_old<'a>(olds: &mut Vec<Old<'a>>, old: Option<Old<'a>>) -> Result<(), Memory>
    ensures { OnOk result (olds.new.items ≡ olds.old.items ++ option_to_list old.entry) }
{
    if let Some(old) = old {
        olds.push(old)?;
    }
    Ok(())
}

/// The rules of these ids.
pub fn olds<'a>(
    alloc: Global,
    store: &'a Store<Made>,
    ids: &[usize],
) -> Result<Vec<Old<'a>>, Memory>
    ensures { (items rest : List (Held Made)) → map id_of items ≡ ids.now → IsPermutation store.now (items ++ rest)
        → IfOk result (λ olds. olds.items ≡ rules_in items) }
{
    // That no two are held under one id.
    let _count = store.len();
    let mut olds = Vec::with_capacity(alloc, ids.len())?;
    for id in ids {
        push_old(&mut olds, old_at(store, *id))?;
    }
    Ok(olds)
}
