//! What is told of a compiled expression's rules.
ghost use Rattle.std.specs.Prelude.{◌≡◌, ◌≤◌, ◌+◌, ◌++◌, [], IfOk, List, length, map, vec_capacity, vec_len};
ghost use Rattle.rule_ancestry.specs.Holding.{Held};
ghost use Rattle.made_rules.specs.Changing.{IsReady};
ghost use Rattle.made_rules.specs.Rules.{rule_of};
ghost use Rattle.made_rules.specs.declared.made.Made.{Made};
ghost use Rattle.incr_compile.specs.Compiling.{rules_held};
ghost use Rattle.incr_compile.specs.Ways.{without_ids};

use cv_io::{Duplicate, Memory};
use made_rules::{Change, Made, Old, olds};
use policy_meaning::Rule;
use rule_ancestry::Store;
use std::alloc::Global;

/// Copies of rules.
fn copies_of(alloc: Global, olds: &[Old]) -> Result<Vec<Rule>, Memory>
    ensures { IfOk result (λ rules. rules.items ≡ without_ids olds.now) }
{
    let mut rules = Vec::with_capacity(alloc, olds.len())?;
    for old in olds {
        rules.push(old.rule.copy()?)?;
    }
    Ok(rules)
}

/// Copies of all rules that are held.
pub(crate) fn all_rules(alloc: Global, store: &Store<Made>) -> Result<Vec<Rule>, Memory>
    ensures { IfOk result (λ rules. rules.items ≡ rules_held store.now) }
{
    let ids = store.ids()?;
    let held = olds(alloc, store, &ids)?;
    copies_of(alloc, &held)
}

/// Copies of the rules that come, and room for those that go.
#[derive(Drop)]
pub(crate) struct Told {
    pub(crate) come: Vec<Rule>,
    pub(crate) gone: Vec<Rule>,
}

/// What is told of a change that is ready.
pub(crate) fn tell(alloc: Global, store: &Store<Made>, change: &Change) -> Result<Told, Memory>
    ensures come { (before : List (Held Made)) → (lost : _) → (fresh : List Made)
        → (r : IsReady before store.now lost fresh change.now)
        → IfOk result (λ told. told.come.items ≡ rules_held r.coming) }
    ensures room { IfOk result (λ told. length change.now.gone ≤ vec_capacity told.gone) }
    ensures empty { IfOk result (λ told. told.gone.items ≡ []) }
{
    let gone = Vec::with_capacity(alloc, change.gone().len())?;
    let held = olds(alloc, store, change.come())?;
    let come = copies_of(alloc, &held)?;
    Ok(Told { come, gone })
}

/// The rules alone, in a vector that has room for them. This takes no memory.
pub(crate) fn rules_in_room(made: Vec<Made>, room: Vec<Rule>) -> Vec<Rule>
    requires { vec_len room + vec_len made ≤ vec_capacity room }
    ensures { result.items ≡ room.items ++ map rule_of made.items }
{
    let mut rules = room;
    for one in made {
        rules.push_reserved(one.rule);
    }
    rules
}
