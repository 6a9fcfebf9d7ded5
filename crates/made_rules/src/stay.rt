//! Rules that stay, and are made of other rules from then on.
ghost use Rattle.std.specs.Prelude.{◌≡◌, ◌++◌, ◌∷◌, [], IfOk, IsPermutation, List, OnErr, OnOk, Some, map};
ghost use Rattle.rule_ancestry.specs.Holding.{Held, item_at};
ghost use Rattle.made_rules.specs.Changing.{AreOld, AreWide, AreWidened, IsOld, IsWidened, NotesOne, side_of, wide_of};
ghost use Rattle.made_rules.specs.Parting.{was_of as old_of};
ghost use Rattle.made_rules.specs.Rules.{rule_held, rules_in};
ghost use Rattle.made_rules.specs.declared.made.Made.{Made};

use crate::made::{Made, Origin};
use crate::parting::Both;
use cv_io::{Duplicate, List, Memory};
use policy_meaning::Rule;
use rule_ancestry::Store;
use std::alloc::Global;

/// A rule that stays, with what it was made of and what it is made of anew.
#[derive(Debug, Drop)]
pub struct Stay {
    pub id: usize,
    pub rule: Rule,
    pub was: List<Origin>,
    pub is: List<Origin>,
}

/// The rule that stays, made of what it was made of, or made anew.
fn made_on(stay: Stay, back: bool) -> Made
    ensures { result ≡ (side_of back stay).item }
{
    let Stay { rule, was, is, .. } = stay;
    let origins = if back { was } else { is };
    Made { rule, origins }
}

/// A rule that stays is made of one side alone.
fn narrow_one(store: &mut Store<Made>, stay: Stay, back: bool)
    requires { (rest : List (Held Made)) × IsPermutation store.old (rest ++ wide_of stay ∷ []) }
    ensures { (rest : List (Held Made)) → IsPermutation store.old (rest ++ wide_of stay ∷ [])
        → IsPermutation store.new (rest ++ side_of back stay ∷ []) }
{
    // That no two are held under one id.
    let _count = store.len();
    let id = stay.id;
    store.shed(id, made_on(stay, back));
}

/// The rules that stay are made of one side alone. This takes no memory.
pub(crate) fn narrow(store: &mut Store<Made>, stays: Vec<Stay>, back: bool)
    requires { AreWide store.old stays.items }
    ensures { (rest : List (Held Made)) → IsPermutation store.old (rest ++ map wide_of stays.items)
        → IsPermutation store.new (rest ++ map (side_of back) stays.items) }
{
    let mut stays = stays;
    while let Some(stay) = stays.pop() {
        narrow_one(store, stay, back);
    }
}

/// What the rule of an id is made of.
fn origins_at(alloc: Global, store: &Store<Made>, id: usize) -> Result<List<Origin>, Memory>
    ensures { (item : Made) → item_at store.now id ≡ Some item → IfOk result (λ origins. origins ≡ item.origins) }
{
    match store.get(id) {
        Some(made) => made.origins.copied(),
        None => Ok(List::new(alloc)),
    }
}

/// A rule that stays is made of both sides.
fn widen_one(alloc: Global, store: &mut Store<Made>, both: Both) -> Result<Stay, Memory>
    requires { IsOld store.old both }
    ensures widened { (rest : List (Held Made)) → (was : Held Made) → rule_held was ≡ old_of both
        → IsPermutation store.old (rest ++ was ∷ []) → IfOk result (IsWidened rest was both store.new) }
    ensures memory { OnErr result (store.new ≡ store.old) }
{
    // That no two are held under one id.
    let _count = store.len();
    let Both { id, made } = both;
    let Made { rule, origins: is } = made;
    let mut origins = origins_at(alloc, store, id)?;
    origins.extend_from_slice(is.as_slice())?;
    let Made { rule, origins: was } = store.rename(id, Made { rule, origins })?;
    Ok(Stay { id, rule, was, is })
}

/// A rule that stays is made of both sides, and is noted.
fn widen_noted(
    alloc: Global,
    store: &mut Store<Made>,
    both: Both,
    stays: &mut Vec<Stay>,
) -> Result<(), Memory>
    requires { IsOld store.old both }
    ensures noted { (rest : List (Held Made)) → (was : Held Made) → rule_held was ≡ old_of both
        → IsPermutation store.old (rest ++ was ∷ [])
        → OnOk result (NotesOne rest was both store.new stays.old.items stays.new.items) }
    ensures memory { OnErr result (store.new ≡ store.old) }
    ensures unnoted { OnErr result (stays.new.items ≡ stays.old.items) }
{
    stays.reserve(1)?;
    let stay = widen_one(alloc, store, both)?;
    stays.push_reserved(stay);
    Ok(())
}

/// The rules that stay are made of both sides, or none is.
pub(crate) fn widen(
    alloc: Global,
    store: &mut Store<Made>,
    both: Vec<Both>,
) -> Result<Vec<Stay>, Memory>
    requires { AreOld store.old both.items }
    ensures widened { (rest wases : List (Held Made)) → rules_in wases ≡ map old_of both.items
        → IsPermutation store.old (rest ++ wases)
        → IfOk result (λ stays. AreWidened rest wases both.items store.new stays.items) }
    ensures memory { OnErr result (store.new ≡ store.old) }
{
    let _count = store.len();
    let mut stays = Vec::with_capacity(alloc, both.len())?;
    for one in both {
        if let Err(wanted) = widen_noted(alloc, store, one, &mut stays) {
            narrow(store, stays, true);
            let _rest = store.len();
            return Err(wanted);
        }
    }
    Ok(stays)
}
