//! A change of a node's rules in two steps.
ghost use Rattle.std.specs.Prelude.{◌≡◌, ◌++◌, ◌≤◌, ◌+◌, ◌∷◌, [], IfOk, IsPermutation, List, OnErr, length, map};
ghost use Rattle.std.specs.Prelude.{vec_capacity, vec_len};
ghost use Rattle.rule_ancestry.specs.Holding.{Held, id_of, item_of};
ghost use Rattle.made_rules.specs.Changing.{AreHeld, AreWide, IsReady, settled, side_of, wide_of};
ghost use Rattle.made_rules.specs.declared.made.Made.{Made};

use crate::made::Made;
use crate::plan::plan_of;
use crate::stay::{Stay, narrow, widen};
use cv_io::Memory;
use rule_ancestry::Store;
use std::alloc::Global;
use std::marker::Model;

/// A change that is made ready: what comes is there, and what goes is there still.
#[derive(Drop)]
pub struct Change {
    gone: Vec<usize>,
    come: Vec<usize>,
    stays: Vec<Stay>,
    left: Vec<Made>,
}

impl Model for Change {
    ghost use Rattle.std.specs.Prelude.{◌≡◌, ◌≤◌, [], length, vec_capacity};
    ghost use Rattle.made_rules.specs.Changing.{ChangeOf};

    ghost Value = { ChangeOf };

    ghost view = { λ c. record { gone = c.gone.items; come = c.come.items; stays = c.stays.items } };

    ghost invariant = { λ c. (c.left.items ≡ []) × (length c.gone.items ≤ vec_capacity c.left) };
}

/// The rule of an id leaves the store.
fn move_out(store: &mut Store<Made>, id: usize, left: &mut Vec<Made>)
    requires { vec_len left.old + 1 ≤ vec_capacity left.old }
    ensures rest { (item : Made) → (rest : List (Held Made))
        → IsPermutation store.old (record { id = id; item = item } ∷ rest) → IsPermutation store.new rest }
    ensures left { (item : Made) → (rest : List (Held Made))
        → IsPermutation store.old (record { id = id; item = item } ∷ rest)
        → left.new.items ≡ left.old.items ++ item ∷ [] }
    ensures room { vec_capacity left.new ≡ vec_capacity left.old }
    ensures len { vec_len left.new ≤ vec_len left.old + 1 }
{
    // That no two are held under one id.
    let _count = store.len();
    if let Some(made) = store.remove(id) {
        left.push_reserved(made);
    }
}

/// The rules of these ids leave the store.
fn move_all_out(store: &mut Store<Made>, gone: &[usize], left: &mut Vec<Made>)
    requires { vec_len left.old + length gone.now ≤ vec_capacity left.old }
    ensures rest { (going rest : List (Held Made)) → map id_of going ≡ gone.now
        → IsPermutation store.old (going ++ rest) → IsPermutation store.new rest }
    ensures left { (going rest : List (Held Made)) → map id_of going ≡ gone.now
        → IsPermutation store.old (going ++ rest) → left.new.items ≡ left.old.items ++ map item_of going }
{
    for id in gone {
        move_out(store, *id, left);
    }
}

impl Change {
    /// Makes a change ready: the rules of some ids are no longer made, and these are made anew.
    pub fn ready(
        alloc: Global,
        store: &mut Store<Made>,
        lost: &[usize],
        made: Vec<Made>,
    ) -> Result<Change, Memory>
        requires { AreHeld lost.now store.old }
        ensures ready { IfOk result (λ change. IsReady store.old store.new lost.now made.items change) }
        ensures memory { OnErr result (store.new ≡ store.old) }
    {
        // That no two are held under one id.
        let _count = store.len();
        let plan = plan_of(alloc, store, lost, made)?;
        let left = Vec::with_capacity(alloc, plan.gone.len())?;
        let stays = widen(alloc, store, plan.both)?;
        match store.add_all(plan.come) {
            Ok(come) => Ok(Change {
                gone: plan.gone,
                come,
                stays,
                left,
            }),
            Err(wanted) => {
                narrow(store, stays, true);
                let _rest = store.len();
                Err(wanted)
            }
        }
    }

    /// The ids of the rules that go.
    pub fn gone(&self) -> &[usize]
        ensures { result.now ≡ self.now.gone }
    {
        &self.gone
    }

    /// The ids of the rules that come.
    pub fn come(&self) -> &[usize]
        ensures { result.now ≡ self.now.come }
    {
        &self.come
    }

    /// What goes leaves the store and is handed out. This takes no memory.
    pub fn settle(self, store: &mut Store<Made>) -> Vec<Made>
        requires { AreWide store.old self.stays }
        ensures settled { (before : List (Held Made)) → (lost : _) → (made : List Made)
            → (r : IsReady before store.old lost made self) → IsPermutation store.new (settled r) }
        ensures left { (before : List (Held Made)) → (lost : _) → (made : List Made)
            → (r : IsReady before store.old lost made self) → result.items ≡ map item_of r.going }
    {
        let Change {
            gone,
            stays,
            left,
            ..
        } = self;
        let mut left = left;
        narrow(store, stays, false);
        move_all_out(store, &gone, &mut left);
        left
    }

    /// What came leaves the store, which is as before the change. This takes no memory.
    pub fn undo(self, store: &mut Store<Made>)
        requires { AreWide store.old self.stays }
        ensures { (before : List (Held Made)) → (lost : _) → (made : List Made)
            → IsReady before store.old lost made self → store.new ≡ before }
    {
        let Change { come, stays, .. } = self;
        narrow(store, stays, true);
        let _count = store.len();
        store.remove_all(&come);
        let _rest = store.len();
    }
}
