//! A store of what is found by names, each under an id.
ghost use Rattle.std.specs.Prelude.{◌≡◌, ◌≤◌, ◌+◌, ◌||◌, ◌&&◌, [], ◌∷◌, ◌++◌, ℕ, true, not, IfOk, OnOk, OnErr, IsSome};
ghost use Rattle.std.specs.Prelude.{None, Some, IsPermutation, filter, length, map, option_to_list, vec_capacity};
ghost use Rattle.std.specs.Prelude.{vec_len};
ghost use Rattle.std.specs.BTreeSet.{contains};
ghost use Rattle.std.specs.List.Sorted.{IsStrictlySortedBy};
ghost use Rattle.std.specs.Option.{option_copied};
ghost use Rattle.std.specs.Ordering.{nat_cmp};
ghost use Rattle.rule_ancestry.specs.Holding.{Held, held_as, id_of, is_other, is_outside, item_at, item_of, with_item};
ghost use Rattle.rule_ancestry.specs.InsideLinks.{by_link, links_to};
ghost use Rattle.rule_ancestry.specs.InsideSlots.{AddsOne, Updated, at};
ghost use Rattle.rule_ancestry.specs.Names.{bears, names, names_at};
ghost use Rattle.slab.specs.Slab.{ContainsKey};

use crate::filed::Filed;
use crate::kept::Kept;
use crate::links::{Link, attach, detach, linked};
use cv_io::{Duplicate, Memory};
use slab::Slab;
use std::alloc::Global;
use std::collections::BTreeSet;
use std::marker::Model;

/// What is found by names, each under an id.
#[derive(Drop)]
pub struct Store<R: Filed> {
    alloc: Global,
    slab: Slab<Kept<R>>,
    links: BTreeSet<Link<R::Name>>,
}

impl<R: Filed> Model for Store<R> {
    ghost use Rattle.std.specs.Prelude.{List};
    ghost use Rattle.rule_ancestry.specs.Holding.{Held};
    ghost use Rattle.rule_ancestry.specs.InsideLinks.{AreLinks};
    ghost use Rattle.rule_ancestry.specs.InsideSlots.{held_from};

    ghost Value = { List (Held R) };

    ghost view = { λ s. held_from 0 s.slab.slots };

    ghost invariant = { λ s. AreLinks R.Name.cmp R.borne s.slab.slots s.links };
}

impl<R: Filed + Drop> Store<R> {
    /// A store that holds nothing, which takes no memory.
    pub fn new(alloc: Global) -> Store<R>
        ensures { result ≡ [] }
    {
        Store {
            alloc,
            slab: Slab::new(alloc),
            links: BTreeSet::new(alloc),
        }
    }

    /// How much it holds. No two are held under one id.
    pub fn len(&self) -> usize
        ensures count { result ≡ length self.now }
        ensures rising { IsStrictlySortedBy nat_cmp (map id_of self.now) }
    {
        self.slab.len()
    }

    /// Keeps an item under an id that held nothing.
    pub fn add(&mut self, item: R) -> Result<usize, Memory>
        ensures fresh { IfOk result (λ id. item_at self.old id ≡ None) }
        ensures added { IfOk result (λ id. IsPermutation (record { id = id; item = item } ∷ self.old) self.new) }
        ensures others { IfOk result (λ id. filter (is_other id) self.new ≡ self.old) }
        ensures memory { OnErr result (self.new ≡ self.old) }
    {
        self.slab.reserve(1)?;
        let id = self.slab.vacant_key();
        attach(&mut self.links, item.names(), id, &[])?;
        Ok(self.slab.insert_reserved(Kept { item }))
    }

    /// What an id holds leaves the store.
    pub fn remove(&mut self, id: usize) -> Option<R>
        ensures item { result ≡ item_at self.old id }
        ensures others { self.new ≡ filter (is_other id) self.old }
        ensures moved { IsPermutation (map item_of self.old) (option_to_list result ++ map item_of self.new) }
    {
        let Kept { item } = self.slab.try_remove(id)?;
        detach(&mut self.links, item.names(), id, &[]);
        Some(item)
    }

    /// What an id holds.
    pub fn get(&self, id: usize) -> Option<&R>
        ensures { option_copied result ≡ item_at self.now id }
    {
        match self.slab.get(id) {
            Some(kept) => Some(&kept.item),
            None => None,
        }
    }

    /// The ids of what bears a name, rising.
    pub fn descend(&self, name: R::Name) -> Result<Vec<usize>, Memory>
        ensures { IfOk result (λ ids. ids.items ≡ map id_of (filter (bears R.Name.cmp R.borne name) self.now)) }
    {
        let _count = self.links.len();
        let _room = self.slab.capacity();
        linked(self.alloc, &self.links, name)
    }

    /// The ids of all that is held, rising.
    pub fn ids(&self) -> Result<Vec<usize>, Memory>
        ensures { IfOk result (λ ids. ids.items ≡ map id_of self.now) }
    {
        let mut ids = Vec::with_capacity(self.alloc, self.slab.len())?;
        for (id, _) in self.slab.iter() {
            ids.push(id)?;
        }
        Ok(ids)
    }

    /// What these ids hold leaves the store.
    pub fn remove_all(&mut self, ids: &[usize])
        ensures { self.new ≡ filter (is_outside ids.now) self.old }
    {
        for id in ids {
            self.remove(*id);
        }
    }

    /// Keeps an item, and notes its id.
    fn add_noted(&mut self, item: R, ids: &mut Vec<usize>) -> Result<(), Memory>
        ensures added { OnOk result (AddsOne self.old self.new ids.old.items ids.new.items item) }
        ensures memory { OnErr result (self.new ≡ self.old) }
        ensures ids { OnErr result (ids.new.items ≡ ids.old.items) }
    {
        ids.reserve(1)?;
        let id = self.add(item)?;
        ids.push_reserved(id);
        Ok(())
    }

    /// Keeps all of these items, each under an id that held nothing, or none of them.
    pub fn add_all(&mut self, items: Vec<R>) -> Result<Vec<usize>, Memory>
        ensures added { IfOk result (λ ids. IsPermutation (held_as ids.items items.items ++ self.old) self.new) }
        ensures count { IfOk result (λ ids. length ids.items ≡ length items.items) }
        ensures others { IfOk result (λ ids. filter (is_outside ids.items) self.new ≡ self.old) }
        ensures memory { OnErr result (self.new ≡ self.old) }
    {
        let mut ids = Vec::with_capacity(self.alloc, items.len())?;
        for item in items {
            if let Err(wanted) = self.add_noted(item, &mut ids) {
                self.remove_all(&ids);
                return Err(wanted);
            }
        }
        Ok(ids)
    }

    /// Moves what an id holds out of the store.
    fn move_out(&mut self, id: usize, gone: &mut Vec<R>)
        requires { vec_len gone.old + 1 ≤ vec_capacity gone.old }
        ensures rest { self.new ≡ filter (is_other id) self.old }
        ensures moved { IsPermutation (gone.old.items ++ map item_of self.old)
            (gone.new.items ++ map item_of self.new) }
        ensures room { vec_capacity gone.new ≡ vec_capacity gone.old }
        ensures len { vec_len gone.new ≤ vec_len gone.old + 1 }
    {
        if let Some(item) = self.remove(id) {
            gone.push_reserved(item);
        }
    }

    /// All that bears a name leaves the store, and nothing else.
    pub fn take(&mut self, name: R::Name) -> Result<Vec<R>, Memory>
        ensures moved { IfOk result
            (λ gone. IsPermutation (map item_of self.old) (gone.items ++ map item_of self.new)) }
        ensures rest { OnOk result
            (self.new ≡ filter (λ (h : Held R). not (bears R.Name.cmp R.borne name h)) self.old) }
        ensures memory { OnErr result (self.new ≡ self.old) }
    {
        let ids = self.descend(name)?;
        let mut gone = Vec::with_capacity(self.alloc, ids.len())?;
        for place in 0..ids.len() {
            self.move_out(ids[place], &mut gone);
        }
        Ok(gone)
    }

    /// Puts an item in the place of another, and gives that back. It is found by its own names from
    /// then on, and keeps the id.
    pub fn rename(&mut self, id: usize, item: R) -> Result<R, Memory>
        requires { IsSome (item_at self.old id) }
        ensures was { IfOk result (λ was. item_at self.old id ≡ Some was) }
        ensures renamed { OnOk result (self.new ≡ with_item id item self.old) }
        ensures memory { OnErr result (self.new ≡ self.old) }
    {
        let known = self.slab[id].item.names();
        attach(&mut self.links, item.names(), id, known)?;
        Ok(exchange(&mut self.slab, &mut self.links, id, item))
    }

    /// The same with an item that bears no name which the other lacks. It takes no memory.
    pub fn shed(&mut self, id: usize, item: R) -> R
        requires there { IsSome (item_at self.old id) }
        requires fewer { (name : R.Name) → names R.Name.cmp (R.borne item) name ≡ true
            → names_at R.Name.cmp R.borne (item_at self.old id) name ≡ true }
        ensures was { item_at self.old id ≡ Some result }
        ensures renamed { self.new ≡ with_item id item self.old }
    {
        exchange(&mut self.slab, &mut self.links, id, item)
    }
}

/// Puts an item under an id that held another, whose names are linked to it no longer.
fn exchange<R: Filed + Drop>(
    slab: &mut Slab<Kept<R>>,
    links: &mut BTreeSet<Link<R::Name>>,
    id: usize,
    item: R,
) -> R
    requires { ContainsKey slab.old id }
    ensures was { at slab.old.slots id ≡ Some result }
    ensures item { Updated slab.old.slots slab.new.slots id (Some item) }
    ensures links { (q : Link R.Name)
        → contains (by_link R.Name.cmp) links.new q
        ≡ ((not (links_to R.Name.cmp (R.borne result) id q) || links_to R.Name.cmp (R.borne item) id q) && contains
        (by_link R.Name.cmp) links.old q) }
{
    let Kept { item: was } = slab.remove(id);
    detach(links, was.names(), id, item.names());
    slab.insert_reserved(Kept { item });
    was
}

impl<R: Filed + Drop> Duplicate for Store<R> {
    fn copy(&self) -> Result<Store<R>, Memory> {
        let mut links = BTreeSet::new(self.alloc);
        for link in self.links.iter() {
            links.insert(*link)?;
        }
        Ok(Store {
            alloc: self.alloc,
            slab: self.slab.clone()?,
            links,
        })
    }
}
