//! Counts, and what is changed of them. All that a change needs is drawn first, which takes memory and changes
//! nothing; then it is made in the slots without memory.
ghost use Rattle.std.specs.Prelude.{◌≡◌, IfOk, Option, OnErr, OnOk, filter, ◌==◌};
ghost use Rattle.std.specs.Map.{keys_of};
ghost use Rattle.cv_io.specs.Leaves.{leaf_cmp};
ghost use Rattle.stats_map.specs.Counting.{Place, downed, forgot, installed};
ghost use Rattle.stats_map.specs.Overlay.{IsDrawn, IsLaid, NamesAreDrawn, SwitchIsDrawn, now_of};
ghost use Rattle.stats_map.specs.Slots.{AreDrawn};
ghost use Rattle.stats_map.specs.Pending.{ended_now};
ghost use Rattle.stats_map.specs.Told.{told};

use crate::counts::Counts;
use crate::row::Row;
use crate::slot_sums::{change_slots, draw_leaves, open_slots};
use crate::slots::{draw, value_of};
use crate::sum::{Event, Sum};
use cv_io::{Duplicate, Leaf, List, Memory};
use std::alloc::Global;
use std::collections::BTreeMap;

/// Counts, and slots of what is changed.
#[derive(Drop)]
pub struct Overlay<'a> {
    pub base: &'a Counts,
    /// The cookies that are written, and none where one ends.
    pub live: BTreeMap<(u32, u64), Option<Row>>,
    /// The sums of leaves that change.
    pub sums: BTreeMap<Leaf, Option<Sum>>,
}

/// The places of a switch, in order.
fn places_of<V>(
    alloc: Global,
    map: &BTreeMap<(u32, u64), V>,
    switch: u32,
) -> Result<Vec<(u32, u64)>, Memory>
    ensures { IfOk result (λ places. places.items ≡ keys_of (filter (λ e. e.0.0 == switch) map.now.entries)) }
{
    let mut places = Vec::new(alloc);
    for (place, _) in map.range((switch, 0)..) {
        if place.0 != switch {
            return Ok(places);
        }
        places.push(*place)?;
    }
    Ok(places)
}

impl<'a> Overlay<'a> {
    /// Nothing is changed. It takes no memory.
    pub fn of(base: &'a Counts) -> Overlay<'a>
        ensures base { result.base.now ≡ base.now }
        ensures same { now_of result ≡ base.now }
        ensures laid { IsLaid result }
    {
        // The proof learns that the keys rise.
        let _places = base.live();
        let _leaves = base.sums();
        let alloc = base.allocator();
        Overlay {
            base,
            live: BTreeMap::new(alloc),
            sums: BTreeMap::new(alloc),
        }
    }

    /// Draws the leaves of a cookie.
    fn draw_named(&mut self, place: &(u32, u64)) -> Result<(), Memory>
        ensures base { self.new.base.now ≡ self.old.base.now }
        ensures live { self.new.live.entries ≡ self.old.live.entries }
        ensures drawn { AreDrawn leaf_cmp self.old.base.now.sums self.old.sums.entries self.new.sums.entries }
        ensures named { OnOk result (NamesAreDrawn place.now self.new) }
    {
        let Some(row) = value_of(self.base.live(), &self.live, place) else {
            return Ok(());
        };
        draw_leaves(self.base.sums(), &mut self.sums, row.ancestry().as_slice())?;
        Ok(())
    }

    /// Draws a place, with the leaves of its cookie.
    fn draw_place(&mut self, place: &(u32, u64)) -> Result<(), Memory>
        requires { IsLaid self.old }
        ensures base { self.new.base.now ≡ self.old.base.now }
        ensures same { now_of self.new ≡ now_of self.old }
        ensures laid { IsLaid self.new }
        ensures stay { (q : Place) → IsDrawn q self.old → IsDrawn q self.new }
        ensures there { OnOk result (IsDrawn place.now self.new) }
    {
        self.draw_named(place)?;
        draw(self.base.live(), &mut self.live, place)
    }

    /// A cookie that was drawn doesn't matter any more.
    fn end_drawn(&mut self, place: &(u32, u64))
        requires laid { IsLaid self.old }
        requires drawn { IsDrawn place.now self.old }
        ensures base { self.new.base.now ≡ self.old.base.now }
        ensures ended { told (now_of self.new) ≡ ended_now place.now (told (now_of self.old)) }
        ensures laid { IsLaid self.new }
        ensures keys { keys_of self.new.live.entries ≡ keys_of self.old.live.entries }
    {
        let Some(slot) = self.live.get_mut(place) else {
            return;
        };
        let Some(row) = slot.take() else {
            return;
        };
        let numbers = row.numbers();
        let event = Event::Ended { numbers };
        change_slots(&mut self.sums, row.ancestry().as_slice(), &event);
    }

    /// A cookie doesn't matter any more, if it did.
    pub fn end(&mut self, place: &(u32, u64)) -> Result<(), Memory>
        requires { IsLaid self.old }
        ensures base { self.new.base.now ≡ self.old.base.now }
        ensures laid { IsLaid self.new }
        ensures ended { OnOk result (told (now_of self.new) ≡ ended_now place.now (told (now_of self.old))) }
        ensures memory { OnErr result (now_of self.new ≡ now_of self.old) }
    {
        self.draw_place(place)?;
        self.end_drawn(place);
        Ok(())
    }

    /// Draws the cookies of a switch.
    fn draw_switch(&mut self, switch: u32) -> Result<(), Memory>
        requires { IsLaid self.old }
        ensures base { self.new.base.now ≡ self.old.base.now }
        ensures same { now_of self.new ≡ now_of self.old }
        ensures laid { IsLaid self.new }
        ensures drawn { OnOk result (SwitchIsDrawn switch self.new) }
    {
        let places = places_of(self.base.allocator(), self.base.live(), switch)?;
        for place in &places {
            self.draw_place(place)?;
        }
        Ok(())
    }

    /// No cookie of a switch matters any more.
    pub fn end_all(&mut self, switch: u32) -> Result<(), Memory>
        requires { IsLaid self.old }
        ensures base { self.new.base.now ≡ self.old.base.now }
        ensures laid { IsLaid self.new }
        ensures ended { OnOk result (told (now_of self.new) ≡ downed switch (told (now_of self.old))) }
        ensures memory { OnErr result (now_of self.new ≡ now_of self.old) }
    {
        self.draw_switch(switch)?;
        // The proof learns that the places rise.
        let _slots = self.live.len();
        let places = places_of(self.base.allocator(), &self.live, switch)?;
        for place in &places {
            self.end_drawn(place);
        }
        Ok(())
    }

    /// A cookie is written, where there is none.
    pub fn begin(&mut self, place: (u32, u64), ancestry: &List<Leaf>) -> Result<(), Memory>
        requires { IsLaid self.old }
        ensures base { self.new.base.now ≡ self.old.base.now }
        ensures laid { IsLaid self.new }
        ensures begun { OnOk result (told (now_of self.new) ≡ installed place ancestry.now (told (now_of self.old))) }
        ensures memory { OnErr result (now_of self.new ≡ now_of self.old) }
    {
        if let Some(_standing) = value_of(self.base.live(), &self.live, &place) {
            return Ok(());
        }
        // The proof learns that there are fewer than 2^63 of each.
        let _standing = self.base.live().len();
        let _changed = self.live.len();
        draw_leaves(self.base.sums(), &mut self.sums, ancestry.as_slice())?;
        let row = Row::new(ancestry.copy()?);
        self.live.insert(place, Some(row))?;
        open_slots(&mut self.sums, ancestry.as_slice());
        change_slots(&mut self.sums, ancestry.as_slice(), &Event::Begun);
        Ok(())
    }

    /// A leaf isn't counted any more, as soon as no cookie that matters names it.
    pub fn forget(&mut self, leaf: &Leaf) -> Result<(), Memory>
        requires { IsLaid self.old }
        ensures base { self.new.base.now ≡ self.old.base.now }
        ensures laid { IsLaid self.new }
        ensures forgot { OnOk result (told (now_of self.new) ≡ forgot leaf.now (told (now_of self.old))) }
        ensures memory { OnErr result (now_of self.new ≡ now_of self.old) }
    {
        draw(self.base.sums(), &mut self.sums, leaf)?;
        change_slots(&mut self.sums, &[*leaf], &Event::Forgotten);
        Ok(())
    }
}
