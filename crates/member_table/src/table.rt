//! Tables.
ghost use Rattle.std.specs.Prelude.{◌≡◌, ◌<◌, ◌≤◌, ◌+◌, ◌-◌, ◌^◌, ◌==◌, [], Bool, Some, None, OnOk, IfOk, length, find};
ghost use Rattle.std.specs.Prelude.{filter, map, not, option_map, if◌then◌else◌};
ghost use Rattle.std.specs.List.{list_any, slice_get};
ghost use Rattle.std.specs.Option.{option_copied};

use crate::change::Modified;
use crate::entry::Entry;
use crate::order::Order;
use crate::ranks::{Ranks, item_of};
use cv_io::List;
use of10_match::Header;
use std::alloc::Global;
use std::marker::Model;

/// The flow table of a member.
#[derive(Drop)]
pub struct Table {
    pub(crate) alloc: Global,
    pub(crate) limit: u32,
    pub(crate) next: u64,
    pub(crate) room: usize,
    /// No timeout of an entry passes before.
    pub(crate) soonest: u64,
    pub(crate) order: Order,
    pub(crate) ranks: Ranks,
}

impl Model for Table {
    ghost use Rattle.member_table.specs.Tables.{Held};
    ghost use Rattle.member_table.specs.InsideKept.{IsKept};

    ghost Value = { Held };

    ghost view = { λ a. record {
      table = record { entries = a.order.entries; next = a.next; limit = a.limit };
      room = a.room;
    } };

    ghost invariant = { λ a. IsKept (record { entries = a.order.entries; next = a.next; limit = a.limit }) a.room
        a.soonest a.order a.ranks };
}

impl Table {
    ghost use Rattle.member_table.specs.Tables.{TableOf, has_rank as has_rank_of, with_actions};
    ghost use Rattle.member_table.specs.Entries.{has_serial, identity_of, put as put_of};
    ghost use Rattle.member_table.specs.Changes.{CanAdd, IsInRange, stays};
    ghost use Rattle.member_table.specs.Sound.{IsSound};
    ghost use Rattle.member_table.specs.Best.{best_entry};

    /// An empty table, which may have so many entries. It takes no memory.
    pub fn new(alloc: Global, limit: u32) -> Table
        ensures { result.table ≡ record { entries = []; next = 1; limit = limit } }
    {
        Table {
            alloc,
            limit,
            next: 1,
            room: 0,
            soonest: u64::MAX,
            order: Order::new(alloc),
            ranks: Ranks::new(alloc),
        }
    }

    /// How many entries there are. What is true of every table is said here.
    pub fn len(&self) -> usize
        ensures count { result ≡ length self.now.table.entries }
        ensures sound { IsSound self.now.table }
    {
        self.order.len()
    }

    /// How many entries there may be.
    pub fn limit(&self) -> u32
        ensures { result ≡ self.now.table.limit }
    {
        self.limit
    }

    pub fn is_empty(&self) -> bool
        ensures { result ≡ (length self.now.table.entries == 0) }
    {
        self.order.len() == 0
    }

    /// The entry at a place of the order, from 0.
    pub fn at(&self, place: usize) -> Option<&Entry>
        ensures { option_copied result ≡ slice_get self.now.table.entries place }
    {
        self.order.at(place)
    }

    /// The entry of a serial number.
    pub fn get(&self, serial: u64) -> Option<&Entry>
        ensures { option_copied result ≡ find (has_serial serial) self.now.table.entries }
    {
        self.order.get(serial)
    }

    /// The serial number of the entry of the highest rank that holds the header.
    pub fn best(&self, header: &Header) -> Option<u64>
        ensures { result ≡ option_map (λ e. e.serial) (best_entry self.now.table.entries header.now) }
    {
        match self.ranks.highest(header) {
            Some(top) => Some(top.id),
            None => None,
        }
    }

    /// Whether an entry has the rank.
    pub fn has_rank(&self, rank: u32) -> bool
        ensures { result ≡ list_any (has_rank_of rank) self.now.table.entries }
    {
        self.ranks.has(rank)
    }

    /// Takes an entry out; the others keep their order. False where there is no such entry.
    pub fn drop_serial(&mut self, serial: u64) -> bool
        ensures table { self.new.table ≡ record self.old.table
            { entries = filter (λ e. not (has_serial serial e)) self.old.table.entries } }
        ensures found { result ≡ list_any (has_serial serial) self.old.table.entries }
        ensures room { self.new.room ≡ self.old.room }
    {
        match self.order.remove(serial) {
            Some(entry) => {
                self.ranks.remove(entry.serial);
                true
            }
            None => false,
        }
    }

    /// Sets when an entry's count was last seen to have risen. False where there is no such entry.
    pub fn touch(&mut self, serial: u64, now: u64) -> bool
        ensures table { self.new.table ≡ record self.old.table
            { entries = map (λ e. if has_serial serial e then record e { last = now } else e) self.old.table.entries } }
        ensures found { result ≡ list_any (has_serial serial) self.old.table.entries }
        ensures room { self.new.room ≡ self.old.room }
    {
        self.soonest = self.soonest.min(now);
        self.order.set_last(serial, now)
    }

    /// Takes entries out in one pass, but the one whose place is taken. The others keep their order.
    pub(crate) fn drop_all(&mut self, serials: List<u64>, place: Option<u64>)
        ensures table { self.new.table ≡ record self.old.table
            { entries = filter (stays serials place) self.old.table.entries } }
        ensures room { self.new.room ≡ self.old.room }
    {
        self.ranks.remove_all(serials.as_slice(), place);
        self.order.remove_all(serials, place);
    }

    /// Gives an entry other actions, where it is there.
    pub(crate) fn modify(&mut self, modified: Modified)
        requires { IsInRange modified }
        ensures table { self.new.table ≡ record self.old.table {
          entries = map (λ e. if has_serial modified.serial e then with_actions modified.actions e else e)
              self.old.table.entries;
        } }
        ensures room { self.new.room ≡ self.old.room }
    {
        let Modified { serial, actions } = modified;
        self.order.set_actions(serial, actions);
    }

    /// Puts an entry in the place of the identical one, else last.
    pub(crate) fn put(&mut self, entry: Entry)
        requires { CanAdd self.old [] entry }
        ensures table { self.new.table ≡ record self.old.table
            { entries = put_of entry self.old.table.entries; next = self.old.table.next + 1 } }
        ensures room { self.new.room + 1 ≡ self.old.room }
    {
        let item = item_of(&entry);
        self.soonest = self.soonest.min(entry.soonest());
        let replaced = self.order.put(entry);
        self.ranks.exchange(replaced, &item);
        self.next += 1;
        self.room -= 1;
    }
}
