//! Counts.
ghost use Rattle.std.specs.Prelude.{◌≡◌, OnErr, OnOk};
ghost use Rattle.stats_map.specs.Counting.{known};

use crate::changes::{Changes, make_in};
use crate::cookies::{begin_at, end_all, end_at, renumber_at};
use crate::copies::{copied_cookies, copied_sums};
use crate::row::Row;
use crate::sum::{Event, Sum};
use crate::sums::change_each;
use cv_io::{Duplicate, Leaf, Memory};
use install_plan::Written;
use std::alloc::Global;
use std::collections::BTreeMap;
use std::marker::Model;

/// What is known of a cookie that a switch reports on.
#[derive(Clone, Copy, PartialEq, Eq, Debug)]
pub enum Known {
    /// It was written to this switch and matters: its numbers were taken.
    Live,
    /// It was never written to this switch, or its removal was reported, or the switch went down since.
    Retired,
}

/// The counts of leaves.
#[derive(Drop)]
pub struct Counts {
    alloc: Global,
    /// By switch and cookie what stands there, or was deleted and not yet reported.
    live: BTreeMap<(u32, u64), Row>,
    sums: BTreeMap<Leaf, Sum>,
}

impl Model for Counts {
    ghost use Rattle.stats_map.specs.InsideSums.{AreSums};
    ghost use Rattle.stats_map.specs.Told.{HeldOf};
    ghost use Rattle.std.specs.Map.{values_of};

    ghost Value = { HeldOf };

    ghost view = { λ a. record { live = a.live.entries; sums = a.sums.entries } };

    ghost invariant = { λ a. AreSums (values_of a.live.entries) a.sums.entries };
}

impl Counts {
    ghost use Rattle.std.specs.List.Sorted.{IsStrictlySortedBy};
    ghost use Rattle.std.specs.Map.{keys_of};
    ghost use Rattle.std.specs.Prelude.{option_map};
    ghost use Rattle.cv_io.specs.Leaves.{leaf_cmp};
    ghost use Rattle.stats_map.specs.Changes.{CanMake, made};
    ghost use Rattle.stats_map.specs.Pending.{IsSummed};
    ghost use Rattle.stats_map.specs.Told.{told};
    ghost use Rattle.stats_map.specs.Counting.{cookie_at, count as count_of, downed, forgot, installed};
    ghost use Rattle.stats_map.specs.Counting.{is_named as is_named_of, nothing, place_cmp, reported};

    /// Nothing was written. It takes no memory.
    pub fn new(alloc: Global) -> Counts
        ensures { told result ≡ nothing }
    {
        Counts {
            alloc,
            live: BTreeMap::new(alloc),
            sums: BTreeMap::new(alloc),
        }
    }

    /// A cookie is written to a switch. One that was written already stays as it is.
    pub fn install(&mut self, switch: u32, written: &Written) -> Result<(), Memory>
        ensures installed { OnOk result
            (told self.new ≡ installed (switch, written.now.cookie) written.now.entry.ancestry (told self.old)) }
        ensures memory { OnErr result (told self.new ≡ told self.old) }
    {
        let place = (switch, written.cookie);
        begin_at(
            &mut self.live,
            &mut self.sums,
            place,
            &written.entry.ancestry,
        )
    }

    /// A switch reports the packets and bytes of a cookie, the last time as the entry was removed.
    pub fn report(
        &mut self,
        switch: u32,
        cookie: u64,
        packets: u64,
        bytes: u64,
        last: bool,
    ) -> Known
        ensures known { result ≡ known (cookie_at (switch, cookie) (told self.old)) }
        ensures counts { told self.new ≡ reported (switch, cookie) (record { packets = packets; bytes = bytes }) last
            (told self.old) }
    {
        let place = (switch, cookie);
        if !renumber_at(&mut self.live, &mut self.sums, &place, packets, bytes) {
            return Known::Retired;
        }
        if last {
            end_at(&mut self.live, &mut self.sums, &place);
        }
        Known::Live
    }

    /// The packets and bytes of all cookies that named the leaf.
    pub fn count(&self, leaf: &Leaf) -> (u64, u64)
        ensures { result ≡ ((count_of (told self.now) leaf.now).packets, (count_of (told self.now) leaf.now).bytes) }
    {
        match self.sums.get(leaf) {
            Some(sum) => sum.count(),
            None => (0, 0),
        }
    }

    /// Whether a cookie that matters names the leaf.
    pub fn is_named(&self, leaf: &Leaf) -> bool
        ensures { result ≡ is_named_of (told self.now) leaf.now }
    {
        match self.sums.get(leaf) {
            Some(sum) => sum.live > 0,
            None => false,
        }
    }

    /// The packets and bytes of a cookie that matters.
    pub fn numbers(&self, switch: u32, cookie: u64) -> Option<(u64, u64)>
        ensures { result
            ≡ option_map (λ c. (c.numbers.packets, c.numbers.bytes)) (cookie_at (switch, cookie) (told self.now)) }
    {
        match self.live.get(&(switch, cookie)) {
            Some(row) => Some(row.packets_and_bytes()),
            None => None,
        }
    }

    /// A switch went down: its cookies have their last numbers.
    pub fn down(&mut self, switch: u32)
        ensures { told self.new ≡ downed switch (told self.old) }
    {
        end_all(&mut self.live, &mut self.sums, switch);
    }

    /// A leaf isn't counted any more, as soon as no cookie that matters names it.
    pub fn forget(&mut self, leaf: &Leaf)
        ensures { told self.new ≡ forgot leaf.now (told self.old) }
    {
        change_each(&mut self.sums, &[*leaf], &Event::Forgotten);
    }

    /// Makes what an event makes of the counts. Where memory runs out they are as before.
    pub fn make(&mut self, changes: Changes) -> Result<(), Memory>
        requires { CanMake changes self.old }
        ensures made { OnOk result (self.new ≡ made changes self.old) }
        ensures memory { OnErr result (self.new ≡ self.old) }
    {
        make_in(self.alloc, &mut self.live, &mut self.sums, changes)?;
        Ok(())
    }

    /// What the maps are made in.
    pub(crate) fn allocator(&self) -> Global {
        self.alloc
    }

    /// The cookies that matter.
    pub(crate) fn live(&self) -> &BTreeMap<(u32, u64), Row>
        ensures entries { result.now.entries ≡ self.now.live }
        ensures rise { IsStrictlySortedBy place_cmp (keys_of self.now.live) }
        ensures summed { IsSummed self.now }
    {
        // The proof learns that the places rise.
        let _ = self.live.len();
        &self.live
    }

    /// The sums of leaves.
    pub(crate) fn sums(&self) -> &BTreeMap<Leaf, Sum>
        ensures entries { result.now.entries ≡ self.now.sums }
        ensures rise { IsStrictlySortedBy leaf_cmp (keys_of self.now.sums) }
    {
        // The proof learns that the leaves rise.
        let _ = self.sums.len();
        &self.sums
    }
}

impl Duplicate for Counts {
    fn copy(&self) -> Result<Counts, Memory> {
        Ok(Counts {
            alloc: self.alloc,
            live: copied_cookies(self.alloc, &self.live)?,
            sums: copied_sums(self.alloc, &self.sums)?,
        })
    }
}
