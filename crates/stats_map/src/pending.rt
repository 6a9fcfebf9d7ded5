//! What an event makes of counts, before it is made.
ghost use Rattle.std.specs.Prelude.{◌≡◌, OnErr, OnOk};
ghost use Rattle.stats_map.specs.Changes.{CanMake, made};
ghost use Rattle.stats_map.specs.Counting.{count as count_of, downed, forgot, installed, is_named as is_named_of};
ghost use Rattle.stats_map.specs.Pending.{ended_now};
ghost use Rattle.stats_map.specs.Told.{told};

use crate::changes::Changes;
use crate::counts::Counts;
use crate::overlay::Overlay;
use crate::slots::value_of;
use cv_io::{Leaf, Memory};
use install_plan::Written;
use std::marker::Model;

/// The counts as an event began, and as it makes them.
#[derive(Drop)]
pub struct Pending<'a> {
    over: Overlay<'a>,
}

impl<'a> Model for Pending<'a> {
    ghost use Rattle.stats_map.specs.Overlay.{IsLaid, now_of};
    ghost use Rattle.stats_map.specs.Pending.{PendingOf};

    ghost Value = { PendingOf };

    ghost view = { λ a. record { base = a.over.base.now; now = now_of a.over } };

    ghost invariant = { λ a. IsLaid a.over };
}

impl<'a> Pending<'a> {
    /// Nothing is changed. It takes no memory.
    pub fn of(counts: &'a Counts) -> Pending<'a>
        ensures base { result.base ≡ counts.now }
        ensures now { result.now ≡ counts.now }
    {
        Pending {
            over: Overlay::of(counts),
        }
    }

    /// The removal of a cookie is taken, with the numbers that it has.
    pub fn end(&mut self, switch: u32, cookie: u64) -> Result<(), Memory>
        ensures base { self.new.base ≡ self.old.base }
        ensures ended { OnOk result (told self.new.now ≡ ended_now (switch, cookie) (told self.old.now)) }
        ensures memory { OnErr result (self.new ≡ self.old) }
    {
        self.over.end(&(switch, cookie))?;
        Ok(())
    }

    /// A switch went down: its cookies have their last numbers.
    pub fn down(&mut self, switch: u32) -> Result<(), Memory>
        ensures base { self.new.base ≡ self.old.base }
        ensures downed { OnOk result (told self.new.now ≡ downed switch (told self.old.now)) }
        ensures memory { OnErr result (self.new ≡ self.old) }
    {
        self.over.end_all(switch)?;
        Ok(())
    }

    /// A cookie is written to a switch. One that was written already stays as it is.
    pub fn write(&mut self, switch: u32, written: &Written) -> Result<(), Memory>
        ensures base { self.new.base ≡ self.old.base }
        ensures installed { OnOk result (told self.new.now
            ≡ installed (switch, written.now.cookie) written.now.entry.ancestry (told self.old.now)) }
        ensures memory { OnErr result (self.new ≡ self.old) }
    {
        self.over
            .begin((switch, written.cookie), &written.entry.ancestry)?;
        Ok(())
    }

    /// A leaf isn't counted any more, as soon as no cookie that matters names it.
    pub fn forget(&mut self, leaf: &Leaf) -> Result<(), Memory>
        ensures base { self.new.base ≡ self.old.base }
        ensures forgot { OnOk result (told self.new.now ≡ forgot leaf.now (told self.old.now)) }
        ensures memory { OnErr result (self.new ≡ self.old) }
    {
        self.over.forget(leaf)?;
        Ok(())
    }

    /// The packets and bytes of all cookies that named the leaf.
    pub fn count(&self, leaf: &Leaf) -> (u64, u64)
        ensures { result
            ≡ ((count_of (told self.now.now) leaf.now).packets, (count_of (told self.now.now) leaf.now).bytes) }
    {
        match value_of(self.over.base.sums(), &self.over.sums, leaf) {
            Some(sum) => sum.count(),
            None => (0, 0),
        }
    }

    /// Whether a cookie that matters names the leaf.
    pub fn is_named(&self, leaf: &Leaf) -> bool
        ensures { result ≡ is_named_of (told self.now.now) leaf.now }
    {
        match value_of(self.over.base.sums(), &self.over.sums, leaf) {
            Some(sum) => sum.live > 0,
            None => false,
        }
    }

    /// What is to be changed of the counts.
    pub fn into_changes(self) -> Changes
        ensures made { made result self.entry.base ≡ self.entry.now }
        ensures can { CanMake result self.entry.base }
    {
        let Pending { over } = self;
        let Overlay {
            base: _,
            live,
            sums,
        } = over;
        Changes { live, sums }
    }
}
