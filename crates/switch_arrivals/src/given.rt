//! The claims to all datapath ids of a listen address.
ghost use Rattle.std.specs.Prelude.{◌≡◌, ◌<◌, [], IfSome, OnErr, OnOk, Option, Some, false, length, position, slice_get};
ghost use Rattle.std.specs.Prelude.{slice_set};
ghost use Rattle.std.specs.List.{list_any};
ghost use Rattle.switch_arrivals.specs.Claims.{after_giving, asked, duel_of, givable, has_given};
ghost use Rattle.switch_arrivals.specs.Claims.{is_asked as is_asked_of, is_awaited as is_awaited_of, is_givable};
ghost use Rattle.switch_arrivals.specs.Claims.{is_of, known, settled};
ghost use Rattle.switch_arrivals.specs.declared.claim.Claim.{Claim as ClaimOf};
ghost use Rattle.switch_arrivals.specs.declared.claim.Holder.TheVariants.{Nobody};

use crate::claim::{Claim, Duel, Newcomer};
use cv_io::{List, Memory};
use std::alloc::Global;
use std::marker::Model;

/// The claims to datapath ids, each of which stands once. Contracts see them as a list.
#[derive(Drop)]
pub struct Given<L, C> {
    claims: List<Claim<L, C>>,
}

impl<L, C> Model for Given<L, C> {
    ghost use Rattle.std.specs.Prelude.{List};
    ghost use Rattle.switch_arrivals.specs.Claims.{AreApart};
    ghost use Rattle.switch_arrivals.specs.declared.claim.Claim.{Claim};

    ghost Value = { List (Claim L C) };

    ghost view = { λ g. g.claims };

    ghost invariant = { λ g. AreApart g.claims };
}

impl<L, C> Given<L, C> {
    /// No datapath id is known.
    pub fn new(alloc: Global) -> Self
        ensures { result ≡ [] }
    {
        Given {
            claims: List::new(alloc),
        }
    }

    /// The claims to each datapath id that is known.
    pub fn as_slice(&self) -> &[Claim<L, C>]
        ensures { result.now ≡ self.now }
    {
        self.claims.as_slice()
    }

    /// Whether a datapath id is known.
    pub fn is_known(&self, dpid: u64) -> bool
        ensures { result ≡ list_any (is_of dpid) self.now }
    {
        self.claims.as_slice().iter().any(|c| dpid == c.dpid)
    }

    /// The first place at which a newcomer can be given.
    #[tactic(auto, using(crate::proofs::Places::is_within))]
    pub fn ready(&self, now: u64) -> Option<usize>
        ensures first { result ≡ position (is_givable now) self.now }
        ensures within { IfSome result (λ place. place < length self.now) }
    {
        self.claims
            .as_slice()
            .iter()
            .position(|c| c.is_givable(now))
    }

    /// Whether a newcomer waits at a place where no connection is given.
    pub fn is_awaited(&self) -> bool
        ensures { result ≡ list_any is_awaited_of self.now }
    {
        self.claims.as_slice().iter().any(|c| c.is_awaited())
    }

    /// Whether a connection that is given was asked whether it is up.
    pub fn is_asked(&self) -> bool
        ensures { result ≡ list_any (λ (c : ClaimOf L C). is_asked_of c.holder) self.now }
    {
        self.claims.as_slice().iter().any(|c| c.is_asked())
    }
}

impl<L: Drop, C: Drop> Given<L, C> {
    /// A datapath id is known from here on.
    #[tactic(auto, using(crate::proofs::Apart::apart_push))]
    pub fn know(&mut self, dpid: u64) -> Result<(), Memory>
        ensures known { OnOk result (self.new ≡ known dpid self.old) }
        ensures memory { OnErr result (self.new ≡ self.old) }
    {
        if self.is_known(dpid) {
            return Ok(());
        }
        self.claims.push(Claim::new(dpid))
    }

    /// A newcomer waits for a datapath id, and the one that waited goes. A connection that is given is asked whether it is
    /// up, `now` by the clock by which it is told when that one was heard from.
    pub fn arrive(
        &mut self,
        place: usize,
        newcomer: Newcomer<L, C>,
        now: u64,
    ) -> Option<Newcomer<L, C>>
        requires { place < length self.old }
        ensures overtaken { (c : ClaimOf L C) → slice_get self.old place ≡ Some c → result ≡ c.newcomer }
        ensures waits { (c : ClaimOf L C) → slice_get self.old place ≡ Some c
            → self.new ≡ slice_set self.old place (record c { newcomer = Some newcomer; holder = asked now c.holder }) }
    {
        self.claims.as_mut_slice()[place].arrive(newcomer, now)
    }

    /// How the duel at a place stands, where the connection that is given was last heard from at `heard`.
    pub fn settle(&mut self, place: usize, heard: u64, now: u64) -> Duel<L, C>
        requires { place < length self.old }
        ensures outcome { (c : ClaimOf L C) → slice_get self.old place ≡ Some c → result ≡ duel_of c heard now }
        ensures claims { (c : ClaimOf L C) → slice_get self.old place ≡ Some c
            → self.new ≡ slice_set self.old place (settled result c) }
    {
        self.claims.as_mut_slice()[place].settle(heard, now)
    }

    /// The connection that is given at a place is over.
    pub fn free(&mut self, place: usize)
        requires { place < length self.old }
        ensures { (c : ClaimOf L C) → slice_get self.old place ≡ Some c
            → self.new ≡ slice_set self.old place (record c { holder = Nobody }) }
    {
        self.claims.as_mut_slice()[place].free();
    }

    /// Gives the newcomer at a place, where no connection of its datapath id is given and a second has passed since the
    /// last one was.
    pub fn give(&mut self, place: usize, now: u64) -> Option<C>
        requires { place < length self.old }
        ensures given { (c : ClaimOf L C) → slice_get self.old place ≡ Some c → result ≡ givable now c }
        ensures alone { (c : ClaimOf L C) → slice_get self.old place ≡ Some c
            → IfSome result (λ _. list_any (has_given c.dpid) self.old ≡ false) }
        ensures claims { (c : ClaimOf L C) → slice_get self.old place ≡ Some c
            → self.new ≡ slice_set self.old place (after_giving now c) }
    {
        self.claims.as_mut_slice()[place].give(now)
    }
}
