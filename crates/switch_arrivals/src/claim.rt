//! The claims to one datapath id: the connection that is given, and a newcomer that waits.
ghost use Rattle.std.specs.Prelude.{◌≡◌, IfSome};
ghost use Rattle.switch_arrivals.specs.Claims.{after_giving, asked, duel_of, givable, is_rested as is_rested_of};
ghost use Rattle.switch_arrivals.specs.Claims.{is_asked as is_asked_of, is_awaited as is_awaited_of};
ghost use Rattle.switch_arrivals.specs.Claims.{is_givable as is_givable_of};
ghost use Rattle.switch_arrivals.specs.Claims.{life_of, settled, shut as shut_of, stood, unclaimed};
ghost use Rattle.std.specs.Option.{option_copied};

use std::mem::replace;

/// Of one datapath id a connection is given so many milliseconds after another at the soonest.
pub const PAUSE: u64 = 1_000;

/// A connection that is given, and is asked whether it is up, has so many milliseconds to be heard from.
pub const DUEL: u64 = 3_000;

/// Who has a datapath id. `L` is what is kept of a connection that is given.
#[derive(Drop)]
pub enum Holder<L> {
    /// No connection is given.
    Nobody,
    /// One is given.
    Given { life: L },
    /// One is given, and was asked at that time whether it is up.
    Asked { life: L, since: u64 },
    /// One is given and was shut down. It isn't over yet.
    Replaced { life: L },
}

/// A connection of a switch that waits to be given: what is kept of it then, and what is given.
#[derive(Drop)]
pub struct Newcomer<L, C> {
    pub life: L,
    pub link: C,
}

/// How it stands between a connection that is given and a newcomer.
#[derive(Drop)]
pub enum Duel<L, C> {
    /// There is no duel, or it goes on.
    Open,
    /// The one that is given is up, and this newcomer goes.
    Up { newcomer: Option<Newcomer<L, C>> },
    /// The one that is given was not heard from. It is to be shut down.
    Over,
}

/// The claims to a datapath id.
#[derive(Drop)]
pub struct Claim<L, C> {
    pub dpid: u64,
    pub holder: Holder<L>,
    pub newcomer: Option<Newcomer<L, C>>,
    /// When the last connection was given, in milliseconds.
    pub last: Option<u64>,
}

/// The holder, asked whether it is up unless it was asked before.
fn ask<L>(holder: Holder<L>, now: u64) -> Holder<L>
    ensures { result ≡ asked now holder }
{
    match holder {
        Holder::Given { life } => Holder::Asked { life, since: now },
        Holder::Nobody => Holder::Nobody,
        Holder::Asked { life, since } => Holder::Asked { life, since },
        Holder::Replaced { life } => Holder::Replaced { life },
    }
}

/// The holder, where it was asked and is up.
fn stand<L>(holder: Holder<L>) -> Holder<L>
    ensures { result ≡ stood holder }
{
    match holder {
        Holder::Asked { life, since: _ } => Holder::Given { life },
        Holder::Nobody => Holder::Nobody,
        Holder::Given { life } => Holder::Given { life },
        Holder::Replaced { life } => Holder::Replaced { life },
    }
}

/// The holder, where it was asked and is shut down.
fn shut<L>(holder: Holder<L>) -> Holder<L>
    ensures { result ≡ shut_of holder }
{
    match holder {
        Holder::Asked { life, since: _ } => Holder::Replaced { life },
        Holder::Nobody => Holder::Nobody,
        Holder::Given { life } => Holder::Given { life },
        Holder::Replaced { life } => Holder::Replaced { life },
    }
}

/// Whether a second has passed since a connection was given.
fn is_rested(last: Option<u64>, now: u64) -> bool
    ensures { result ≡ is_rested_of now last }
{
    match last {
        Some(last) => now.saturating_sub(last) >= PAUSE,
        None => true,
    }
}

impl<L, C> Claim<L, C> {
    /// Nobody claims this datapath id.
    pub fn new(dpid: u64) -> Self
        ensures { result ≡ unclaimed dpid }
    {
        Claim {
            dpid,
            holder: Holder::Nobody,
            newcomer: None,
            last: None,
        }
    }

    /// What is kept of the connection that is given.
    pub fn life(&self) -> Option<&L>
        ensures { option_copied result ≡ life_of self.now.holder }
    {
        match &self.holder {
            Holder::Nobody => None,
            Holder::Given { life } => Some(life),
            Holder::Asked { life, since: _ } => Some(life),
            Holder::Replaced { life } => Some(life),
        }
    }

    /// A newcomer waits, and no connection is given.
    pub fn is_awaited(&self) -> bool
        ensures { result ≡ is_awaited_of self.now }
    {
        matches!(&self.holder, Holder::Nobody) && self.newcomer.is_some()
    }

    /// A connection that is given was asked whether it is up.
    pub fn is_asked(&self) -> bool
        ensures { result ≡ is_asked_of self.now.holder }
    {
        matches!(&self.holder, Holder::Asked { .. })
    }

    /// The newcomer can be given: none is, and a second has passed since the last one was.
    pub fn is_givable(&self, now: u64) -> bool
        ensures { result ≡ is_givable_of now self.now }
    {
        self.is_awaited() && is_rested(self.last, now)
    }
}

impl<L: Drop, C: Drop> Claim<L, C> {
    /// A newcomer waits, and the one that waited goes. A connection that is given is asked whether it is up.
    pub fn arrive(&mut self, newcomer: Newcomer<L, C>, now: u64) -> Option<Newcomer<L, C>>
        ensures overtaken { result ≡ self.old.newcomer }
        ensures waits { self.new
            ≡ record self.old { newcomer = Some newcomer; holder = asked now self.old.holder } }
    {
        let holder = replace(&mut self.holder, Holder::Nobody);
        self.holder = ask(holder, now);
        replace(&mut self.newcomer, Some(newcomer))
    }

    /// How the duel stands, where the connection that is given was last heard from at `heard`.
    pub fn settle(&mut self, heard: u64, now: u64) -> Duel<L, C>
        ensures outcome { result ≡ duel_of self.old heard now }
        ensures claims { self.new ≡ settled result self.old }
    {
        let Holder::Asked { life: _, since } = &self.holder else {
            return Duel::Open;
        };
        let since = *since;
        if heard >= since {
            let holder = replace(&mut self.holder, Holder::Nobody);
            self.holder = stand(holder);
            return Duel::Up {
                newcomer: self.newcomer.take(),
            };
        }
        if now.saturating_sub(since) < DUEL {
            return Duel::Open;
        }
        let holder = replace(&mut self.holder, Holder::Nobody);
        self.holder = shut(holder);
        Duel::Over
    }

    /// The connection that is given is over.
    pub fn free(&mut self)
        ensures { self.new ≡ record self.old { holder = Holder.Nobody } }
    {
        self.holder = Holder::Nobody;
    }

    /// Gives the newcomer, where no connection is given and a second has passed since the last one was.
    pub fn give(&mut self, now: u64) -> Option<C>
        ensures given { result ≡ givable now self.old }
        ensures alone { IfSome result (λ _. self.old.holder ≡ Holder.Nobody) }
        ensures claims { self.new ≡ after_giving now self.old }
    {
        if !self.is_givable(now) {
            return None;
        }
        let Newcomer { life, link } = self.newcomer.take()?;
        self.holder = Holder::Given { life };
        self.last = Some(now);
        Some(link)
    }
}
