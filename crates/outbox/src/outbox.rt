//! The round of a session and the messages that wait for it.
ghost use Rattle.std.specs.Prelude.{◌≡◌, ◌↔◌, ◌+◌, ◌++◌, ◌<◌, ◌^◌, IsTrue, length};
ghost use Rattle.outbox.specs.Outboxes.{closed as closed_of, is_crowded as is_crowded_of, is_full as is_full_of};
ghost use Rattle.outbox.specs.Outboxes.{is_open as is_open_of, opened};
ghost use Rattle.outbox.specs.Outboxes.{taken, taking, turned, unless_taken, unopened, with_more, OutboxOf};

use crate::letters::Letters;
use cv_io::{Bytes, Duplicate, Memory};
use std::alloc::Global;
use std::marker::Model;

/// A session for which so many messages wait as an event begins is closed as slow where it is put more.
pub const SLOW: usize = 4096;

// So many bytes are many, in however few messages.
const HEAVY: usize = 8 << 20;

/// The answer to a taking.
#[derive(PartialEq, Eq, Debug, Drop)]
pub enum Taking {
    Taken(Bytes),
    /// Nothing waits, or the round has not begun.
    Empty,
    /// The round has ended.
    Closed,
}

/// What becomes of a session, but for the messages that it is put.
#[derive(Clone, Copy, PartialEq, Eq, Debug)]
pub struct Turn {
    pub round: u64,
    pub up: bool,
    /// What waited doesn't wait any more.
    pub emptied: bool,
}

impl Turn {
    /// The next round begins.
    pub fn open(&mut self)
        ensures { (o : OutboxOf) → turned self.new o ≡ opened (turned self.old o) }
    {
        self.round = self.round.saturating_add(1);
        self.up = true;
    }

    /// The round ends.
    pub fn close(&mut self)
        ensures { (o : OutboxOf) → turned self.new o ≡ closed_of (turned self.old o) }
    {
        self.up = false;
        self.emptied = true;
    }
}

/// A session's present round and what waits for it.
#[derive(Drop)]
pub struct Outbox {
    round: u64,
    up: bool,
    waiting: Letters,
}

impl Model for Outbox {
    ghost use Rattle.outbox.specs.Outboxes.{OutboxOf};

    ghost Value = { OutboxOf };

    ghost view = { λ a. record { round = a.round; up = a.up; waiting = a.waiting } };
}

impl Outbox {
    /// No round has begun.
    pub fn new(alloc: Global) -> Outbox
        ensures { result ≡ unopened }
    {
        Outbox {
            round: 0,
            up: false,
            waiting: Letters::new(alloc),
        }
    }

    /// The present round, or the last one; 0 before the first.
    pub fn round(&self) -> u64
        ensures { result ≡ self.now.round }
    {
        self.round
    }

    /// The session is up.
    pub fn is_up(&self) -> bool
        ensures { result ≡ self.now.up }
    {
        self.up
    }

    /// The session is up in this round.
    pub fn is_open(&self, round: u64) -> bool
        ensures { result ≡ is_open_of self.now round }
    {
        self.up && self.round == round
    }

    /// So much waits that the session is closed if it is put more.
    pub fn is_full(&self) -> bool
        ensures { result ≡ is_full_of self.now }
    {
        self.waiting.len() >= SLOW
    }

    /// Half as much waits: who puts it more should do so slowly.
    pub fn is_crowded(&self) -> bool
        ensures { result ≡ is_crowded_of self.now }
    {
        self.waiting.len() >= SLOW / 2
    }

    /// So many bytes wait that who puts it more should do so slowly. No promise rests on it.
    pub fn is_heavy(&self) -> bool {
        self.waiting.bytes() >= HEAVY
    }

    /// Nothing becomes of it.
    pub fn stay(&self) -> Turn
        ensures stays { turned result self.now ≡ self.now }
        ensures up { result.up ≡ self.now.up }
    {
        Turn {
            round: self.round,
            up: self.up,
            emptied: false,
        }
    }

    /// It becomes what was planned.
    pub fn turn(&mut self, turn: Turn)
        ensures { self.new ≡ turned turn self.old }
    {
        self.round = turn.round;
        self.up = turn.up;
        if turn.emptied {
            self.waiting.clear();
        }
    }

    /// Whether so many more messages have a place, as those of any machine do.
    pub fn has_place(&self, more: &Letters) -> bool
        ensures { IsTrue result ↔ length self.now.waiting + length more.now < 2 ^ 63 }
    {
        self.waiting.len() + more.len() < 1 << 63
    }

    /// Puts messages behind those that wait.
    pub fn put(&mut self, more: Letters)
        requires { length self.old.waiting + length more < 2 ^ 63 }
        ensures { self.new ≡ with_more more self.old }
    {
        self.waiting.join(more)
    }

    /// What a taking answers that finds nothing.
    pub fn glance(&self, round: u64) -> Option<Taking>
        ensures { result ≡ unless_taken (taking self.now round) }
    {
        if round > self.round {
            return Some(Taking::Empty);
        }
        if !self.is_open(round) {
            return Some(Taking::Closed);
        }
        if self.waiting.is_empty() {
            return Some(Taking::Empty);
        }
        None
    }

    /// Takes the first message that waits in a round.
    pub fn take(&mut self, round: u64) -> Taking
        ensures answer { result ≡ taking self.old round }
        ensures left { self.new ≡ taken self.old round }
    {
        if round > self.round {
            return Taking::Empty;
        }
        if !self.is_open(round) {
            return Taking::Closed;
        }
        match self.waiting.pop() {
            Some(message) => Taking::Taken(message),
            None => Taking::Empty,
        }
    }
}

impl Duplicate for Outbox {
    fn copy(&self) -> Result<Outbox, Memory> {
        Ok(Outbox {
            round: self.round,
            up: self.up,
            waiting: self.waiting.copy()?,
        })
    }
}
