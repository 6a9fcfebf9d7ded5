//! A machine of sessions that leaves the audit a line once a session said something.
ghost use Rattle.std.specs.Prelude.{◌≡◌, ◌||◌, false, MatchResult, if◌then◌else◌};
ghost use Rattle.endpoint_works.specs.Sides.{is_audit};
ghost use Rattle.events.specs.declared.event.Event.TheVariants.{Take};
ghost use Rattle.events.specs.declared.event.Reply.TheVariants.{Closed, Done};
ghost use Rattle.session_tests.specs.Diary.{gives as gives_of, next as next_of, reply as reply_of, taken};

use cv_io::{Bytes, Duplicate, Memory, Session, Steps, Who};
use events::{Event, Reply};
use lock_desk::Host;
use policy_lock::{Machine, Marks, PolicyLock, Receipt, Seat};
use std::sync::Wait;
use std::sync::ledger::Ledger;
use std::thread::Threads;

// The bit of the audit among the marks.
const AUDIT: u32 = 48;

/// Its line; whether that waits, and whether the session is up.
#[derive(Drop)]
pub(crate) struct Diary {
    pub(crate) line: Bytes,
    pub(crate) waits: bool,
    pub(crate) up: bool,
}

impl Diary {
    /// The line waits, and it is the audit that asks.
    fn gives(&self, session: &Session) -> bool
        ensures { result ≡ gives_of (self.now.line, (self.now.waits, self.now.up)) session.now }
    {
        self.waits && matches!(session.who, Who::Audit)
    }

    /// The answer where no line is given.
    fn no_line(&self, session: &Session) -> Reply
        ensures { result ≡ taken false (self.now.up || is_audit session.now.who) self.now.line }
    {
        if self.up || matches!(session.who, Who::Audit) {
            Reply::Empty
        } else {
            Reply::Closed
        }
    }

    /// The answer to what a session that is up may do.
    fn heard(&self) -> Reply
        ensures { result ≡ (if self.now.up then Done else Closed) }
    {
        if self.up { Reply::Done } else { Reply::Closed }
    }

    /// The line is given, if it waits and the audit asks.
    fn take(&mut self, session: &Session) -> Result<Reply, Memory>
        ensures { MatchResult result
            (λ r. (r ≡ reply_of (self.old.line, (self.old.waits, self.old.up)) (Take session.now))
            × ((self.new.line, (self.new.waits, self.new.up))
            ≡ next_of (self.old.line, (self.old.waits, self.old.up)) (Take session.now)))
            (λ _. self.new ≡ self.old) }
    {
        if !self.gives(session) {
            return Ok(self.no_line(session));
        }
        let message = self.line.copy()?;
        self.waits = false;
        Ok(Reply::Taken { message })
    }
}

impl Machine for Diary {
    ghost use Rattle.session_tests.specs.Diary.{idle, next, reply, stays};

    type Event = Event;

    type Reply = Reply;

    type State = (Bytes, (bool, bool));

    ghost meaning = { λ diary. (diary.line, (diary.waits, diary.up)) };

    ghost next = { next };

    ghost reply = { reply };

    ghost idle = { idle };

    ghost ready = { λ _. Unit {0} };

    ghost cost = { λ _ _. 0 };

    ghost most = { λ _ _. 0 };

    fn step<R: Threads + Sync, G: Ledger>(
        &mut self,
        _rt: &R,
        event: &Event,
        _steps: &mut Steps<G>,
    ) -> Result<Reply, Memory> {
        match event {
            Event::Up { .. } => {
                self.up = true;
                Ok(Reply::Opened { round: 1 })
            }
            Event::Msg { .. } => {
                self.waits = self.waits || self.up;
                Ok(self.heard())
            }
            Event::Gone { .. } => {
                let heard = self.heard();
                self.up = false;
                Ok(heard)
            }
            Event::Take { session } => self.take(session),
            Event::Tick { .. } => Ok(Reply::Done),
            Event::Policy { .. } => Ok(Reply::Closed),
        }
    }

    fn glance(&self, event: &Event) -> Option<Reply> {
        match event {
            Event::Msg { .. } | Event::Gone { .. } if !self.up => Some(Reply::Closed),
            Event::Take { session } if !self.gives(session) => Some(self.no_line(session)),
            Event::Tick { .. } => Some(Reply::Done),
            Event::Policy { .. } => Some(Reply::Closed),
            _ => None,
        }
    }

    // What is said waits while the line does, for a few turns.
    fn holds(&self, event: &Event, turns: u32) -> bool {
        matches!(event, Event::Msg { .. }) && self.waits && turns < 3
    }

    fn marks(&self) -> Marks {
        Marks {
            stirred: if self.waits { 1 << AUDIT } else { 0 },
            crowded: false,
        }
    }

    fn copy(&self) -> Result<Diary, Memory> {
        Ok(Diary {
            line: self.line.copy()?,
            waits: self.waits,
            up: self.up,
        })
    }

    fn copy_event(event: &Event) -> Result<Event, Memory> {
        event.copy()
    }

    ghost idle_stays = { stays };
}

/// The diary as a machine of sessions. It knows everyone.
#[derive(Clone, Copy, PartialEq, Eq, Debug)]
pub(crate) struct Diaries {}

impl Host for Diaries {
    ghost use Rattle.session_tests.specs.Diary.{goes, hears, opens, takes, ticks};

    type Machine = Diary;

    ghost knows = { λ _ _. Unit {0} };

    // Seconds are nothing to it.
    ghost is_at = { λ _ _. Unit {0} };

    fn post<R: Wait + Threads + Sync>(
        rt: &R,
        lock: &PolicyLock<Diary>,
        seat: &mut Seat<Diary>,
        event: Event,
    ) -> Result<Receipt<Reply>, Memory> {
        lock_desk::post(rt, lock, seat, event)
    }

    fn stirred(lock: &PolicyLock<Diary>) -> u64 {
        lock.stirred()
    }

    fn is_crowded(lock: &PolicyLock<Diary>) -> bool {
        lock.is_crowded()
    }

    ghost stays_known = { λ _ _ _ known. known };

    ghost opens = { λ d who arp _. opens d who arp };

    ghost hears = { λ d session frame _. hears d session frame };

    ghost goes = { goes };

    ghost ticks = { ticks };

    ghost told = { λ _ _ _. tt };

    ghost tells = { λ _ _ _. tt };

    ghost stays_told = { λ _ _ _ told. told };

    ghost earlier = { λ _ _ _ told _. told };

    ghost takes = { takes };
}
