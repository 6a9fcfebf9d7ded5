//! A desk whose passes keep the calls, and hold the answers.
ghost use Rattle.std.specs.Prelude.{◌≡◌, ◌∷◌, ◌++◌, [], OnOk, OnErr};

use cv_io::{Bytes, List, Memory, Session, Who};
use events::{Event, Reply};
use sessions::{Desk, Heard, Post, Taken};
use std::alloc::Global;

#[derive(Clone, Copy, PartialEq, Eq, Debug)]
pub(crate) enum Call {
    Up,
    Hear,
    Gone,
    Tick(u64),
    Take,
}

#[derive(Drop)]
pub(crate) struct Log {
    pub(crate) posts: List<Post>,
    pub(crate) calls: List<Call>,
    /// How many frames are heard. Those that come later find the session ended, at 7.
    pub(crate) hears: u32,
    /// What waits for the session.
    pub(crate) waiting: List<Bytes>,
    /// How often nothing is found when nothing waits, before the session has ended, at 7.
    pub(crate) empties: u32,
}

pub(crate) const SESSION: Session = Session {
    who: Who::Member(0),
    round: 1,
};

impl Log {
    pub(crate) fn new(alloc: Global, hears: u32, empties: u32) -> Log {
        Log {
            posts: List::new(alloc),
            calls: List::new(alloc),
            hears,
            waiting: List::new(alloc),
            empties,
        }
    }

    /// A pass in whose session these wait, until it ends at 7.
    pub(crate) fn waiting(alloc: Global, messages: List<Bytes>) -> Log {
        Log {
            posts: List::new(alloc),
            calls: List::new(alloc),
            hears: 0,
            waiting: messages,
            empties: 0,
        }
    }

    pub(crate) fn into_calls(self) -> List<Call> {
        self.calls
    }

    // Keeps a post.
    fn keep(&mut self, event: Event, reply: Reply) -> Result<(), Memory>
        ensures kept { OnOk result (self.new.posts ≡ self.old.posts ++ record { event = event; reply = reply } ∷ []) }
        ensures memory { OnErr result (self.new.posts ≡ self.old.posts) }
    {
        self.posts.push(Post { event, reply })
    }
}

#[derive(Clone, Copy)]
pub(crate) struct Book {}

impl Desk for Book {
    ghost use Rattle.std.specs.Prelude.{⊤};

    type Pass = Log;

    ghost serves = { λ _ _. ⊤ };

    ghost admits = { λ _ _. ⊤ };

    ghost posts = { λ pass. pass.posts };

    ghost ended = { λ _ _ _. ⊤ };

    ghost waits = { λ _ _ _. ⊤ };

    ghost shows = { λ _ _. ⊤ };

    fn up(&self, pass: &mut Log, who: Who, arp: bool) -> Result<Session, Memory> {
        pass.calls.push(Call::Up)?;
        pass.keep(Event::Up { who, arp }, Reply::Opened { round: 1 })?;
        Ok(Session { who, round: 1 })
    }

    fn hear(&self, pass: &mut Log, session: &Session, frame: Bytes) -> Result<Heard, Memory> {
        pass.calls.push(Call::Hear)?;
        if pass.hears == 0 {
            return Ok(Heard::Closed { at: 7 });
        }
        pass.hears -= 1;
        let event = Event::Msg {
            session: *session,
            frame,
        };
        pass.keep(event, Reply::Done)?;
        Ok(Heard::Heard)
    }

    fn gone(&self, pass: &mut Log, session: &Session) -> Result<Heard, Memory> {
        pass.calls.push(Call::Gone)?;
        pass.keep(Event::Gone { session: *session }, Reply::Done)?;
        Ok(Heard::Heard)
    }

    fn tick(&self, pass: &mut Log, second: u64) -> Result<(), Memory> {
        pass.calls.push(Call::Tick(second))?;
        pass.keep(Event::Tick { second }, Reply::Done)
    }

    fn take(&self, pass: &mut Log, session: &Session) -> Result<Taken, Memory> {
        pass.calls.push(Call::Take)?;
        if !pass.waiting.is_empty() {
            let message = pass.waiting.remove(0);
            let told = message.copied()?;
            pass.keep(
                Event::Take { session: *session },
                Reply::Taken { message: told },
            )?;
            return Ok(Taken::Message(message));
        }
        if pass.empties > 0 {
            pass.empties -= 1;
            return Ok(Taken::Empty { at: 3 });
        }
        Ok(Taken::Closed { at: 7 })
    }

    ghost earlier = { λ _ _ _ shown _. shown };
}
