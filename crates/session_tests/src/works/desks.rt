//! A desk whose passes keep what is posted, and hold what waits.
ghost use Rattle.std.specs.Prelude.{◌≡◌, ◌∷◌, ◌++◌, [], OnOk, OnErr};

use cv_io::{Bytes, List, Memory, Session, Who};
use endpoint_works::LaterDesk;
use events::{Event, Reply};
use sessions::{Desk, Heard, Post, Taken};
use std::alloc::Global;

#[derive(Drop)]
pub(crate) struct Log {
    pub(crate) posts: List<Post>,
    /// What waits for the session.
    pub(crate) waiting: List<Bytes>,
    /// How often nothing is found when nothing waits, before the session has ended.
    pub(crate) empties: u32,
}

impl Log {
    pub(crate) fn new(alloc: Global, empties: u32) -> Log {
        Log {
            posts: List::new(alloc),
            waiting: List::new(alloc),
            empties,
        }
    }

    /// A pass in whose session these wait.
    pub(crate) fn waiting(alloc: Global, messages: List<Bytes>, empties: u32) -> Log {
        Log {
            posts: List::new(alloc),
            waiting: messages,
            empties,
        }
    }

    fn keep(&mut self, event: Event, reply: Reply) -> Result<(), Memory>
        ensures kept { OnOk result (self.new.posts ≡ self.old.posts ++ record { event = event; reply = reply } ∷ []) }
        ensures memory { OnErr result (self.new.posts ≡ self.old.posts) }
    {
        self.posts.push(Post { event, reply })
    }
}

/// The posts, a letter each.
pub(crate) fn letters(alloc: Global, posts: &List<Post>) -> Result<Bytes, Memory> {
    let mut letters = Bytes::new(alloc);
    for post in posts.as_slice() {
        letters.push(match &post.event {
            Event::Up { .. } => b'u',
            Event::Msg { .. } => b'm',
            Event::Gone { .. } => b'g',
            Event::Tick { .. } => b't',
            Event::Take { .. } => b'k',
            Event::Policy { .. } => b'p',
        })?;
    }
    Ok(letters)
}

#[derive(Clone, Copy, Drop)]
pub(crate) struct Book {}

impl Desk for Book {
    ghost use Rattle.std.specs.Prelude.{⊤};

    type Pass = Log;

    ghost serves = { λ _ _. ⊤ };

    ghost admits = { λ _ _. ⊤ };

    ghost posts = { λ pass. pass.posts };

    ghost ended = { λ _ _ _. ⊤ };

    ghost waits = { λ _ _ _. ⊤ };

    ghost shows = { λ _ _. ⊤ };

    fn up(&self, pass: &mut Log, who: Who, arp: bool) -> Result<Session, Memory> {
        pass.keep(Event::Up { who, arp }, Reply::Opened { round: 1 })?;
        Ok(Session { who, round: 1 })
    }

    fn hear(&self, pass: &mut Log, session: &Session, frame: Bytes) -> Result<Heard, Memory> {
        let event = Event::Msg {
            session: *session,
            frame,
        };
        pass.keep(event, Reply::Done)?;
        Ok(Heard::Heard)
    }

    fn gone(&self, pass: &mut Log, session: &Session) -> Result<Heard, Memory> {
        pass.keep(Event::Gone { session: *session }, Reply::Done)?;
        Ok(Heard::Heard)
    }

    fn tick(&self, pass: &mut Log, second: u64) -> Result<(), Memory> {
        pass.keep(Event::Tick { second }, Reply::Done)
    }

    fn take(&self, pass: &mut Log, session: &Session) -> Result<Taken, Memory> {
        if !pass.waiting.is_empty() {
            let message = pass.waiting.remove(0);
            let told = message.copied()?;
            pass.keep(
                Event::Take { session: *session },
                Reply::Taken { message: told },
            )?;
            return Ok(Taken::Message(message));
        }
        if pass.empties > 0 {
            pass.empties -= 1;
            return Ok(Taken::Empty { at: 3 });
        }
        Ok(Taken::Closed { at: 7 })
    }

    ghost earlier = { λ _ _ _ shown _. shown };
}

impl LaterDesk for Book {
    ghost use Rattle.std.specs.Prelude.{⊤};

    ghost later = { λ _ _. ⊤ };

    fn from_here(&self, _pass: &Log) -> Book {
        Book {}
    }
}
