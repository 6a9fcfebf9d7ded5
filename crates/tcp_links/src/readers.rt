//! Who asks for the status page: read and answered by calls that don't wait, and bounded as strangers are.
ghost use Rattle.std.specs.Prelude.{◌≡◌, ◌<◌, length};

use crate::limits::{ACCEPTS, ASKED};
use crate::lobby::Lobby;
use crate::options::widen;
use crate::tally::Tally;
use crate::tries::TryFault;
use crate::visitors::{Visitor, host_of, read_some, write_some};
use cv_io::{Bytes, Memory, Text};
use mio::unix::SourceFd;
use mio::{Interest, Poll, Token};
use status_page::{Heard, Request, Status, answer, fault, hear};
use std::alloc::Global;
use std::io;
use std::net::{Net, SocketAddr, TcpListener, TcpStream};
use std::os::fd::AsRawFd;
use std::sync::Wait;
use std::time::Clock;
use switch_arrivals::{MOST_STRANGERS, Stranger, Strangers};

/// What a reader asks for.
#[derive(Clone, Copy, PartialEq, Eq)]
pub(crate) enum Question {
    /// Nothing that is a request.
    Fault,
    /// This.
    Asks { request: Request },
}

/// What is known of all.
#[derive(Clone, Copy)]
pub(crate) struct Known<'a> {
    pub(crate) lobby: &'a Lobby,
    /// When the porter began, in seconds since the start of 1970.
    pub(crate) began: u64,
    pub(crate) strangers: usize,
    pub(crate) refused: &'a Tally,
}

impl Known<'_> {
    /// As the status page shows it.
    fn status<R: Clock + Wait>(&self, rt: &R, alloc: Global) -> Result<Status, Memory> {
        Ok(Status {
            began: self.began,
            seconds: self.lobby.now(rt) / 1000,
            endpoints: self.lobby.shown(rt, alloc)?,
            strangers: self.strangers as u64,
            refused: self.refused.copy()?,
        })
    }

    /// The answer to a question.
    fn answer<R: Clock + Wait>(
        &self,
        rt: &R,
        alloc: Global,
        question: Question,
    ) -> Result<Text, Memory> {
        match question {
            Question::Fault => fault(alloc),
            Question::Asks { request } => answer(alloc, request, &self.status(rt, alloc)?),
        }
    }
}

/// Who asks for the status page, and where they come.
#[derive(Drop)]
pub(crate) struct Readers {
    alloc: Global,
    listener: TcpListener,
    pub(crate) waiting: Strangers<Visitor>,
}

impl Readers {
    /// Listens at an address; the poll wakes for it by this token.
    pub(crate) fn open<R: Net<Listener = TcpListener, Stream = TcpStream>>(
        rt: &R,
        alloc: Global,
        poll: &Poll,
        token: Token,
        address: SocketAddr,
    ) -> io::Result<Readers> {
        let listener = TcpListener::bind(rt, address)?;
        listener.set_nonblocking(true)?;
        let descriptor = listener.as_raw_fd();
        poll.registry()
            .register(&mut SourceFd(&descriptor), token, Interest::READABLE)?;
        Ok(Readers {
            alloc,
            listener,
            waiting: Strangers::new(alloc),
        })
    }

    /// Accepts those who wait. Tells whether more may wait.
    fn accept_some(&mut self, poll: &Poll, token: Token, now: u64) -> bool {
        for _ in 0..ACCEPTS {
            let Ok((socket, peer)) = self.listener.accept() else {
                return false;
            };
            let _ = self.admit(poll, token, socket, peer, now);
        }
        true
    }

    /// A reader comes; where there are many, another goes.
    fn admit(
        &mut self,
        poll: &Poll,
        token: Token,
        socket: TcpStream,
        peer: SocketAddr,
        now: u64,
    ) -> Result<(), TryFault> {
        socket.set_nonblocking(true)?;
        widen(&socket)?;
        let descriptor = socket.as_raw_fd();
        poll.registry()
            .register(&mut SourceFd(&descriptor), token, Interest::READABLE)?;
        let _ = self.waiting.admit(Stranger {
            host: host_of(&peer),
            since: now,
            said: Bytes::new(self.alloc),
            told: 0,
            link: Visitor { socket, peer },
        })?;
        Ok(())
    }

    /// Hears what the reader at a place says. `Some` where it has said all that it asks.
    fn hear(&mut self, place: usize, into: &mut [u8]) -> Result<Option<Question>, TryFault>
        requires { place < length self.old.waiting }
        ensures { length self.new.waiting ≡ length self.old.waiting }
    {
        let taken = read_some(&self.waiting.as_slice()[place].link.socket, into)?;
        if taken == 0 {
            return Ok(None);
        }
        let Some(said) = into.get(..taken) else {
            return Err(TryFault::Long);
        };
        if !self.waiting.hear(place, said)? {
            return Err(TryFault::Long);
        }
        let said = &self.waiting.as_slice()[place].said;
        match hear(said.as_slice()) {
            Heard::More if said.len() < ASKED => Ok(None),
            Heard::More | Heard::Fault => Ok(Some(Question::Fault)),
            Heard::Asks { request } => Ok(Some(Question::Asks { request })),
        }
    }

    /// The next reader from a place on that has said all that it asks, who is taken out. Those who broke off go too.
    fn next(
        &mut self,
        from: usize,
        into: &mut [u8],
    ) -> Option<(usize, Stranger<Visitor>, Question)> {
        let mut place = from;
        for _ in 0..MOST_STRANGERS {
            if place >= self.waiting.as_slice().len() {
                return None;
            }
            match self.hear(place, into) {
                Ok(None) => place += 1,
                Ok(Some(question)) => {
                    return Some((place, self.waiting.leave(place), question));
                }
                Err(_) => {
                    let _ = self.waiting.leave(place);
                }
            }
        }
        None
    }

    /// Accepts and hears all, and answers those who have asked. Tells whether more may wait.
    pub(crate) fn turn<R: Clock + Wait>(
        &mut self,
        rt: &R,
        poll: &Poll,
        token: Token,
        patience: u64,
        known: &Known<'_>,
        into: &mut [u8],
    ) -> bool {
        let now = known.lobby.now(rt);
        let may_wait = self.accept_some(poll, token, now);
        let mut from = 0;
        for _ in 0..MOST_STRANGERS {
            let Some((place, reader, question)) = self.next(from, into) else {
                break;
            };
            from = place;
            if let Ok(text) = known.answer(rt, self.alloc, question) {
                // what the socket has no room for is lost, and the reader sees that
                let _ = write_some(&reader.link.socket, text.as_bytes());
            }
        }
        self.dismiss_late(now, patience);
        may_wait
    }

    /// Lets those go who haven't asked in time.
    fn dismiss_late(&mut self, now: u64, patience: u64) {
        for _ in 0..MOST_STRANGERS {
            let Some(place) = self.waiting.late(now, patience) else {
                return;
            };
            let _ = self.waiting.leave(place);
        }
    }
}
