//! The porter: one thread that hears those who come to a listen address, however they behave, and lets switches in.
ghost use Rattle.std.specs.Prelude.{◌≡◌, ◌<◌, length};

use crate::greeting::Greeting;
use crate::hold::Arrival;
use crate::limits::{ACCEPTS, BREATH};
use crate::lobby::{Lobby, Look};
use crate::opening::{Verdict, judged_switch};
use crate::readers::{Known, Readers};
use crate::settings::Settings;
use crate::sparing::Sparing;
use crate::tally::Tally;
use crate::telling::{tell_refused, tell_unserved};
use crate::tries::TryFault;
use crate::visitors::{Visitor, answer, host_of, read_some};
use cv_io::{Bytes, List};
use mio::unix::SourceFd;
use mio::{Events, Interest, Poll, Token};
use std::alloc::Global;
use std::io::{self, ErrorKind};
use std::net::{SocketAddr, TcpListener, TcpStream};
use std::os::fd::AsRawFd;
use std::sync::{Arc, Wait};
use std::time::{Clock, Duration};
use switch_arrivals::{MOST_STRANGERS, Newcomer, Stranger, Strangers};

/// How many bytes of a stranger are read at once.
pub(crate) const CHUNK: usize = 16_384;

/// How often the clock is looked at while strangers wait or a duel goes on, in milliseconds.
const BEAT: u64 = 250;

/// Whose events they are. Each has the porter look at all.
const LISTENER: Token = Token(0);

pub(crate) const WAKER: Token = Token(1);

const STRANGER: Token = Token(2);

pub(crate) const READER: Token = Token(3);

/// What came of the accepting.
#[derive(Clone, Copy, PartialEq, Eq)]
enum Door {
    /// Nobody else waits.
    Quiet,
    /// More may wait.
    Busy,
    /// The system lets nobody in, as without a descriptor.
    Shut,
}

/// What the porter has.
#[derive(Drop)]
pub(crate) struct Porter {
    pub(crate) alloc: Global,
    pub(crate) settings: Settings,
    pub(crate) listeners: List<TcpListener>,
    pub(crate) poll: Poll,
    pub(crate) events: Events<Global>,
    pub(crate) lobby: Arc<Lobby>,
    pub(crate) strangers: Strangers<Visitor>,
    pub(crate) dpids: List<u64>,
    pub(crate) place: Bytes,
    pub(crate) refusals: Sparing,
    pub(crate) refused: Tally,
    /// Who asks for the status page, if there is one.
    pub(crate) readers: Option<Readers>,
    /// When the porter began, in seconds since the start of 1970.
    pub(crate) began: u64,
    /// More than one turn may take waits to be accepted or read.
    pub(crate) is_busy: bool,
    /// The system let nobody in.
    pub(crate) is_shut: bool,
    /// It was told which endpoints aren't served.
    pub(crate) is_told: bool,
}

impl Porter {
    /// How long nothing has to be done, unless somebody comes.
    fn rest<R: Wait>(&self, rt: &R) -> Option<Duration> {
        if self.is_busy {
            return Some(Duration::ZERO);
        }
        if self.is_shut {
            return Some(Duration::from_millis(BREATH));
        }
        let has_guests = !self.strangers.as_slice().is_empty() || self.has_readers();
        if has_guests || !self.is_told || self.lobby.has_duel(rt) {
            return Some(Duration::from_millis(BEAT));
        }
        None
    }

    /// Whether anybody asks for the status page.
    fn has_readers(&self) -> bool {
        match &self.readers {
            Some(readers) => !readers.waiting.as_slice().is_empty(),
            None => false,
        }
    }

    /// Waits until somebody comes, or it is time. False where it can't.
    pub(crate) fn sleep<R: Wait>(&mut self, rt: &R) -> bool {
        let rest = self.rest(rt);
        self.poll.poll(&mut self.events, rest).is_ok()
    }

    /// All that is to be done now.
    pub(crate) fn turn<R: Clock + Wait + Eprint>(&mut self, rt: &R) {
        self.is_busy = false;
        if let Ok(dpids) = self.lobby.dpids(rt, self.alloc) {
            self.dpids = dpids;
        }
        self.take_over(rt);
        let door = self.accept_all(rt);
        self.is_shut = door == Door::Shut;
        self.hear_all(rt);
        self.is_busy = self.is_busy || door == Door::Busy;
        self.dismiss_late(rt);
        self.look_after(rt);
        self.answer_all(rt);
        self.tell_unserved(rt);
    }

    /// Tells once which endpoints no work serves yet, as where the system gives no thread for them.
    fn tell_unserved<R: Clock + Wait + Eprint>(&mut self, rt: &R) {
        if self.is_told || !self.lobby.is_settled(rt) {
            return;
        }
        self.is_told = true;
        let Ok(unserved) = self.lobby.unserved(rt, self.alloc) else {
            return;
        };
        for name in unserved.as_slice() {
            tell_unserved(rt, self.settings.level, *name);
        }
    }

    /// Answers those who ask for the status page.
    fn answer_all<R: Clock + Wait>(&mut self, rt: &R) {
        let Some(mut readers) = self.readers.take() else {
            return;
        };
        let known = Known {
            lobby: &self.lobby,
            began: self.began,
            strangers: self.strangers.as_slice().len(),
            refused: &self.refused,
        };
        let patience = u64::from(self.settings.handshake) * 1000;
        let into = self.place.as_mut_slice();
        let may_wait = readers.turn(rt, &self.poll, READER, patience, &known, into);
        self.is_busy = self.is_busy || may_wait;
        self.readers = Some(readers);
    }

    /// A peer is refused.
    fn refuse<R: Clock + Eprint>(&mut self, rt: &R, peer: SocketAddr, fault: &TryFault) {
        self.refused.count(fault.word());
        if let Some(times) = self.refusals.count(rt) {
            tell_refused(rt, self.settings.level, peer, fault, times);
        }
    }

    /// Takes listeners over. One that can't be is let go, so that nobody can connect to it.
    fn take_over<R: Wait>(&mut self, rt: &R) {
        let Some(listener) = self.lobby.take_over(rt) else {
            return;
        };
        let descriptor = listener.as_raw_fd();
        let mut source = SourceFd(&descriptor);
        let registered = self
            .poll
            .registry()
            .register(&mut source, LISTENER, Interest::READABLE);
        if registered.is_ok() {
            let _ = self.listeners.push(listener);
        }
    }

    /// Accepts those who wait at each listener.
    fn accept_all<R: Clock + Eprint>(&mut self, rt: &R) -> Door {
        let mut door = Door::Quiet;
        for place in 0..self.listeners.len() {
            match self.accept_some(rt, place) {
                Door::Quiet => {}
                other => door = other,
            }
        }
        door
    }

    /// Accepts one who waits at a listener.
    fn accept_one(&self, place: usize) -> io::Result<(TcpStream, SocketAddr)> {
        match self.listeners.get(place) {
            Some(listener) => listener.accept(),
            None => Err(io::Error::from(ErrorKind::WouldBlock)),
        }
    }

    /// Accepts those who wait at a listener.
    fn accept_some<R: Clock + Eprint>(&mut self, rt: &R, place: usize) -> Door {
        for _ in 0..ACCEPTS {
            match self.accept_one(place) {
                Ok((socket, peer)) => {
                    if let Err(fault) = self.admit(rt, socket, peer) {
                        self.refuse(rt, peer, &fault);
                    }
                }
                Err(fault) => {
                    return match fault.kind() {
                        ErrorKind::WouldBlock => Door::Quiet,
                        ErrorKind::Interrupted | ErrorKind::ConnectionAborted => Door::Busy,
                        _ => Door::Shut,
                    };
                }
            }
        }
        Door::Busy
    }

    /// A stranger comes; where there are many, another goes.
    fn admit<R: Clock + Eprint>(
        &mut self,
        rt: &R,
        socket: TcpStream,
        peer: SocketAddr,
    ) -> Result<(), TryFault> {
        socket.set_nonblocking(true)?;
        let descriptor = socket.as_raw_fd();
        self.poll
            .registry()
            .register(&mut SourceFd(&descriptor), STRANGER, Interest::READABLE)?;
        let newcomer = Stranger {
            host: host_of(&peer),
            since: self.lobby.now(rt),
            said: Bytes::new(self.alloc),
            told: 0,
            link: Visitor { socket, peer },
        };
        if let Some(ousted) = self.strangers.admit(newcomer)? {
            self.refuse(rt, ousted.stranger.link.peer, &TryFault::Crowd);
        }
        Ok(())
    }

    /// Hears each stranger: some go on waiting, some are let in or refused.
    fn hear_all<R: Clock + Wait + Eprint>(&mut self, rt: &R) {
        let mut place = 0;
        for _ in 0..MOST_STRANGERS {
            if place >= self.strangers.as_slice().len() {
                return;
            }
            match self.hear(rt, place) {
                Ok(None) => place += 1,
                Ok(Some(switch)) => {
                    let stranger = self.strangers.leave(place);
                    let peer = stranger.link.peer;
                    if let Err(fault) = self.let_in(rt, stranger, switch) {
                        self.refuse(rt, peer, &fault);
                    }
                }
                Err(fault) => {
                    let stranger = self.strangers.leave(place);
                    self.refuse(rt, stranger.link.peer, &fault);
                }
            }
        }
    }

    /// Hears what a stranger says, and answers. `Some` where it is the switch at this place.
    fn hear<R: Wait>(&mut self, rt: &R, place: usize) -> Result<Option<u32>, TryFault>
        requires { place < length self.old.strangers }
        ensures { length self.new.strangers ≡ length self.old.strangers }
    {
        let taken = read_some(
            &self.strangers.as_slice()[place].link.socket,
            self.place.as_mut_slice(),
        )?;
        self.is_busy = self.is_busy || taken == CHUNK;
        let Some(said) = self.place.as_slice().get(..taken) else {
            return Err(TryFault::Long);
        };
        if !self.strangers.hear(place, said)? {
            return Err(TryFault::Long);
        }
        let stranger = &self.strangers.as_slice()[place];
        if taken == 0 && stranger.told > 0 {
            return Ok(None);
        }
        if u32::try_from(self.dpids.len()).is_err() {
            return Err(TryFault::Memory);
        }
        let judged = judged_switch(rt, self.alloc, &self.dpids, &stranger.said)?;
        let told = answer(stranger, judged.answer.as_slice())?;
        self.strangers.tell(place, told);
        match judged.verdict {
            Verdict::More => Ok(None),
            Verdict::Open { peer } => Ok(Some(peer.switch)),
            Verdict::Refused { end } => Err(TryFault::Refused { end }),
        }
    }

    /// Lets a stranger in, who is the switch at this place.
    fn let_in<R: Clock + Wait + Eprint>(
        &mut self,
        rt: &R,
        stranger: Stranger<Visitor>,
        switch: u32,
    ) -> Result<(), TryFault> {
        let Stranger {
            host: _,
            since: _,
            said,
            told,
            link: Visitor { socket, peer },
        } = stranger;
        let descriptor = socket.as_raw_fd();
        self.poll.registry().deregister(&mut SourceFd(&descriptor))?;
        socket.set_nonblocking(false)?;
        let greeting = Greeting {
            read: said,
            sent: told,
        };
        let link = Arrival::new(rt, self.alloc, &self.settings, socket, peer, greeting)?;
        let life = Arc::try_clone(link.life())?;
        let overtaken = self
            .lobby
            .arrive(rt, switch as usize, Newcomer { life, link });
        if let Some(peer) = overtaken {
            self.refuse(rt, peer, &TryFault::Overtaken);
        }
        Ok(())
    }

    /// Refuses those who have not said in time which switch they are.
    fn dismiss_late<R: Clock + Eprint>(&mut self, rt: &R) {
        let now = self.lobby.now(rt);
        let patience = u64::from(self.settings.handshake) * 1000;
        for _ in 0..MOST_STRANGERS {
            let Some(place) = self.strangers.late(now, patience) else {
                return;
            };
            let stranger = self.strangers.leave(place);
            self.refuse(rt, stranger.link.peer, &TryFault::Late);
        }
    }

    /// Looks after the connections that are given.
    fn look_after<R: Clock + Wait + Eprint>(&mut self, rt: &R) {
        for place in 0..self.dpids.len() {
            match self.lobby.look(rt, place) {
                Look::Past => return,
                Look::Nothing => {}
                Look::Up { peer, dpid } => self.refuse(rt, peer, &TryFault::Up { dpid }),
            }
        }
    }
}
