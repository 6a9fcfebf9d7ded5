//! Connections to an address, which are greeted before they are given.
use crate::account::Account;
use crate::greeting::{Guest, greet};
use crate::hold::{Sides, give};
use crate::limits::{CONNECT, PAUSE, TOLD};
use crate::pauses::Pauses;
use crate::settings::Settings;
use crate::sparing::Sparing;
use crate::telling::tell_tried;
use crate::tries::TryFault;
use cv_io::Text;
use std::alloc::Global;
use std::io::{self, ErrorKind};
use std::net::{Net, SocketAddr, TcpListener, TcpStream, ToSocketAddrs};
use std::sync::Wait;
use std::thread;
use std::time::{Clock, Duration, Instant};

/// The connections to the address of an endpoint. A try that fails is made again a second later and is no round; only
/// an address that can't be one is a fault.
#[derive(Drop)]
pub(crate) struct MemberDial<'a, R> {
    pub(crate) rt: &'a R,
    pub(crate) alloc: Global,
    pub(crate) settings: Settings,
    pub(crate) account: Account,
    pub(crate) guest: Guest,
    pub(crate) address: Text,
    pub(crate) pauses: Pauses,
    /// When the last connection was given.
    pub(crate) given: Option<Instant>,
}

impl<'a, R: Net<Listener = TcpListener, Stream = TcpStream> + Clock + Wait + Eprint> MemberDial<
    'a,
    R,
> {
    /// The next connection, if a round is left.
    pub(crate) fn next(&mut self) -> Result<Option<Sides<'a, R>>, TryFault> {
        self.account.begin(self.rt);
        if self.account.rounds.left == 0 {
            return Ok(None);
        }
        self.pause();
        let sides = self.connection()?;
        self.account
            .spend(self.rt, self.settings.level, &sides.0.hold.life);
        self.given = Instant::now(self.rt).ok();
        Ok(Some(sides))
    }

    /// Tries until there is a connection. Only an address that can't be one ends it without.
    fn connection(&self) -> Result<Sides<'a, R>, TryFault> {
        let mut tries = Sparing::new(1, TOLD);
        for _ in self.rt.forever() {
            match self.attempt() {
                Ok(sides) => return Ok(sides),
                Err(TryFault::Address) => return Err(TryFault::Address),
                Err(fault) => self.failed(&mut tries, &fault),
            }
        }
        unreachable!()
    }

    /// Pauses after the last connection, by how long it lasted.
    fn pause(&mut self) {
        let Some(given) = self.given else {
            return;
        };
        let lasted = match given.elapsed(self.rt) {
            Ok(passed) => passed.as_secs(),
            Err(_) => 0,
        };
        self.pauses = self.pauses.after(lasted);
        thread::sleep(self.rt, Duration::from_secs(self.pauses.seconds));
    }

    /// One try.
    fn attempt(&self) -> Result<Sides<'a, R>, TryFault> {
        let (socket, peer) = connect(self.rt, &self.address)?;
        let greeting = greet(
            self.rt,
            self.alloc,
            self.guest,
            &socket,
            self.settings.handshake,
        )?;
        Ok(give(
            self.rt,
            self.alloc,
            &self.settings,
            self.account.name,
            socket,
            peer,
            greeting,
        )?)
    }

    /// A try came to nothing: it is told, and the next one waits.
    fn failed(&self, tries: &mut Sparing, fault: &TryFault) {
        if let Some(times) = tries.count(self.rt) {
            tell_tried(
                self.rt,
                self.settings.level,
                self.account.name,
                &self.address,
                fault,
                times,
            );
        }
        thread::sleep(self.rt, Duration::from_secs(PAUSE));
    }
}

/// Connects to an address.
fn connect<R: Net<Listener = TcpListener, Stream = TcpStream>>(
    rt: &R,
    address: &Text,
) -> Result<(TcpStream, SocketAddr), TryFault> {
    let Ok(name) = str::from_utf8(address.as_bytes()) else {
        return Err(TryFault::Address);
    };
    match first_answering(rt, name) {
        Ok(answering) => Ok(answering),
        Err(fault) if fault.kind() == ErrorKind::InvalidInput => Err(TryFault::Address),
        Err(fault) => Err(TryFault::System { fault }),
    }
}

/// Connects to the first address of a name that answers in time.
fn first_answering<R: Net<Listener = TcpListener, Stream = TcpStream>, A: ToSocketAddrs>(
    rt: &R,
    name: A,
) -> io::Result<(TcpStream, SocketAddr)> {
    let mut last = io::Error::from(ErrorKind::NotFound);
    for peer in name.to_socket_addrs(rt)? {
        match TcpStream::connect_timeout(rt, &peer, Duration::from_secs(CONNECT)) {
            Ok(socket) => return Ok((socket, peer)),
            Err(fault) => last = fault,
        }
    }
    Err(last)
}
