//! Connections that are made to us, each greeted before it is given.
use crate::account::Account;
use crate::greeting::{Guest, greet};
use crate::hold::{Sides, give};
use crate::limits::BREATH;
use crate::settings::Settings;
use crate::sparing::Sparing;
use crate::telling::tell_refused;
use crate::tries::TryFault;
use std::alloc::Global;
use std::net::{SocketAddr, TcpListener, TcpStream};
use std::sync::Wait;
use std::thread;
use std::time::{Clock, Duration};

/// The connections that are made to an endpoint's address. One that doesn't greet in time is refused and is no round.
#[derive(Drop)]
pub(crate) struct AcceptDial<'a, R> {
    pub(crate) rt: &'a R,
    pub(crate) alloc: Global,
    pub(crate) settings: Settings,
    pub(crate) account: Account,
    pub(crate) listener: TcpListener,
    pub(crate) refusals: Sparing,
}

impl<'a, R: Clock + Wait + Eprint> AcceptDial<'a, R> {
    /// The next connection, if a round is left.
    pub(crate) fn next(&mut self) -> Option<Sides<'a, R>> {
        self.account.begin(self.rt);
        if self.account.rounds.left == 0 {
            return None;
        }
        let sides = self.connection();
        self.account
            .spend(self.rt, self.settings.level, &sides.0.hold.life);
        Some(sides)
    }

    /// Accepts until a peer has greeted.
    fn connection(&mut self) -> Sides<'a, R> {
        for _ in self.rt.forever() {
            match self.listener.accept() {
                Ok((socket, peer)) => match self.greeted(socket, peer) {
                    Ok(sides) => return sides,
                    Err(fault) => self.refused(peer, &fault),
                },
                Err(_) => thread::sleep(self.rt, Duration::from_millis(BREATH)),
            }
        }
        unreachable!()
    }

    /// A peer is refused.
    fn refused(&mut self, peer: SocketAddr, fault: &TryFault) {
        if let Some(times) = self.refusals.count(self.rt) {
            tell_refused(self.rt, self.settings.level, peer, fault, times);
        }
    }

    /// Greets the peer of a connection.
    fn greeted(&self, socket: TcpStream, peer: SocketAddr) -> Result<Sides<'a, R>, TryFault> {
        let greeting = greet(
            self.rt,
            self.alloc,
            Guest::Proxy,
            &socket,
            self.settings.handshake,
        )?;
        Ok(give(
            self.rt,
            self.alloc,
            &self.settings,
            self.account.name,
            socket,
            peer,
            greeting,
        )?)
    }
}
