//! What gives the connections of one endpoint.
use crate::accept_dial::AcceptDial;
use crate::hold::Sides;
use crate::member_dial::MemberDial;
use crate::sink::TcpSink;
use crate::source::TcpSource;
use crate::switch_dial::SwitchDial;
use crate::tries::TryFault;
use outside::{Dial, Failed};
use std::net::{Net, TcpListener, TcpStream};
use std::sync::Wait;
use std::time::Clock;

/// How connections are had.
#[derive(Drop)]
pub(crate) enum Way<'a, R> {
    /// By connecting to an address.
    Connect { dial: MemberDial<'a, R> },
    /// By accepting those that are made to us.
    Accept { dial: AcceptDial<'a, R> },
    /// As the porter lets switches in.
    Switch { dial: SwitchDial<'a, R> },
}

impl<'a, R: Net<Listener = TcpListener, Stream = TcpStream> + Clock + Wait + Eprint> Way<'a, R> {
    fn next(&mut self) -> Result<Option<Sides<'a, R>>, TryFault> {
        match self {
            Way::Connect { dial } => dial.next(),
            Way::Accept { dial } => Ok(dial.next()),
            Way::Switch { dial } => dial.next(),
        }
    }
}

/// The connections of one endpoint, at most as many as it has rounds.
#[derive(Drop)]
pub struct TcpDial<'a, R> {
    pub(crate) way: Way<'a, R>,
    pub(crate) faults: u64,
}

impl<'a, R: Net<Listener = TcpListener, Stream = TcpStream> + Clock + Wait + Eprint + Sync> Dial
    for TcpDial<'a, R> {
    ghost use Rattle.std.specs.Prelude.{None, false};

    type In = TcpSource<'a, R>;

    type Out = TcpSink<'a, R>;

    ghost left = { λ _. None };

    ghost faults = { λ d. d.faults };

    ghost is_reliable = { λ _. false };

    fn next(&mut self) -> Result<Option<(TcpSource<'a, R>, TcpSink<'a, R>)>, Failed> {
        match self.way.next() {
            Ok(next) => Ok(next),
            Err(_) => {
                self.faults = self.faults.saturating_add(1);
                Err(Failed)
            }
        }
    }
}
