//! TCP, as what endpoints are dialled by.
ghost use Rattle.std.specs.Prelude.{◌≡◌};

use crate::accept_dial::AcceptDial;
use crate::account::Account;
use crate::dial::{TcpDial, Way};
use crate::greeting::Guest;
use crate::limits::{BINDS, PAUSE, REFUSALS};
use crate::lobby::Lobby;
use crate::member_dial::MemberDial;
use crate::names::EndpointName;
use crate::pauses::Pauses;
use crate::reception::{Reception, start};
use crate::rounds::Rounds;
use crate::seats::Seat;
use crate::settings::Settings;
use crate::sparing::Sparing;
use crate::switch_dial::SwitchDial;
use crate::telling::{tell_deaf, tell_listening};
use crate::tries::TryFault;
use cv_io::{Duplicate, List, Memory, Text};
use outside::{Endpoint, Failed, Links};
use std::alloc::Global;
use std::io::{self, ErrorKind};
use std::net::{Net, TcpListener, TcpStream};
use std::sync::{Arc, Wait};
use std::thread::{self, Threads};
use std::time::{Clock, Duration};

/// An address at which switches come, and whether they are heard there.
#[derive(Drop)]
struct Receiving {
    address: Text,
    is_heard: bool,
}

/// TCP. The endpoints of switches share one thread that lets switches in, and those of one listen address one listener.
#[derive(Drop)]
pub struct TcpLinks<'a, R> {
    rt: &'a R,
    alloc: Global,
    settings: Settings,
    receiving: List<Receiving>,
    reception: Option<Reception>,
    faults: u64,
}

impl<'a, R> TcpLinks<'a, R> {
    /// Links by which no switch can be dialled.
    pub fn new(rt: &'a R, alloc: Global, settings: Settings) -> Self
        ensures { result.faults ≡ 0 }
    {
        TcpLinks {
            rt,
            alloc,
            settings,
            receiving: List::new(alloc),
            reception: None,
            faults: 0,
        }
    }
}

impl<
    'a,
    R: Net<Listener = TcpListener, Stream = TcpStream>
        + Threads
        + Clock
        + Wait
        + Eprint
        + Clone
        + Drop
        + Send
        + 'static,
> TcpLinks<'a, R> {
    /// Links that switches may be dialled by: a thread starts that lets them in, which [`TcpLinks::close`] ends. Where
    /// none can be had each dial of a switch fails.
    pub fn open(rt: &'a R, alloc: Global, settings: Settings) -> Self
        ensures { result.faults ≡ 0 }
    {
        let mut links = TcpLinks::new(rt, alloc, settings);
        links.reception = start(rt, alloc, settings).ok();
        links
    }
}

impl<'a, R: Net<Listener = TcpListener, Stream = TcpStream> + Clock + Wait + Eprint> TcpLinks<
    'a,
    R,
> {
    /// How the connections of an endpoint are had.
    fn way(&mut self, end: &Endpoint) -> io::Result<Way<'a, R>>
        ensures { self.new.faults ≡ self.old.faults }
    {
        let name = EndpointName::of(end);
        match end {
            Endpoint::Member {
                address,
                rounds,
                ..
            } => {
                let account = self.account(name, address, *rounds);
                self.connecting(account, Guest::Controller, address)
            }
            Endpoint::Standby { address, rounds } => {
                let account = self.account(name, address, *rounds);
                self.connecting(account, Guest::Proxy, address)
            }
            Endpoint::Switch {
                listen,
                rounds,
                dpid,
                ..
            } => {
                let account = self.account(name, listen, *rounds);
                self.receiving(account, listen, *dpid)
            }
            Endpoint::Lead { listen } => {
                let account = self.account(name, listen, 1);
                self.accepting(account, listen)
            }
        }
    }

    /// The account of an endpoint, of which the porter knows where there is one.
    fn account(&self, name: EndpointName, address: &Text, rounds: u32) -> Account {
        let rounds = Rounds::new(rounds);
        let seat = self.seat(name, address, rounds).ok();
        Account { name, rounds, seat }
    }

    /// What the porter knows of an endpoint.
    fn seat(
        &self,
        name: EndpointName,
        address: &Text,
        rounds: Rounds,
    ) -> Result<Arc<Seat>, TryFault> {
        let lobby = self.lobby()?;
        let Ok(seat) = Arc::new(self.alloc, Seat::new(name, address, rounds)?) else {
            return Err(TryFault::Memory);
        };
        lobby.show(self.rt, Arc::try_clone(&seat)?)?;
        Ok(seat)
    }

    fn connecting(&self, account: Account, guest: Guest, address: &Text) -> io::Result<Way<'a, R>> {
        let Ok(address) = address.copy() else {
            return Err(io::Error::from(ErrorKind::OutOfMemory));
        };
        Ok(Way::Connect {
            dial: MemberDial {
                rt: self.rt,
                alloc: self.alloc,
                settings: self.settings,
                account,
                guest,
                address,
                pauses: Pauses::new(),
                given: None,
            },
        })
    }

    fn accepting(&self, account: Account, listen: &Text) -> io::Result<Way<'a, R>> {
        let Some(listener) = bind(self.rt, &self.settings, listen) else {
            return Err(io::Error::from(ErrorKind::AddrInUse));
        };
        Ok(Way::Accept {
            dial: AcceptDial {
                rt: self.rt,
                alloc: self.alloc,
                settings: self.settings,
                account,
                listener,
                refusals: Sparing::new(REFUSALS, 1),
            },
        })
    }

    /// Whether switches are heard at an address, which is listened at from the first call on.
    fn is_heard(&mut self, lobby: &Lobby, address: &Text) -> Result<bool, Memory>
        ensures { self.new.faults ≡ self.old.faults }
    {
        for receiving in self.receiving.as_slice() {
            if receiving.address == *address {
                return Ok(receiving.is_heard);
            }
        }
        let kept = address.copy()?;
        let is_heard = match bind(self.rt, &self.settings, address) {
            Some(listener) => listener.set_nonblocking(true).is_ok()
                && lobby.hand(self.rt, listener).is_ok(),
            None => false,
        };
        self.receiving.push(Receiving {
            address: kept,
            is_heard,
        })?;
        Ok(is_heard)
    }

    /// The lobby, where there is one.
    fn lobby(&self) -> io::Result<Arc<Lobby>> {
        match &self.reception {
            Some(reception) => Ok(Arc::try_clone(&reception.lobby)?),
            None => Err(io::Error::from(ErrorKind::OutOfMemory)),
        }
    }

    /// The lobby, for one more endpoint: the switch of this datapath id may come.
    fn lobby_of(&mut self, address: &Text, dpid: u64) -> io::Result<Arc<Lobby>>
        ensures { self.new.faults ≡ self.old.faults }
    {
        let lobby = self.lobby()?;
        match self.is_heard(&lobby, address) {
            Ok(true) => {}
            Ok(false) => return Err(io::Error::from(ErrorKind::AddrInUse)),
            Err(Memory) => return Err(io::Error::from(ErrorKind::OutOfMemory)),
        }
        match lobby.know(self.rt, dpid) {
            Ok(()) => Ok(lobby),
            Err(Memory) => Err(io::Error::from(ErrorKind::OutOfMemory)),
        }
    }

    fn receiving(&mut self, account: Account, listen: &Text, dpid: u64) -> io::Result<Way<'a, R>>
        ensures { self.new.faults ≡ self.old.faults }
    {
        let lobby = self.lobby_of(listen, dpid)?;
        Ok(Way::Switch {
            dial: SwitchDial {
                rt: self.rt,
                alloc: self.alloc,
                settings: self.settings,
                account,
                lobby,
            },
        })
    }
}

impl<R: Threads + Wait> TcpLinks<'_, R> {
    /// Nobody is let in any more. Waits for the thread that let switches in, if there is one.
    pub fn close(&mut self) {
        let Some(reception) = self.reception.take() else {
            return;
        };
        let Reception { lobby, porter } = reception;
        lobby.close(self.rt);
        porter.join(self.rt);
    }
}

/// Listens at an address. Where it can't be had another process may be about to let it go: it is tried for a while.
fn bind<R: Net<Listener = TcpListener, Stream = TcpStream> + Clock + Eprint>(
    rt: &R,
    settings: &Settings,
    address: &Text,
) -> Option<TcpListener> {
    let Ok(at) = str::from_utf8(address.as_bytes()) else {
        return None;
    };
    for tries in 0..BINDS {
        match TcpListener::bind(rt, at) {
            Ok(listener) => {
                tell_listening(rt, settings.level, address);
                return Some(listener);
            }
            Err(fault) if fault.kind() == ErrorKind::InvalidInput => {
                tell_deaf(rt, settings.level, address, &fault);
                return None;
            }
            Err(fault) => {
                if tries == 0 {
                    tell_deaf(rt, settings.level, address, &fault);
                }
                thread::sleep(rt, Duration::from_secs(PAUSE));
            }
        }
    }
    None
}

impl<'a, R: Net<Listener = TcpListener, Stream = TcpStream> + Clock + Wait + Eprint + Sync> Links
    for TcpLinks<'a, R> {
    ghost use Rattle.std.specs.Prelude.{None, false};

    type Dial = TcpDial<'a, R>;

    ghost told = { λ _ _. None };

    ghost is_reliable = { λ _ _. false };

    ghost faults = { λ l. l.faults };

    fn dial(&mut self, end: &Endpoint) -> Result<TcpDial<'a, R>, Failed> {
        match self.way(end) {
            Ok(way) => Ok(TcpDial { way, faults: 0 }),
            Err(_) => {
                self.faults = self.faults.saturating_add(1);
                Err(Failed)
            }
        }
    }
}
