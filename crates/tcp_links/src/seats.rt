//! What the porter knows of each endpoint, and the status page shows.
use crate::life::Life;
use crate::names::EndpointName;
use crate::rounds::Rounds;
use cv_io::{Bytes, Duplicate, Memory, Text};
use status_page::{EndpointStatus, State};
use std::alloc::Global;
use std::fmt::Display;
use std::sync::{Arc, Mutex, Wait};
use std::time::Clock;

/// What is kept of the connections of an endpoint.
#[derive(Drop)]
struct Kept {
    /// A work has asked for the first one.
    is_served: bool,
    rounds: Rounds,
    /// The last that was given.
    life: Option<Arc<Life>>,
    /// How many bytes were read of those before it, and written.
    read: u64,
    written: u64,
}

/// An endpoint, as its dial and the porter share it. Its lock is held for a few words.
#[derive(Drop)]
pub(crate) struct Seat {
    pub(crate) name: EndpointName,
    address: Text,
    kept: Mutex<Kept>,
}

/// What is shown as a text; what isn't ASCII is left out.
pub(crate) fn shown<D: Display>(alloc: Global, value: &D) -> Result<Text, Memory> {
    let printed = format!(in alloc; "{value}")?;
    let mut text = Text::new(alloc);
    for byte in printed.as_bytes() {
        if *byte < 128 {
            text.push(*byte)?;
        }
    }
    Ok(text)
}

impl Kept {
    /// The bytes that were read of all connections, and written.
    fn bytes(&self) -> (u64, u64) {
        match &self.life {
            Some(life) => (
                self.read.saturating_add(life.read()),
                self.written.saturating_add(life.written()),
            ),
            None => (self.read, self.written),
        }
    }

    /// How the endpoint is.
    fn state<R: Clock>(&self, rt: &R, alloc: Global) -> Result<State, Memory> {
        match &self.life {
            Some(life) if !life.is_over() => Ok(State::Up {
                peer: shown(alloc, &life.peer())?,
                seconds: life.lasted(rt) / 1000,
            }),
            _ if self.rounds.left == 0 => Ok(State::Spent),
            _ => Ok(State::Waiting),
        }
    }
}

impl Seat {
    /// An endpoint that has had no connection yet.
    pub(crate) fn new(name: EndpointName, address: &Text, rounds: Rounds) -> Result<Seat, Memory> {
        Ok(Seat {
            name,
            address: address.copy()?,
            kept: Mutex::new(Kept {
                is_served: false,
                rounds,
                life: None,
                read: 0,
                written: 0,
            }),
        })
    }

    /// A work serves it from here on.
    pub(crate) fn begin<R: Wait>(&self, rt: &R) {
        let mut kept = self.kept.lock(rt);
        kept.is_served = true;
    }

    /// Whether a work serves it, or did.
    pub(crate) fn is_served<R: Wait>(&self, rt: &R) -> bool {
        self.kept.lock(rt).is_served
    }

    /// It has a connection more.
    pub(crate) fn give<R: Wait>(&self, rt: &R, life: &Arc<Life>, rounds: Rounds) {
        let mut kept = self.kept.lock(rt);
        let (read, written) = kept.bytes();
        kept.read = read;
        kept.written = written;
        kept.rounds = rounds;
        kept.life = Arc::try_clone(life).ok();
    }

    /// What is shown of it.
    pub(crate) fn status<R: Clock + Wait>(
        &self,
        rt: &R,
        alloc: Global,
    ) -> Result<EndpointStatus, Memory> {
        let kept = self.kept.lock(rt);
        let (read, written) = kept.bytes();
        Ok(EndpointStatus {
            name: shown(alloc, &self.name)?,
            address: self.address.copy()?,
            state: kept.state(rt, alloc)?,
            had: u64::from(kept.rounds.had()),
            left: u64::from(kept.rounds.left),
            read,
            written,
        })
    }
}
