//! How the porter is had: a thread that hears those who come.
use crate::limits::REFUSALS;
use crate::lobby::Lobby;
use crate::porter::{CHUNK, Porter, READER, WAKER};
use crate::readers::Readers;
use crate::settings::Settings;
use crate::sparing::Sparing;
use crate::tally::Tally;
use crate::telling::{Moment, tell_deaf, tell_listening};
use cv_io::{Bytes, List};
use mio::{Events, Poll, Waker};
use std::alloc::Global;
use std::io::{self, ErrorKind};
use std::net::{Net, TcpListener, TcpStream};
use std::sync::{Arc, Wait};
use std::thread::{self, JoinHandle, Threads};
use std::time::Clock;
use switch_arrivals::Strangers;

/// How many events are taken at once.
const EVENTS: usize = 128;

/// Where switches come, and the thread that lets them in.
#[derive(Drop)]
pub(crate) struct Reception {
    pub(crate) lobby: Arc<Lobby>,
    pub(crate) porter: JoinHandle<()>,
}

/// Lets switches in until nobody is to be let in any more.
fn serve<R: Clock + Wait + Eprint>(rt: &R, mut porter: Porter) {
    for _ in rt.forever() {
        if porter.lobby.is_closed(rt) || !porter.sleep(rt) {
            break;
        }
        porter.turn(rt);
    }
    porter.lobby.desert(rt);
}

/// Who asks for the status page, if there is to be one and its address can be had.
fn open_readers<R: Net<Listener = TcpListener, Stream = TcpStream> + Clock + Eprint>(
    rt: &R,
    alloc: Global,
    settings: &Settings,
    poll: &Poll,
) -> Option<Readers> {
    let address = settings.status?;
    match Readers::open(rt, alloc, poll, READER, address) {
        Ok(readers) => {
            tell_listening(rt, settings.level, &address);
            Some(readers)
        }
        Err(fault) => {
            tell_deaf(rt, settings.level, &address, &fault);
            None
        }
    }
}

/// A porter that listens nowhere yet, and the lobby into which it lets switches.
fn ready<R: Net<Listener = TcpListener, Stream = TcpStream> + Clock + Eprint>(
    rt: &R,
    alloc: Global,
    settings: Settings,
) -> io::Result<(Arc<Lobby>, Porter)> {
    let poll = Poll::new(rt)?;
    let waker = Waker::new(poll.registry(), WAKER)?;
    let lobby = Arc::new(alloc, Lobby::new(rt, alloc, waker)?)?;
    let readers = open_readers(rt, alloc, &settings, &poll);
    let porter = Porter {
        alloc,
        settings,
        listeners: List::new(alloc),
        poll,
        events: Events::with_capacity(alloc, EVENTS)?,
        lobby: Arc::try_clone(&lobby)?,
        strangers: Strangers::new(alloc),
        dpids: List::new(alloc),
        place: Bytes::from_vec(vec![in alloc; 0; CHUNK]?),
        refusals: Sparing::new(REFUSALS, 1),
        refused: Tally::new(alloc),
        readers,
        began: Moment::now(rt).seconds,
        is_busy: false,
        is_shut: false,
        is_told: false,
    };
    Ok((lobby, porter))
}

/// Starts the porter: a thread that runs until the lobby is closed.
pub(crate) fn start<
    R: Net<Listener = TcpListener, Stream = TcpStream>
        + Threads
        + Wait
        + Clock
        + Eprint
        + Clone
        + Drop
        + Send
        + 'static,
>(rt: &R, alloc: Global, settings: Settings) -> io::Result<Reception> {
    let (lobby, porter) = ready(rt, alloc, settings)?;
    let handle = rt.clone()?;
    match thread::spawn(rt, move || serve(&handle, porter)) {
        Ok(porter) => Ok(Reception { lobby, porter }),
        Err(_) => Err(io::Error::from(ErrorKind::OutOfMemory)),
    }
}
