//! What a side holds of its connection.
use crate::greeting::Greeting;
use crate::life::Life;
use crate::lobby::Lobby;
use crate::names::EndpointName;
use crate::options::prepare;
use crate::settings::Settings;
use crate::sink::TcpSink;
use crate::source::TcpSource;
use crate::telling::{tell_given, tell_over};
use crate::why::Why;
use cv_io::Bytes;
use log::LevelFilter;
use std::alloc::Global;
use std::io;
use std::net::{SocketAddr, TcpStream};
use std::sync::{Arc, Wait};
use std::time::Clock;

/// A connection whose peer has greeted, as its two sides will hold it.
#[derive(Drop)]
pub(crate) struct Arrival {
    source: Arc<Life>,
    sink: Arc<Life>,
    greeting: Greeting,
}

impl Arrival {
    /// The connection begins now.
    pub(crate) fn new<R: Clock>(
        rt: &R,
        alloc: Global,
        settings: &Settings,
        socket: TcpStream,
        peer: SocketAddr,
        greeting: Greeting,
    ) -> io::Result<Arrival> {
        prepare(&socket, settings.dead)?;
        let source = Arc::new(alloc, Life::new(rt, socket, peer)?)?;
        let sink = Arc::try_clone(&source)?;
        Ok(Arrival {
            source,
            sink,
            greeting,
        })
    }

    pub(crate) fn life(&self) -> &Arc<Life> {
        &self.source
    }
}

/// What a side holds of its connection. As it is let go the socket is shut down both ways, so that the calls of the
/// other side return; the second one to go tells that the connection is over.
pub(crate) struct Hold<'a, R: Clock + Eprint> {
    pub(crate) rt: &'a R,
    pub(crate) level: LevelFilter,
    pub(crate) name: EndpointName,
    pub(crate) life: Arc<Life>,
    /// Who waits for the end of the connection, if anybody does.
    pub(crate) lobby: Option<Arc<Lobby>>,
}

impl<R: Clock + Eprint> Drop for Hold<'_, R> {
    fn drop(self) {
        let Hold {
            rt,
            level,
            name,
            life,
            lobby,
        } = self;
        life.end(Why::Ours);
        if life.leave() {
            tell_over(rt, level, name, &life);
            if let Some(lobby) = lobby {
                lobby.ring();
            }
        }
    }
}

/// The two sides of a connection whose peer has greeted.
pub(crate) type Sides<'a, R> = (TcpSource<'a, R>, TcpSink<'a, R>);

/// Gives a connection whose peer has greeted, and which nobody waits for the end of.
pub(crate) fn give<'a, R: Wait + Clock + Eprint>(
    rt: &'a R,
    alloc: Global,
    settings: &Settings,
    name: EndpointName,
    socket: TcpStream,
    peer: SocketAddr,
    greeting: Greeting,
) -> io::Result<Sides<'a, R>> {
    let arrival = Arrival::new(rt, alloc, settings, socket, peer, greeting)?;
    Ok(hand_over(rt, alloc, settings, name, arrival, None, None))
}

/// Gives a connection. Whoever waits for its end is told by the side that goes last.
pub(crate) fn hand_over<'a, R: Wait + Clock + Eprint>(
    rt: &'a R,
    alloc: Global,
    settings: &Settings,
    name: EndpointName,
    arrival: Arrival,
    source_lobby: Option<Arc<Lobby>>,
    sink_lobby: Option<Arc<Lobby>>,
) -> Sides<'a, R> {
    let Arrival {
        source,
        sink,
        greeting,
    } = arrival;
    let level = settings.level;
    tell_given(rt, level, name, &source);
    let source = TcpSource {
        hold: Hold {
            rt,
            level,
            name,
            life: source,
            lobby: source_lobby,
        },
        before: greeting.read,
        at: 0,
        faults: 0,
    };
    let sink = TcpSink {
        hold: Hold {
            rt,
            level,
            name,
            life: sink,
            lobby: sink_lobby,
        },
        before: greeting.sent,
        collected: Bytes::new(alloc),
        faults: 0,
    };
    (source, sink)
}
