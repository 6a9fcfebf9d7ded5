//! What the tests over sockets share: addresses, settings, and peers.
ghost use Rattle.std.specs.Prelude.{◌≤◌};

use cv_io::{Bytes, Text};
use log::LevelFilter;
use outside::{Endpoint, Links};
use std::alloc::Global;
use std::io::{self, Read, Write};
use std::net::{SocketAddr, TcpListener, TcpStream};
use std::test::Fail;
use std::time::Duration;
use tcp_links::Settings;

/// A HELLO of version 1 (section 5.5.1).
pub(crate) const HELLO: [u8; 8] = [1, 0, 0, 8, 0, 0, 0, 0];

/// An ECHO_REQUEST of transaction id 0 (section 5.5.2).
pub(crate) const QUESTION: [u8; 8] = [1, 2, 0, 8, 0, 0, 0, 0];

/// Its reply (section 5.5.3).
pub(crate) const REPLY: [u8; 8] = [1, 3, 0, 8, 0, 0, 0, 0];

/// The datapath id of the switch, and its HELLO and FEATURES_REPLY (section 5.3.1), which tells it and nothing else.
pub(crate) const DPID: u64 = 2;

pub(crate) const GREETING: [u8; 40] = [
    1, 0, 0, 8, 0, 0, 0, 0, 1, 6, 0, 32, 0, 0, 0, 0, 0, 0, 0, 0, 0, 0, 0, 2, 0, 0, 0, 0, 0, 0, 0,
    0, 0, 0, 0, 0, 0, 0, 0, 0,
];

/// The limits of a test, which is told nothing.
pub(crate) fn limits(handshake: u32) -> Settings
    requires { 1 ≤ handshake }
{
    Settings {
        handshake,
        dead: 3,
        level: LevelFilter::Off,
        status: None,
    }
}

/// The same, with a second to greet, and a status page.
pub(crate) fn limits_shown_at(status: SocketAddr) -> Settings {
    Settings {
        handshake: 1,
        dead: 3,
        level: LevelFilter::Off,
        status: Some(status),
    }
}

/// An address of this host at which nobody listens.
pub(crate) fn free_address(rt: &HostRuntime) -> Result<SocketAddr, Fail> {
    let listener = TcpListener::bind(rt, "127.0.0.1:0")?;
    Ok(listener.local_addr()?)
}

/// An address as a text.
pub(crate) fn text_of(alloc: Global, address: SocketAddr) -> Result<Text, Fail> {
    let printed = format!(in alloc; "{address}")?;
    let bytes = Bytes::from_slice(alloc, printed.as_bytes())?;
    Ok(Text::from_bytes(bytes)?)
}

/// The dial of the switch, which connects to this address.
pub(crate) fn switch_dial<L: Links>(
    alloc: Global,
    links: &mut L,
    address: SocketAddr,
) -> Result<L::Dial, Fail> {
    let end = Endpoint::Switch {
        index: 0,
        listen: text_of(alloc, address)?,
        rounds: 2,
        dpid: DPID,
    };
    Ok(links.dial(&end)?)
}

/// A peer that connects, and waits for five seconds at most for what it reads.
pub(crate) fn peer(rt: &HostRuntime, address: SocketAddr) -> Result<TcpStream, Fail> {
    let socket = TcpStream::connect(rt, address)?;
    socket.set_read_timeout(Some(Duration::from_secs(5)))?;
    Ok(socket)
}

/// The switch, which greets.
pub(crate) fn switch(rt: &HostRuntime, address: SocketAddr) -> Result<TcpStream, Fail> {
    let socket = peer(rt, address)?;
    (&socket).write_all(&GREETING)?;
    Ok(socket)
}

/// Whether the next bytes are the end, behind what was sent before it. A connection that is broken off has ended too.
pub(crate) fn ends(mut socket: &TcpStream) -> bool {
    let mut place = [0; 4096];
    for _ in 0..1_000 {
        match socket.read(&mut place) {
            Ok(0) => return true,
            Ok(_) => {}
            Err(fault) => return fault.kind() == io::ErrorKind::ConnectionReset,
        }
    }
    false
}
