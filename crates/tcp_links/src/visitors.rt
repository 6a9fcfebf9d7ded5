//! Who comes to a listen address: what it is read and sent before it has greeted, by calls that don't wait.
ghost use Rattle.std.specs.Prelude.{◌≤◌, IfOk, length};

use crate::tries::TryFault;
use sessions::OpenEnd;
use std::io::{ErrorKind, Read, Write};
use std::net::{IpAddr, SocketAddr, TcpStream};
use switch_arrivals::Stranger;

/// What stands for a stranger's connection.
#[derive(Drop)]
pub(crate) struct Visitor {
    pub(crate) socket: TcpStream,
    pub(crate) peer: SocketAddr,
}

/// The network of a host. Of IPv4 the address itself; of IPv6 the half that a host has for itself, or where all hosts of
/// a link share that half the other one.
pub(crate) fn host_of(peer: &SocketAddr) -> u64 {
    match peer.ip().to_canonical() {
        IpAddr::V4(address) => u64::from(address.to_bits()),
        IpAddr::V6(address) => {
            let [a, b, c, d, e, f, g, h] = address.segments();
            if address.is_unicast_link_local() {
                joined(e, f, g, h)
            } else {
                joined(a, b, c, d)
            }
        }
    }
}

/// Four groups of an address, the first one highest.
fn joined(a: u16, b: u16, c: u16, d: u16) -> u64 {
    u64::from(a) << 48 | u64::from(b) << 32 | u64::from(c) << 16 | u64::from(d)
}

/// Reads what a socket has, in one call that is made again where it is interrupted. 0 where it has nothing yet.
pub(crate) fn read_some(mut socket: &TcpStream, into: &mut [u8]) -> Result<usize, TryFault>
    ensures { IfOk result (λ n. n ≤ length into.new) }
{
    for _ in 0..u64::MAX {
        match socket.read(into) {
            Ok(0) => return Err(ended()),
            Ok(taken) => return Ok(taken),
            Err(fault) => match fault.kind() {
                ErrorKind::Interrupted => {}
                ErrorKind::WouldBlock => return Ok(0),
                _ => return Err(TryFault::System { fault }),
            },
        }
    }
    Ok(0)
}

/// The peer has closed the connection.
fn ended() -> TryFault {
    TryFault::Refused {
        end: OpenEnd::Ended,
    }
}

/// Sends what a socket takes of a piece, in one call that is made again where it is interrupted.
pub(crate) fn write_some(mut socket: &TcpStream, piece: &[u8]) -> Result<usize, TryFault>
    ensures { IfOk result (λ n. n ≤ length piece.now) }
{
    for _ in 0..u64::MAX {
        match socket.write(piece) {
            Ok(sent) => return Ok(sent),
            Err(fault) => match fault.kind() {
                ErrorKind::Interrupted => {}
                ErrorKind::WouldBlock => return Ok(0),
                _ => return Err(TryFault::System { fault }),
            },
        }
    }
    Ok(0)
}

/// Sends a stranger what is left of the answer to all that it said. Tells how much of it is sent.
pub(crate) fn answer(stranger: &Stranger<Visitor>, answer: &[u8]) -> Result<usize, TryFault> {
    let Some(left) = answer.get(stranger.told..) else {
        return Ok(stranger.told);
    };
    if left.is_empty() {
        return Ok(stranger.told);
    }
    let sent = write_some(&stranger.link.socket, left)?;
    Ok(stranger.told.saturating_add(sent))
}
