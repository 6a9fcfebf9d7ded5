//! The options of a connection's socket.
ghost use Rattle.std.specs.Prelude.{◌≡◌, ◌≤◌, ◌+◌, ◌*◌, ◌/◌};
ghost use Rattle.libc.specs.Net.{SockOption};

use crate::limits::{ANSWERED, WAITS};
use libc::net::{
    IPPROTO_TCP, SO_KEEPALIVE, SO_SNDBUF, SOL_SOCKET, TCP_KEEPCNT, TCP_KEEPIDLE, TCP_KEEPINTVL,
    TCP_USER_TIMEOUT, setsockopt,
};
use std::io::{self, ErrorKind};
use std::net::TcpStream;
use std::os::fd::AsRawFd;
use std::time::Duration;

/// Sets a socket up for a peer that may be dead for so many seconds before it is noticed: no delay; reads that wait
/// for a third of them, writes for all; and TCP's own probes, one each third, which notice a host that is gone.
pub(crate) fn prepare(socket: &TcpStream, dead: u32) -> io::Result<()>
    requires { dead ≤ 3600 }
{
    let third = dead / WAITS;
    socket.set_nodelay(true)?;
    socket.set_read_timeout(Some(Duration::from_secs(u64::from(third))))?;
    socket.set_write_timeout(Some(Duration::from_secs(u64::from(dead))))?;
    set(socket, SOL_SOCKET, SO_KEEPALIVE, 1)?;
    set(socket, IPPROTO_TCP, TCP_KEEPIDLE, third)?;
    set(socket, IPPROTO_TCP, TCP_KEEPINTVL, third)?;
    set(socket, IPPROTO_TCP, TCP_KEEPCNT, WAITS - 1)?;
    set(socket, IPPROTO_TCP, TCP_USER_TIMEOUT, 1000 * dead)
}

/// Has a socket take a whole answer at once.
pub(crate) fn widen(socket: &TcpStream) -> io::Result<()> {
    set(socket, SOL_SOCKET, SO_SNDBUF, ANSWERED)
}

/// Sets an option to a number.
fn set(socket: &TcpStream, level: i32, name: i32, value: u32) -> io::Result<()>
    requires { SockOption level name }
{
    let mut bytes = [0; 16];
    bytes[..4].copy_from_slice(&value.to_ne_bytes());
    if unsafe { setsockopt(socket.as_raw_fd(), level, name, &bytes, 4) } < 0 {
        return Err(io::Error::from(ErrorKind::Other));
    }
    Ok(())
}
