//! The greeting of a connection, within a limit of time, before it is given.
ghost use Rattle.std.specs.Prelude.{◌≡◌, ◌≤◌, ◌<◌, IfOk, length};

use crate::limits::GREETING;
use crate::opening::{Verdict, judged_member};
use crate::tries::TryFault;
use cv_io::Bytes;
use sessions::OpenEnd;
use std::alloc::Global;
use std::io::{ErrorKind, Read, Write};
use std::net::TcpStream;
use std::sync::Wait;
use std::time::{Clock, Duration, Instant};

/// How many bytes are read at once.
const CHUNK: usize = 4096;

/// Who is at the other end.
#[derive(Clone, Copy, PartialEq, Eq, Debug)]
pub(crate) enum Guest {
    /// A controller says HELLO.
    Controller,
    /// Another proxy; nothing is asked of it before its session.
    Proxy,
}

/// What was read and sent before a connection is given.
#[derive(Drop)]
pub(crate) struct Greeting {
    pub(crate) read: Bytes,
    pub(crate) sent: usize,
}

impl Guest {
    /// Whether the bytes that were read so far are a greeting, and all that is to be sent for them.
    fn has_greeted<R: Wait>(
        self,
        rt: &R,
        alloc: Global,
        read: &Bytes,
    ) -> Result<(bool, Bytes), TryFault> {
        match self {
            Guest::Controller => {
                let judged = judged_member(rt, alloc, read)?;
                match judged.verdict {
                    Verdict::More => Ok((false, judged.answer)),
                    Verdict::Open { .. } => Ok((true, judged.answer)),
                    Verdict::Refused { end } => Err(TryFault::Refused { end }),
                }
            }
            Guest::Proxy => Ok((true, Bytes::new(alloc))),
        }
    }
}

/// Greets the peer of a connection, and reads until it has greeted too, for so many seconds at most.
pub(crate) fn greet<R: Wait + Clock>(
    rt: &R,
    alloc: Global,
    guest: Guest,
    socket: &TcpStream,
    seconds: u32,
) -> Result<Greeting, TryFault> {
    let began = Instant::now(rt)?;
    let limit = Duration::from_secs(u64::from(seconds));
    socket.set_write_timeout(Some(limit))?;
    let mut read = Bytes::new(alloc);
    let mut sent = 0;
    for _ in rt.forever() {
        let (has_greeted, answer) = guest.has_greeted(rt, alloc, &read)?;
        say(socket, answer.as_slice(), &mut sent)?;
        if has_greeted {
            return Ok(Greeting { read, sent });
        }
        if read.len() >= GREETING {
            return Err(TryFault::Long);
        }
        let left = limit.saturating_sub(began.elapsed(rt)?);
        if left.is_zero() {
            return Err(TryFault::Late);
        }
        socket.set_read_timeout(Some(left))?;
        hear(socket, &mut read)?;
    }
    unreachable!()
}

/// Sends what is left of the answer, of which so many bytes were sent.
fn say(mut socket: &TcpStream, answer: &[u8], sent: &mut usize) -> Result<(), TryFault> {
    if *sent < answer.len() {
        socket.write_all(&answer[*sent..])?;
        *sent = answer.len();
    }
    Ok(())
}

/// Reads some more, in one call. One that comes to its limit of time reads nothing.
fn hear(mut socket: &TcpStream, read: &mut Bytes) -> Result<(), TryFault> {
    let mut place = [0; CHUNK];
    match socket.read(&mut place) {
        Ok(0) => Err(TryFault::Refused {
            end: OpenEnd::Ended,
        }),
        Ok(taken) => {
            read.extend_from_slice(&place[..taken])?;
            Ok(())
        }
        Err(fault) => match fault.kind() {
            ErrorKind::Interrupted | ErrorKind::WouldBlock | ErrorKind::TimedOut => Ok(()),
            _ => Err(TryFault::System { fault }),
        },
    }
}
