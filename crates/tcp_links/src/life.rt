//! One connection, shared by its two sides.
ghost use Rattle.std.specs.Prelude.{◌≡◌, ◌<◌, ◌≤◌, IfOk, IfSome, length};

use crate::limits::PIECE;
use crate::why::Why;
use std::io::{self, ErrorKind, Read, Write};
use std::net::{Shutdown, SocketAddr, TcpStream};
use std::sync::OnceLock;
use std::sync::atomic::{AtomicBool, AtomicU64, Ordering};
use std::time::{Clock, Instant};

/// How many sides a connection has.
const SIDES: u64 = 2;

/// One connection, shared by its two sides and by whoever watches over it. It has one descriptor.
#[derive(Drop)]
pub struct Life {
    socket: TcpStream,
    peer: SocketAddr,
    began: Instant,
    /// When the peer was last heard, in milliseconds since it began.
    heard: AtomicU64,
    read: AtomicU64,
    written: AtomicU64,
    /// How many of its sides are held.
    sides: AtomicU64,
    why: OnceLock<Why>,
    /// The peer is to be asked whether it lives, and wasn't yet.
    is_to_be_asked: AtomicBool,
}

impl Life {
    /// A connection that begins now.
    pub(crate) fn new<R: Clock>(rt: &R, socket: TcpStream, peer: SocketAddr) -> io::Result<Life> {
        let began = Instant::now(rt)?;
        Ok(Life {
            socket,
            peer,
            began,
            heard: AtomicU64::new(0),
            read: AtomicU64::new(0),
            written: AtomicU64::new(0),
            sides: AtomicU64::new(SIDES),
            why: OnceLock::new(),
            is_to_be_asked: AtomicBool::new(false),
        })
    }

    /// The address of the peer.
    pub fn peer(&self) -> SocketAddr {
        self.peer
    }

    /// How long ago it began, in milliseconds.
    pub fn lasted<R: Clock>(&self, rt: &R) -> u64 {
        match self.began.elapsed(rt) {
            Ok(passed) => u64::try_from(passed.as_millis()).unwrap_or(u64::MAX),
            Err(_) => self.heard(),
        }
    }

    /// When the peer was last heard, in milliseconds since the connection began.
    pub fn heard(&self) -> u64 {
        self.heard.load(Ordering::SeqCst)
    }

    /// How many bytes were read from it.
    pub fn read(&self) -> u64 {
        self.read.load(Ordering::SeqCst)
    }

    /// How many bytes were written to it.
    pub fn written(&self) -> u64 {
        self.written.load(Ordering::SeqCst)
    }

    /// Why it ended, if it did.
    pub fn why(&self) -> Option<Why> {
        self.why.get().copied()
    }

    /// Whether both its sides are gone.
    pub fn is_over(&self) -> bool {
        self.sides.load(Ordering::SeqCst) == 0
    }

    /// Ends it both ways, for this cause unless there was one before. Calls of its sides that wait return.
    pub fn end(&self, why: Why) {
        let _ = self.why.try_set(why);
        let _ = self.socket.shutdown(Shutdown::Both);
    }

    /// One side is let go. Tells whether it was the last.
    pub(crate) fn leave(&self) -> bool {
        self.sides.fetch_sub(1, Ordering::SeqCst) == 1
    }

    /// Marks that the peer is to be asked whether it lives. The side that writes asks it, behind whole messages.
    pub fn ask(&self) {
        self.is_to_be_asked.store(true, Ordering::SeqCst);
    }

    /// Whether the peer is to be asked, and wasn't yet.
    pub fn is_to_be_asked(&self) -> bool {
        self.is_to_be_asked.load(Ordering::SeqCst)
    }

    /// The peer was asked.
    pub(crate) fn has_been_asked(&self) {
        self.is_to_be_asked.store(false, Ordering::SeqCst);
    }

    /// Reads what comes next, in one call that is made again where it is interrupted. No bytes are the end; `None`
    /// where it waited for its limit of time.
    pub(crate) fn receive<R: Clock>(&self, rt: &R, into: &mut [u8]) -> Result<Option<usize>, Why>
        ensures { IfOk result (λ taken. IfSome taken (λ n. n ≤ length into.new)) }
    {
        let mut socket = &self.socket;
        for _ in 0..u64::MAX {
            match socket.read(into) {
                Ok(taken) => {
                    self.hear(rt, taken);
                    return Ok(Some(taken));
                }
                Err(fault) => match fault.kind() {
                    ErrorKind::Interrupted => {}
                    ErrorKind::WouldBlock | ErrorKind::TimedOut => return Ok(None),
                    _ => return Err(Why::Reset),
                },
            }
        }
        Err(Why::Reset)
    }

    /// So many bytes came.
    fn hear<R: Clock>(&self, rt: &R, taken: usize) {
        if taken > 0 {
            self.heard.store(self.lasted(rt), Ordering::SeqCst);
            self.read.fetch_add(taken as u64, Ordering::SeqCst);
        }
    }

    /// Sends all of the bytes, within a limit of time.
    pub(crate) fn send<R: Clock>(&self, rt: &R, bytes: &[u8]) -> Result<(), Why> {
        let began = Instant::now(rt).ok();
        let mut sent = 0;
        while sent < bytes.len() {
            let more = send_some(&self.socket, &bytes[sent..])?;
            self.written.fetch_add(more as u64, Ordering::SeqCst);
            sent += more;
            if sent < bytes.len() && is_late(rt, began) {
                return Err(Why::Stalled);
            }
        }
        Ok(())
    }
}

/// Whether bytes that are sent since then take too long.
fn is_late<R: Clock>(rt: &R, since: Option<Instant>) -> bool {
    let Some(since) = since else {
        return false;
    };
    match since.elapsed(rt) {
        Ok(passed) => passed.as_secs() >= PIECE,
        Err(_) => false,
    }
}

/// Sends some of the first bytes, in one call that is made again where it is interrupted.
fn send_some(mut socket: &TcpStream, piece: &[u8]) -> Result<usize, Why>
    requires { 0 < length piece.now }
    ensures some { IfOk result (λ n. 0 < n) }
    ensures within { IfOk result (λ n. n ≤ length piece.now) }
{
    for _ in 0..u64::MAX {
        match socket.write(piece) {
            Ok(0) => return Err(Why::Stalled),
            Ok(sent) => return Ok(sent),
            Err(fault) => match fault.kind() {
                ErrorKind::Interrupted => {}
                ErrorKind::WouldBlock | ErrorKind::TimedOut => return Err(Why::Stalled),
                _ => return Err(Why::Reset),
            },
        }
    }
    Err(Why::Reset)
}
