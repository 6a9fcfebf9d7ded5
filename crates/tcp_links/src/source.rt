//! The side of a connection that is read.
ghost use Rattle.std.specs.Prelude.{◌≡◌, ◌≤◌, ◌<◌, IfOk, length};

use crate::hold::Hold;
use crate::life::Life;
use crate::limits::WAITS;
use crate::why::Why;
use cv_io::Bytes;
use outside::{Failed, Source};
use std::sync::Wait;
use std::time::Clock;

/// The bytes that the peer of a connection sends, after those that were read before it was given. A peer from which
/// none come for a third of the limit is asked, and one that has been asked twice and is still silent is dead.
#[derive(Drop)]
pub struct TcpSource<'a, R: Wait + Clock + Eprint> {
    pub(crate) hold: Hold<'a, R>,
    pub(crate) before: Bytes,
    pub(crate) at: usize,
    pub(crate) faults: u64,
    ghost within: { at ≤ length before },
}

/// The next bytes of a connection; none at its end.
fn next_bytes<R: Wait + Clock>(rt: &R, life: &Life, into: &mut [u8]) -> Result<usize, Why>
    ensures { IfOk result (λ n. n ≤ length into.new) }
{
    let mut asked = 0;
    for _ in rt.forever() {
        if let Some(taken) = life.receive(rt, into)? {
            return Ok(taken);
        }
        // until it was asked its silence says nothing
        if life.is_to_be_asked() {
            continue;
        }
        if asked >= WAITS - 1 {
            return Err(Why::Silent);
        }
        life.ask();
        asked += 1;
    }
    unreachable!()
}

impl<R: Wait + Clock + Eprint> TcpSource<'_, R> {
    /// Gives bytes that were read before, so many as fit.
    fn replay(&mut self, into: &mut [u8]) -> usize
        ensures within { result ≤ length into.new }
        ensures quiet { self.new.faults ≡ self.old.faults }
    {
        let taken = into.len().min(self.before.len() - self.at);
        into[..taken].copy_from_slice(&self.before.as_slice()[self.at..self.at + taken]);
        self.at += taken;
        taken
    }
}

impl<R: Wait + Clock + Eprint> Source for TcpSource<'_, R> {
    ghost use Rattle.std.specs.Prelude.{None, false};

    ghost remaining = { λ _. None };

    ghost faults = { λ s. s.faults };

    ghost is_reliable = { λ _. false };

    fn read(&mut self, into: &mut [u8]) -> Result<usize, Failed> {
        if self.at < self.before.len() {
            return Ok(self.replay(into));
        }
        match next_bytes(self.hold.rt, &self.hold.life, into) {
            Ok(taken) => {
                if taken == 0 {
                    self.hold.life.end(Why::Ended);
                }
                Ok(taken)
            }
            Err(why) => {
                self.hold.life.end(why);
                self.faults = self.faults.saturating_add(1);
                Err(Failed)
            }
        }
    }
}
