//! The side of a connection that is written.
ghost use Rattle.std.specs.Prelude.{◌≡◌, ◌≤◌, ◌<◌, IfOk, OnOk, length};
ghost use Rattle.outside.specs.Outside.{Rose};

use crate::hold::Hold;
use crate::limits::COLLECTED;
use crate::why::Why;
use cv_io::Bytes;
use outside::{Failed, Sink};
use std::time::Clock;

/// An ECHO_REQUEST of version 1 and transaction id 0 (section 5.5.2 of the OpenFlow Switch Specification 1.0.0).
const QUESTION: [u8; 8] = [1, 2, 0, 8, 0, 0, 0, 0];

/// What the peer of a connection is sent, but for what was sent of it before the connection was given. It is collected,
/// and sent once there is much of it or all is to be sent. A peer that takes no byte for the limit, or of what was
/// collected too little, is stuck.
#[derive(Drop)]
pub struct TcpSink<'a, R: Clock + Eprint> {
    pub(crate) hold: Hold<'a, R>,
    /// How many bytes were sent before.
    pub(crate) before: usize,
    /// What is to be sent.
    pub(crate) collected: Bytes,
    pub(crate) faults: u64,
    ghost within: { length collected ≤ 65536 },
}

impl<R: Clock + Eprint> TcpSink<'_, R> {
    /// Sends what is collected.
    fn send(&mut self) -> Result<(), Why>
        ensures sent { OnOk result (length self.new.collected ≡ 0) }
        ensures quiet { self.new.faults ≡ self.old.faults }
    {
        let TcpSink {
            hold,
            collected,
            ..
        } = self;
        hold.life.send(hold.rt, collected.as_slice())?;
        collected.clear();
        Ok(())
    }

    /// Collects the first bytes of a piece, and tells how many. Where no memory can be had for them they are sent.
    fn collect(&mut self, piece: &[u8]) -> Result<usize, Why>
        requires { 0 < length piece.now }
        ensures some { IfOk result (λ n. 0 < n) }
        ensures within { IfOk result (λ n. n ≤ length piece.now) }
        ensures quiet { self.new.faults ≡ self.old.faults }
    {
        if self.collected.len() >= COLLECTED {
            self.send()?;
        }
        let taken = piece.len().min(COLLECTED - self.collected.len());
        if self.collected.extend_from_slice(&piece[..taken]).is_err() {
            self.send()?;
            self.hold.life.send(self.hold.rt, &piece[..taken])?;
        }
        Ok(taken)
    }

    /// Sends what is collected, and asks the peer whether it lives where it is to be asked.
    fn send_all(&mut self) -> Result<(), Why>
        ensures quiet { self.new.faults ≡ self.old.faults }
    {
        self.send()?;
        let life = &self.hold.life;
        if self.before == 0 && life.is_to_be_asked() {
            life.send(self.hold.rt, &QUESTION)?;
            life.has_been_asked();
        }
        Ok(())
    }

    /// The connection is over for this cause.
    fn fail(&mut self, why: Why) -> Failed
        ensures fault { Rose self.old.faults self.new.faults }
        ensures never_falls { self.old.faults ≤ self.new.faults }
    {
        self.hold.life.end(why);
        self.faults = self.faults.saturating_add(1);
        Failed
    }
}

impl<R: Clock + Eprint> Sink for TcpSink<'_, R> {
    ghost use Rattle.std.specs.Prelude.{None, false};

    ghost held = { λ _. None };

    ghost faults = { λ s. s.faults };

    ghost wants = { λ _. 0 };

    ghost is_reliable = { λ _. false };

    fn wants(&self) -> u64 {
        0
    }

    fn write(&mut self, piece: &[u8]) -> Result<usize, Failed> {
        if self.before > 0 {
            let passed = self.before.min(piece.len());
            self.before -= passed;
            return Ok(passed);
        }
        match self.collect(piece) {
            Ok(taken) => Ok(taken),
            Err(why) => Err(self.fail(why)),
        }
    }

    fn flush(&mut self) -> Result<(), Failed> {
        match self.send_all() {
            Ok(()) => Ok(()),
            Err(why) => Err(self.fail(why)),
        }
    }
}
