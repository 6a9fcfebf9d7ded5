//! Where bytes go.
ghost use Rattle.std.specs.Prelude.{◌≡◌, ◌<◌, ◌≤◌, ◌++◌, ◌⊎◌, IsErr, IsTrue, ℕ, Bool, true, List, IfOk, IsOk, OnOk};
ghost use Rattle.std.specs.Prelude.{OnErr, Option, Some, length};
ghost use Rattle.outside.specs.Outside.{AppendsFirst, Rose, is_listed, lists_none, next_count};

use crate::calls::{Calls, Failed};
use cv_io::{Bytes, List};
use std::marker::Model;

/// A writer of bytes.
pub trait Sink {
    // The bytes that were written to it, where they are told.
    ghost held: { Self → Option (List ℕ) };

    // How many calls failed.
    ghost faults: { Self → ℕ };

    // How many calls failed for want of memory.
    ghost wants: { Self → ℕ };

    // It never fails but for want of memory.
    ghost is_reliable: { Self → Bool };

    /// How many calls failed for want of memory. Where it rises with a failed call, memory is the cause.
    fn wants(&self) -> u64
        ensures { result ≡ wants self.now };

    /// Writes the first bytes of a piece that isn't empty, and tells how many.
    fn write(&mut self, piece: &[u8]) -> Result<usize, Failed>
        requires { 0 < length piece.now }
        ensures some { IfOk result (λ n. 0 < n) }
        ensures within { IfOk result (λ n. n ≤ length piece.now) }
        ensures bytes { IfOk result (λ n. AppendsFirst (held self.old) (held self.new) n piece.now) }
        ensures kept { OnErr result (held self.new ≡ held self.old) }
        ensures quiet { OnOk result (faults self.new ≡ faults self.old) }
        ensures fault { OnErr result (Rose (faults self.old) (faults self.new)) }
        ensures never_falls { faults self.old ≤ faults self.new }
        ensures sated { OnOk result (wants self.new ≡ wants self.old) }
        ensures wants_never_fall { wants self.old ≤ wants self.new }
        ensures reliable { is_reliable self.new ≡ is_reliable self.old }
        ensures writes { is_reliable self.old ≡ true → OnErr result (Rose (wants self.old) (wants self.new)) };

    /// Sends what it has collected. One that collects nothing has nothing to send.
    fn flush(&mut self) -> Result<(), Failed>
        ensures kept { held self.new ≡ held self.old }
        ensures quiet { OnOk result (faults self.new ≡ faults self.old) }
        ensures fault { OnErr result (Rose (faults self.old) (faults self.new)) }
        ensures never_falls { faults self.old ≤ faults self.new }
        ensures sated { OnOk result (wants self.new ≡ wants self.old) }
        ensures wants_never_fall { wants self.old ≤ wants self.new }
        ensures reliable { is_reliable self.new ≡ is_reliable self.old }
        ensures writes { is_reliable self.old ≡ true → OnErr result (Rose (wants self.old) (wants self.new)) }
    {
        Ok(())
    }
}

/// A sink over a list in memory, of which listed calls fail, and those that find no memory, which
/// are counted beside.
#[derive(Drop, Debug)]
pub struct MemSink {
    pub held: Bytes,
    calls: Calls,
    wants: u64,
}

impl Model for MemSink {
    ghost use Rattle.outside.specs.Outside.{SinkOf};

    ghost Value = { SinkOf };

    ghost view = { λ s. record {
      held = s.held;
      fails = s.calls.fails;
      made = s.calls.made;
      faults = s.calls.faults;
      wants = s.wants;
    } };
}

impl MemSink {
    /// A sink that holds these bytes. `fails` lists the numbers of the calls that are to fail, from 1.
    pub fn new(held: Bytes, fails: List<u64>) -> Self
        ensures { result ≡ record { held = held; fails = fails; made = 0; faults = 0; wants = 0 } }
    {
        MemSink {
            held,
            calls: Calls::new(fails),
            wants: 0,
        }
    }
}

impl Sink for MemSink {
    ghost held = { λ s. Some s.held };

    ghost faults = { λ s. s.faults };

    ghost wants = { λ s. s.wants };

    ghost is_reliable = { λ s. lists_none s.fails };

    fn wants(&self) -> u64 {
        self.wants
    }

    fn write(&mut self, piece: &[u8]) -> Result<usize, Failed>
        requires { 0 < length piece.now }
        ensures whole { IfOk result (λ n. n ≡ length piece.now) }
        ensures bytes { OnOk result (self.new.held ≡ self.old.held ++ piece.now) }
        ensures kept { OnErr result (self.new.held ≡ self.old.held) }
        ensures quiet { OnOk result (self.new.faults ≡ self.old.faults) }
        ensures fault { OnErr result (Rose self.old.faults self.new.faults) }
        ensures never_falls { self.old.faults ≤ self.new.faults }
        ensures sated { OnOk result (self.new.wants ≡ self.old.wants) }
        ensures wants_never_fall { self.old.wants ≤ self.new.wants }
        ensures reliable { self.new.fails ≡ self.old.fails }
        ensures writes { lists_none self.old.fails ≡ true → OnErr result (Rose self.old.wants self.new.wants) }
        ensures listed { IsTrue (is_listed self.old.fails (next_count self.old.made)) → IsErr result }
        ensures unlisted { OnErr result (IsTrue (is_listed self.old.fails (next_count self.old.made))
            ⊎ Rose self.old.wants self.new.wants) }
        ensures made { self.new.made ≡ next_count self.old.made }
    {
        if self.calls.count() {
            return Err(Failed);
        }
        match self.held.extend_from_slice(piece) {
            Ok(()) => Ok(piece.len()),
            Err(_) => {
                self.calls.fault();
                self.wants = self.wants.saturating_add(1);
                Err(Failed)
            }
        }
    }
}
