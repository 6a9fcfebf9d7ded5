//! Where bytes come from.
ghost use Rattle.std.specs.Prelude.{◌≡◌, ◌<◌, ◌≤◌, ℕ, Bool, true, false, List, [], IfOk, IsOk, OnOk, OnErr, IsErr};
ghost use Rattle.std.specs.Prelude.{IsTrue, ◌↔◌, Option, Some, None, length, take, drop};
ghost use Rattle.outside.specs.Outside.{Rose, TakesNext, is_listed, lists_none, next_count};

use crate::calls::{Calls, Failed};
use cv_io::{Bytes, List};
use std::marker::Model;

/// A reader of bytes.
pub trait Source {
    // The bytes that reads will give from here on, where they are told.
    ghost remaining: { Self → Option (List ℕ) };

    // How many calls failed.
    ghost faults: { Self → ℕ };

    // It never fails.
    ghost is_reliable: { Self → Bool };

    /// Reads some of the next bytes into a place that isn't empty. `Ok(0)` is the end.
    fn read(&mut self, into: &mut [u8]) -> Result<usize, Failed>
        requires { 0 < length into.old }
        ensures within { IfOk result (λ n. n ≤ length into.new) }
        ensures bytes { IfOk result (λ n. TakesNext (remaining self.old) (remaining self.new) n into.new) }
        ensures kept { OnErr result (remaining self.new ≡ remaining self.old) }
        ensures quiet { OnOk result (faults self.new ≡ faults self.old) }
        ensures fault { OnErr result (Rose (faults self.old) (faults self.new)) }
        ensures never_falls { faults self.old ≤ faults self.new }
        ensures reliable { is_reliable self.new ≡ is_reliable self.old }
        ensures reads { is_reliable self.old ≡ true → IsOk result };
}

/// A source over bytes in memory, of which listed calls fail.
#[derive(Drop, Debug)]
pub struct MemSource {
    bytes: Bytes,
    at: usize,
    calls: Calls,
}

impl Model for MemSource {
    ghost use Rattle.std.specs.Prelude.{◌≤◌, drop, length};
    ghost use Rattle.outside.specs.Outside.{SourceOf};

    ghost Value = { SourceOf };

    ghost view = { λ s. record {
      left = drop s.at s.bytes;
      fails = s.calls.fails;
      made = s.calls.made;
      faults = s.calls.faults;
    } };

    ghost invariant = { λ s. s.at ≤ length s.bytes };
}

impl MemSource {
    /// A source of these bytes. `fails` lists the numbers of the calls that are to fail, from 1.
    pub fn new(bytes: Bytes, fails: List<u64>) -> Self
        ensures { result ≡ record { left = bytes; fails = fails; made = 0; faults = 0 } }
    {
        MemSource {
            bytes,
            at: 0,
            calls: Calls::new(fails),
        }
    }
}

impl Source for MemSource {
    ghost remaining = { λ s. Some s.left };

    ghost faults = { λ s. s.faults };

    ghost is_reliable = { λ s. lists_none s.fails };

    fn read(&mut self, into: &mut [u8]) -> Result<usize, Failed>
        requires { 0 < length into.old }
        ensures within { IfOk result (λ n. n ≤ length into.new) }
        ensures bytes { IfOk result (λ n. take n into.new ≡ take n self.old.left) }
        ensures left { IfOk result (λ n. self.new.left ≡ drop n self.old.left) }
        ensures end { IfOk result (λ n. n ≡ 0 → self.old.left ≡ []) }
        ensures kept { OnErr result (self.new.left ≡ self.old.left) }
        ensures quiet { OnOk result (self.new.faults ≡ self.old.faults) }
        ensures fault { OnErr result (Rose self.old.faults self.new.faults) }
        ensures never_falls { self.old.faults ≤ self.new.faults }
        ensures reliable { self.new.fails ≡ self.old.fails }
        ensures reads { lists_none self.old.fails ≡ true → IsOk result }
        ensures listed { IsErr result ↔ IsTrue (is_listed self.old.fails (next_count self.old.made)) }
        ensures made { self.new.made ≡ next_count self.old.made }
    {
        if self.calls.count() {
            return Err(Failed);
        }
        let left = self.bytes.len() - self.at;
        let taken = left.min(into.len());
        into[..taken].copy_from_slice(&self.bytes.as_slice()[self.at..self.at + taken]);
        self.at += taken;
        Ok(taken)
    }
}
