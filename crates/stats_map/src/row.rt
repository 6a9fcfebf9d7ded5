//! A cookie that matters.
ghost use Rattle.std.specs.Prelude.{◌≡◌, ◌<◌, ◌^◌, IfOk};
ghost use Rattle.stats_map.specs.Counting.{with_numbers};
ghost use Rattle.stats_map.specs.InsideSums.{HasNumbers};

use crate::sum::Tally;
use cv_io::{Duplicate, Leaf, List, Memory};
use std::marker::Model;

/// The leaves that an entry was made of, and its last numbers.
#[derive(Drop)]
pub struct Row {
    ancestry: List<Leaf>,
    packets: u64,
    bytes: u64,
}

impl Model for Row {
    ghost use Rattle.std.specs.Prelude.{◌<◌, ◌^◌};
    ghost use Rattle.switch_meaning.specs.Counts.{Cookie};

    ghost Value = { Cookie };

    ghost view = { λ a. record { ancestry = a.ancestry; numbers = record { packets = a.packets; bytes = a.bytes } } };

    ghost invariant = { λ a. (a.packets < 2 ^ 64) × (a.bytes < 2 ^ 64) };
}

impl Row {
    /// A cookie of which nothing was reported.
    pub fn new(ancestry: List<Leaf>) -> Row
        ensures { result ≡ record { ancestry = ancestry; numbers = record { packets = 0; bytes = 0 } } }
    {
        Row {
            ancestry,
            packets: 0,
            bytes: 0,
        }
    }

    /// The leaves that its entry was made of.
    pub fn ancestry(&self) -> &List<Leaf>
        ensures { result.now ≡ self.now.ancestry }
    {
        &self.ancestry
    }

    /// Its packets and bytes.
    pub fn numbers(&self) -> Tally
        ensures packets { result.packets ≡ self.now.numbers.packets }
        ensures bytes { result.bytes ≡ self.now.numbers.bytes }
        ensures bound { HasNumbers self.now }
    {
        Tally {
            packets: self.packets,
            bytes: self.bytes,
        }
    }

    /// The same, as a pair.
    pub fn packets_and_bytes(&self) -> (u64, u64)
        ensures { result ≡ (self.now.numbers.packets, self.now.numbers.bytes) }
    {
        (self.packets, self.bytes)
    }

    /// Gives it other numbers.
    pub fn renumber(&mut self, packets: u64, bytes: u64)
        ensures { self.new ≡ with_numbers (record { packets = packets; bytes = bytes }) self.old }
    {
        self.packets = packets;
        self.bytes = bytes;
    }
}

impl Duplicate for Row {
    fn copy(&self) -> Result<Row, Memory> {
        Ok(Row {
            ancestry: self.ancestry.copy()?,
            packets: self.packets,
            bytes: self.bytes,
        })
    }
}
