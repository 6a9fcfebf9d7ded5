//! The counts of a table's entries.
ghost use Rattle.std.specs.Prelude.{◌≡◌, ◌+◌, ◌<◌, ◌^◌, ℕ};
ghost use Rattle.switch_meaning.specs.Counts.{Numbers};

/// What tells the count of an entry.
pub trait EntryCounts {
    // The packets and bytes of the entry of a serial number.
    ghost numbers: { Self → ℕ → Numbers };

    /// The packets and the bytes of the entry of a serial number, as tables give them: two more fits its type.
    fn count(&self, serial: u64) -> (u64, u64)
        requires { 2 + serial < 2 ^ 64 }
        ensures { result ≡ ((numbers self.now serial).packets, (numbers self.now serial).bytes) };
}
