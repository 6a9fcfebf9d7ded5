//! A sink that counts the lines that are written to it, for others to see.
use outside::{Failed, Sink};
use std::sync::atomic::{AtomicU64, Ordering};

/// What is written to it is not kept.
#[derive(Drop)]
pub struct Lines<'a> {
    pub written: &'a AtomicU64,
}

impl Sink for Lines<'_> {
    ghost use Rattle.std.specs.Prelude.{None, true};

    ghost held = { λ _. None };

    ghost faults = { λ _. 0 };

    ghost wants = { λ _. 0 };

    ghost is_reliable = { λ _. true };

    fn wants(&self) -> u64 {
        0
    }

    fn write(&mut self, piece: &[u8]) -> Result<usize, Failed> {
        for byte in piece {
            if *byte == b'\n' {
                self.written.fetch_add(1, Ordering::SeqCst);
            }
        }
        Ok(piece.len())
    }
}
