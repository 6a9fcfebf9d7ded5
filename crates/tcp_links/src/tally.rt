//! How many connections were refused, by cause.
use crate::seats::shown;
use cv_io::{Duplicate, List, Memory, Text};
use status_page::Refused;
use std::alloc::Global;

/// Each cause for which one was refused, and how many were.
#[derive(Drop)]
pub(crate) struct Tally {
    alloc: Global,
    refused: List<Refused>,
}

impl Tally {
    pub(crate) fn new(alloc: Global) -> Tally {
        Tally {
            alloc,
            refused: List::new(alloc),
        }
    }

    /// One more was refused. Where there is no memory for a cause that is new it isn't counted.
    pub(crate) fn count(&mut self, cause: &str) {
        for refused in self.refused.as_mut_slice() {
            if refused.cause.as_bytes() == cause.as_bytes() {
                refused.times = refused.times.saturating_add(1);
                return;
            }
        }
        let _ = self.add(cause);
    }

    /// A cause that is new.
    fn add(&mut self, cause: &str) -> Result<(), Memory> {
        let cause = shown(self.alloc, &cause)?;
        self.refused.push(Refused { cause, times: 1 })
    }

    /// A copy of all.
    pub(crate) fn copy(&self) -> Result<List<Refused>, Memory> {
        let mut refused = List::new(self.alloc);
        for one in self.refused.as_slice() {
            refused.push(Refused {
                cause: one.cause.copy()?,
                times: one.times,
            })?;
        }
        Ok(refused)
    }
}
