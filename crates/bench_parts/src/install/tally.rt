//! What was done.
use install_plan::Batch;

/// How many entries were deleted and added, the sum of their cookies, and how many reports were taken, or
/// the sum of the cookies that were found.
#[derive(Clone, Copy)]
pub struct Tally {
    pub deletes: u64,
    pub adds: u64,
    pub cookies: u64,
    pub reported: u64,
}

impl Tally {
    pub fn new() -> Tally {
        Tally {
            deletes: 0,
            adds: 0,
            cookies: 0,
            reported: 0,
        }
    }

    /// Counts a batch too, and gives how many entries it adds.
    pub fn note(&mut self, batch: &Batch) -> u64 {
        for row in batch.deletes.as_slice() {
            self.deletes = self.deletes.wrapping_add(1);
            self.cookies = self.cookies.wrapping_add(row.cookie);
        }
        for row in batch.adds.as_slice() {
            self.adds = self.adds.wrapping_add(1);
            self.cookies = self.cookies.wrapping_add(row.cookie);
        }
        batch.adds.len() as u64
    }
}
