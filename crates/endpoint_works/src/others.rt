//! How many works still run.
use std::sync::atomic::{AtomicU64, Ordering};

/// How many works beside the audit's still run. A count of this kind bears no proof: the audit's work only ends by it.
#[derive(Drop)]
pub struct Others {
    running: AtomicU64,
}

impl Others {
    pub fn new(count: u64) -> Self {
        Others {
            running: AtomicU64::new(count),
        }
    }

    /// One work has ended.
    pub fn end_one(&self) {
        self.running.fetch_sub(1, Ordering::SeqCst);
    }

    /// Whether all have.
    pub fn have_ended(&self) -> bool {
        self.running.load(Ordering::SeqCst) == 0
    }
}
