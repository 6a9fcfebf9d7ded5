//! What changes made.
use member_table::Change;

/// How many entries came, got other actions and went, and the sum of the serial numbers of those that
/// went.
#[derive(Clone, Copy)]
pub struct Counts {
    pub added: u64,
    pub modified: u64,
    pub deleted: u64,
    pub serials: u64,
}

/// Before any change.
pub const NOTHING: Counts = Counts {
    added: 0,
    modified: 0,
    deleted: 0,
    serials: 0,
};

impl Counts {
    /// Counts a change too.
    pub fn add(&mut self, change: &Change) {
        self.added = self.added.wrapping_add(u64::from(change.added.is_some()));
        self.modified = self.modified.wrapping_add(change.modified.len() as u64);
        for serial in change.removed.as_slice() {
            self.deleted = self.deleted.wrapping_add(1);
            self.serials = self.serials.wrapping_add(*serial);
        }
    }
}
