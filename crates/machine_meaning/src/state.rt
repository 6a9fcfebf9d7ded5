//! What the machine keeps, as plain data.
use cv_io::{Duplicate, Memory};
use member_table::Entry;

/// What SET_CONFIG gave in the present round.
#[derive(Clone, Copy, PartialEq, Eq, Debug)]
pub struct Config {
    pub flags: u16,
    pub miss_send_len: u16,
}

/// An entry that was removed, and whose FLOW_REMOVED is owed: why and when.
#[derive(PartialEq, Eq, Debug, Drop)]
pub struct Owed {
    pub member: u32,
    pub entry: Entry,
    pub reason: u8,
    pub moment: u64,
}

impl Duplicate for Owed {
    fn copy(&self) -> Result<Owed, Memory> {
        Ok(Owed {
            member: self.member,
            entry: self.entry.copy()?,
            reason: self.reason,
            moment: self.moment,
        })
    }
}
