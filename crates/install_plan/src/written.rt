//! What is written to a switch.
use cv_io::{Duplicate, List, Memory};
use switch_meaning::PhysEntry;

/// An entry that is written to a switch, under its cookie.
#[derive(PartialEq, Eq, Debug, Drop)]
pub struct Written {
    pub entry: PhysEntry,
    pub cookie: u64,
}

/// What makes one table of another: the entries that are deleted, under the cookies under which they
/// stand, and after them those that are added, under new ones. Both go by rising priority, and then by
/// the bytes of the match.
#[derive(PartialEq, Eq, Debug, Drop)]
pub struct Batch {
    pub deletes: List<Written>,
    pub adds: List<Written>,
}

impl Duplicate for Written {
    fn copy(&self) -> Result<Written, Memory> {
        Ok(Written {
            entry: self.entry.copy()?,
            cookie: self.cookie,
        })
    }
}
