//! Indexes are copied.
use crate::index::Index;
use cv_io::{Duplicate, Memory};

impl Duplicate for Index {
    fn copy(&self) -> Result<Index, Memory> {
        let mut copied = Index::new(self.alloc);
        copied.reserve(self.held.len())?;
        for item in self.held.values() {
            copied.put(item.id, item.rank, &item.normal);
        }
        copied.reserve(self.room)?;
        Ok(copied)
    }
}
