//! Rows that stand, parted into those that go and those that stay.
ghost use Rattle.std.specs.Prelude.{◌≡◌, ◌++◌, [], ◌∷◌, if◌then◌else◌, OnOk, not};

use cv_io::{Duplicate, List, Memory};
use install_plan::Written;
use std::alloc::Global;

/// The rows that go, and those that stay, each in the order in which they stand.
#[derive(Debug, Drop)]
pub(crate) struct Parted {
    pub(crate) going: List<Written>,
    pub(crate) staying: List<Written>,
}

impl Parted {
    /// No rows yet.
    pub(crate) fn new(alloc: Global) -> Parted
        ensures going { result.going ≡ [] }
        ensures staying { result.staying ≡ [] }
    {
        Parted {
            going: List::new(alloc),
            staying: List::new(alloc),
        }
    }

    /// Appends a copy of a row to those that stay, or to those that go.
    pub(crate) fn push(&mut self, stays: bool, written: &Written) -> Result<(), Memory>
        ensures going { OnOk result (self.new.going
            ≡ self.old.going ++ (if not stays then written.now ∷ [] else [])) }
        ensures staying { OnOk result (self.new.staying
            ≡ self.old.staying ++ (if stays then written.now ∷ [] else [])) }
    {
        let copied = written.copy()?;
        if stays {
            self.staying.push(copied)
        } else {
            self.going.push(copied)
        }
    }
}
