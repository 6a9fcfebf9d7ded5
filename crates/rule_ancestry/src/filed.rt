//! What a store finds by names.
ghost use Rattle.std.specs.Prelude.{◌≡◌, List};

use cv_io::{Duplicate, Leaf, Memory, Named};
use std::marker::Model;

/// What is found by names.
pub trait Filed: Duplicate {
    type Name: Ord + Copy;

    // The names that it bears.
    ghost borne: { Self → List Self.Name };

    /// The names that it bears.
    fn names(&self) -> &[Self::Name]
        ensures { result.now ≡ borne self.now };
}

/// What is made of leaves, found by them.
#[derive(Drop)]
pub struct ByLeaves<R> {
    pub item: R,
}

impl<R> Model for ByLeaves<R> {
    ghost Value = { R };

    ghost view = { λ filed. filed.item };
}

impl<R: Duplicate> Duplicate for ByLeaves<R> {
    fn copy(&self) -> Result<ByLeaves<R>, Memory> {
        Ok(ByLeaves {
            item: self.item.copy()?,
        })
    }
}

impl<R: Named> Filed for ByLeaves<R> {
    type Name = Leaf;

    ghost borne = { R.leaves };

    fn names(&self) -> &[Leaf] {
        self.item.ancestry().as_slice()
    }
}
