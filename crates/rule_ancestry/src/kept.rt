//! What a store holds, as its slab clones it.
ghost use Rattle.std.specs.Prelude.{◌≡◌};

use cv_io::Duplicate;
use std::alloc::AllocError;
use std::marker::Model;

/// An item that is cloned by copying it.
#[derive(Drop)]
pub(crate) struct Kept<R> {
    pub(crate) item: R,
}

impl<R> Model for Kept<R> {
    ghost Value = { R };

    ghost view = { λ kept. kept.item };
}

impl<R: Duplicate + Drop> Clone for Kept<R> {
    ghost is_clone = { λ a b. b ≡ a };

    fn clone(&self) -> Result<Self, AllocError> {
        match self.item.copy() {
            Ok(item) => Ok(Kept { item }),
            Err(_) => Err(AllocError),
        }
    }
}
