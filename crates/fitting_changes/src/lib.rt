//! A compiled expression of two or four members that tells of each change of their rules whether it can take it. The
//! tests of changes and the benchmark of composition change one, and show how `incr_compile` is called.
#![tactic(auto)]

mod composer;
mod shape;

pub use composer::{Composer, fits_in};
pub use shape::Shape;
