//! Parts of a change.

/// What went, or what came.
#[derive(Clone, Copy, PartialEq, Eq, Debug)]
pub enum Part {
    Gone,
    Come,
}
