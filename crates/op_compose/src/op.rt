//! The ways in which rules are composed.

/// What makes one rule of two.
#[derive(Clone, Copy, PartialEq, Eq, Debug)]
pub enum Op {
    /// Both act: `+`.
    Par,
    /// The right acts on what the left passes on: `>>`.
    Seq,
    /// The left acts where an entry of its own does, else the right: `|>`.
    Over,
    /// The right acts where the left's link leads.
    Hop,
}

/// An operand.
#[derive(Clone, Copy, PartialEq, Eq, Debug)]
pub enum Side {
    Left,
    Right,
}
