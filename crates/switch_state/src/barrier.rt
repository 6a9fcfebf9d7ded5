//! Barriers that wait for their answers.

/// A BARRIER_REQUEST that a switch hasn't answered: its number in the round, counted from 1, and its xid.
#[derive(Clone, Copy, PartialEq, Eq, Debug)]
pub struct Barrier {
    pub number: u64,
    pub xid: u32,
}
