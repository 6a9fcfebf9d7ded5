//! What a token of the lock knows. No value of these types is made: contracts speak of them.
use cv_io::List;

/// An entry of a history: an event, its reply, and the number of the seat that posted it.
pub struct Entry<E, R> {
    pub by: List<u64>,
    pub event: E,
    pub reply: R,
}

/// What a seat knows: a beginning of the history of its lock, and its own number.
pub struct Pass<E, R, S> {
    /// What the machine meant when the lock was opened. Every seat has it.
    pub start: Option<S>,
    /// Empty for the first seat; for the k-th seat split off another, k from 0, that one's behind k.
    pub number: List<u64>,
    /// How many seats were split off it.
    pub children: u64,
    /// The history that it has seen.
    pub seen: List<Entry<E, R>>,
}

/// The view of a token: a seat's, a note's or a spent one.
pub struct View<E, R, S> {
    /// It is a seat's, which has a number of its own.
    pub seated: bool,
    pub pass: Pass<E, R, S>,
    /// The history that a note tells of, or that a note told the seat.
    pub told: List<Entry<E, R>>,
    /// It has the machine.
    pub holds: bool,
    /// The seats that were gathered to close the lock.
    pub gathered: List<Pass<E, R, S>>,
}
