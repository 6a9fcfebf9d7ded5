//! What is known of a proxy that serves.
use cv_io::{List, Text};

/// How an endpoint is.
#[derive(Drop, Debug)]
pub enum State {
    /// It has a connection: with whom, and for how many seconds.
    Up { peer: Text, seconds: u64 },
    /// It has none now.
    Waiting,
    /// It has none, and gets no more.
    Spent,
}

/// An endpoint.
#[derive(Drop, Debug)]
pub struct EndpointStatus {
    /// Its name in lines to the operator, as `member/0`.
    pub name: Text,
    /// Where it is connected to, or connects.
    pub address: Text,
    pub state: State,
    /// How many connections it had.
    pub had: u64,
    /// How many more it may have.
    pub left: u64,
    /// How many bytes were read of them in all.
    pub read: u64,
    /// How many were written.
    pub written: u64,
}

/// How many connections were refused for a cause.
#[derive(Drop, Debug)]
pub struct Refused {
    pub cause: Text,
    pub times: u64,
}

/// A proxy that serves.
#[derive(Drop, Debug)]
pub struct Status {
    /// When it began, in seconds since the start of 1970.
    pub began: u64,
    /// How many seconds ago that is.
    pub seconds: u64,
    pub endpoints: List<EndpointStatus>,
    /// How many connections have not said yet which switch they are.
    pub strangers: u64,
    pub refused: List<Refused>,
}
