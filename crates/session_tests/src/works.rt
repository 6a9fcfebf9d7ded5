//! The works, over connections in memory and a desk that keeps what is posted.
mod audits;
mod desks;
mod rounds;
