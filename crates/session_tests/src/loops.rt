//! The openings and the loops, over sources and sinks in memory and a desk that keeps what is posted.
mod desks;
mod openings;
mod readers;
mod writers;
