//! Serving live connections: a lock is opened over a machine of sessions, two works for each endpoint and one for the
//! audit post to it beside one another, and all that the audit has is written.
#![tactic(auto)]

mod attending;
mod closing;
mod dialling;
mod gathering;
mod laws;
mod place;
mod run;
mod staff;
mod working;

pub use laws::{cut_only_where_closed, done_serves_all};
pub use place::Place;
pub use run::{Served, serve};
