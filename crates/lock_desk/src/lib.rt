//! The policy lock as a desk of `sessions`: what sessions post becomes entries of the lock's one history.
//!
//! A machine whose events and replies are those of `events` is one of sessions where it answers them as a [`Host`]
//! says. Over the lock of such a machine a [`LockDesk`] posts for a seat.
#![tactic(auto)]

mod answers;
mod bells;
mod desk;
mod host;
mod posting;

pub use bells::Bells;
pub use desk::LockDesk;
pub use host::Host;
pub use posting::post;
