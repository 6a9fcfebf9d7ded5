//! What an event does to members, switches and expressions, drafted beside what the machine holds.
#![tactic(auto)]

pub mod answering;
pub mod beginning;
pub mod copying;
pub mod counting;
pub mod exprs_draft;
pub mod held;
pub mod looking;
pub mod member_draft;
pub mod outcome;
pub mod owing;
pub mod polls;
pub mod session;
pub mod sessions;
pub mod settings;
pub mod setup;
pub mod switch_draft;
pub mod ways;
