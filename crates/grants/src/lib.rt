//! What a member may do: the fields and actions of its grant, its visible ports and its region, and the
//! denial of a message that goes beyond (sections 5.3 and 5.4.4 of the OpenFlow Switch Specification
//! 1.0.0 have the messages and the errors). Nothing here takes memory but a copy of a grant.
#![tactic(auto)]

mod actions;
mod bits;
mod check;
pub mod denial;
pub mod field;
pub mod grant;
pub mod kind;
pub mod laws;
mod matches;
pub mod worked;

pub use check::{check_flow, check_kind, check_out};
pub use denial::{Denial, Detail, Rule2, Why};
pub use field::Field;
pub use grant::{Grant, in_region, sees, sees_all};
pub use kind::Kind;
