//! Actions of OpenFlow 1.0 (section 5.2.4 of the OpenFlow Switch Specification 1.0.0): their bytes,
//! the rewrites of headers that they make, and the effects of a list of them.
#![tactic(auto)]

pub mod action;
pub mod effects;
pub mod fault;
pub mod kind;
pub mod laws;
pub mod meaning;
pub mod number;
pub mod port;
pub mod reading;
pub mod rewrite;
pub mod writing;

pub use action::{Action, are_in_range};
pub use effects::{ACTION, Dest, Effects, NO_MATCH, Out, PortView, Tail};
pub use fault::ActionFault;
pub use kind::Kind;
pub use reading::read_list;
pub use rewrite::Rewrite;
pub use writing::{list_length, write_actions, write_list};
