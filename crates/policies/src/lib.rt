//! Policies: switches, virtual switches and the controllers that share them, what holds of each policy, what is made of
//! it, and why one is refused.
#![tactic(auto)]

mod fault;
mod numbers;
mod policy;
mod port_views;
mod showing;
mod switch_exprs;
mod terse;
mod wide;

pub use fault::PolicyFault;
pub use numbers::number;
pub use policy::{MemberItem, Policy, all_ports};
pub use port_views::{has_port, view};
pub use showing::push_word;
pub use switch_exprs::{exprs, names};
pub use terse::expr_kind;
pub use wide::check_widths;
