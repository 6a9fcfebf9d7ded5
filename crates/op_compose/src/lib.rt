//! Composed rules: the rule of an entry, the rule that two rules make under an operator or over a
//! link, and the rule that stands alone in its place. Joining and lifting are what composition costs:
//! each counts one step.
#![tactic(auto)]

pub mod delta;
pub mod joining;
pub mod laws;
pub mod lifting;
pub mod op;
pub mod single;

pub use delta::RuleDelta;
pub use joining::join;
pub use lifting::lift;
pub use op::{Op, Side};
pub use policy_meaning::Rule;
pub use single::leaf;
