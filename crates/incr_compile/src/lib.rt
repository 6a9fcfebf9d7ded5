//! The rules of an expression, kept under changes of its members' rules. A tree has at its leaves the rules
//! of members, at each operator a node with what it made of the rules of its two operands. A change of a
//! member goes up from there: what comes to an operand is joined with the rules of the other that it could
//! meet, which an index of matches finds, and what goes takes along what was made of it. Each pair that is
//! joined is one step. From scratch all that could meet is found in threads, and then joined in order.
#![tactic(auto)]

mod building;
mod candidates;
pub mod compiled;
mod found;
pub mod joining;
pub mod laws;
pub mod making;
mod member;
pub mod node;
mod showing;
mod telling;
pub mod tree;

pub use compiled::{Compiled, LeafDelta};
pub use joining::{left_rule, right_rule};
pub use making::{made_by_left, made_by_right};
