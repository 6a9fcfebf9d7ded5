//! What a policy means for one header: of a member's table, of an expression, and on the way over
//! virtual switches; the rules that stand for it; and the laws that tie the two.
#![tactic(auto)]

mod composing;
pub mod evaluation;
mod fabric;
mod hops;
pub mod laws;
pub mod leaf;
mod leaf_rules;
pub mod meaning;
pub mod network;
mod order;
mod push;
pub mod rule;
mod scratch;
pub mod walking;
pub mod worked;

pub use composing::{chain_rule, lifted, sum_rule};
pub use evaluation::evaluate;
pub use fabric::{Entering, entering_rules, hop_size, node_rules, switch_rules};
pub use hops::{at_node, hop_lone, hop_rule};
pub use leaf::{LeafEntry, LeafTable};
pub use leaf_rules::rule_met;
pub use meaning::Meaning;
pub use network::{Link, Network, Onward, Place, VirtualSwitch};
pub use order::listed;
pub use rule::Rule;
pub use scratch::{Composed, expression_rules, expression_size, tables_fit};
pub use walking::{PortOut, Told, Walked, walk};
