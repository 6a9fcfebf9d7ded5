//! Where both meanings meet: the entries of each switch, from scratch of tables, levels, expressions
//! and links, and the law that switches with these entries do with each packet what the policy says.
#![tactic(auto)]

pub mod entries;
pub mod laws;
pub mod seeing;
pub mod state;
pub mod tables;
pub mod worked;

pub use entries::{flat, levels_fit, placed};
pub use seeing::expected;
pub use state::{PhysicalSwitch, Setting};
pub use tables::{entries_of, table_of};
