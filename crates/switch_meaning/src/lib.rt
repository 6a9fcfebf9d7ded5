//! What a switch does: its table after changes, the entries that it may use for a packet, what
//! firing one gives, and where a packet gets to over cables. And what is put on a switch for a
//! policy: the entry of a rule, the fixed entries, one entry a key, and the change from one table to
//! the next.
#![tactic(auto)]

pub mod batching;
pub mod choosing;
pub mod entry;
pub mod fired;
pub mod firing;
pub mod fixed;
pub mod following;
pub mod keys;
pub mod laws;
pub mod placing;
pub mod ranges;
pub mod table;
pub mod wiring;
pub mod worked;

pub use batching::{difference, is_same};
pub use choosing::{Reading, usable};
pub use entry::{Change, Difference, FlatRule, FlowEntry, PhysEntry, Site};
pub use fired::{Copied, Fired, Left, Seen, Sent};
pub use firing::fire;
pub use fixed::{drops, fixed_entries, guards, transits};
pub use following::Switches;
pub use keys::{installed, one_per_key};
pub use placing::{Way, place};
pub use ranges::{are_tables_in_range, are_tags_in_range};
pub use table::table_after;
pub use wiring::{Cable, NextHop, Outside, SwitchPort, Wiring};
