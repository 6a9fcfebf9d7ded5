//! What members are sent, and what the audit is told, each made of plain records: answers about the
//! virtual switch and its ports, packets, removed entries, statistics, and refusals (sections 5.3 to 5.5
//! of the OpenFlow Switch Specification 1.0.0).
#![tactic(auto)]

pub mod answers;
pub mod audit;
pub mod counting;
mod features;
mod filling;
pub mod filter;
pub mod flows;
pub mod laws;
pub mod packets;
pub mod ports;
pub mod refusals;
pub mod statistics;
pub mod worked;

pub use answers::{barrier_reply, config_reply, echo_reply, features_reply, port_status};
pub use audit::{down_line, note_line, policy_line, slow_line};
pub use counting::EntryCounts;
pub use filter::Filter;
pub use flows::{aggregate_reply, flow_reply};
pub use packets::{flow_removed, packet_in};
pub use ports::visible;
pub use refusals::{deny_line, error};
pub use statistics::{desc_reply, port_reply, table_reply};
