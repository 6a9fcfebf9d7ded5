//! Headers of packets and matches of OpenFlow 1.0, and what a match holds (section 5.2.3 of the
//! OpenFlow Switch Specification 1.0.0). All types are plain and `Copy`: a copy takes no memory.
#![tactic(auto)]

mod display;
pub mod header;
pub mod laws;
mod matching;
mod normal;
pub mod ofp_match;
mod reading;
mod writing;

pub use header::{Header, Match, Prefix};
pub use normal::{ARP, EXACT_RANK, ICMP, IPV4, Read, TCP, UDP, UNTAGGED, rank};
pub use ofp_match::OfpMatch;
pub use reading::read;
