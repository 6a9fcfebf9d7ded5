//! Frames of Ethernet as bytes: the header that OpenFlow 1.0 reads of them (section 3.4 of the OpenFlow
//! Switch Specification 1.0.0), and rewrites of their fields with the checksums mended (RFC 1624).
#![tactic(auto)]

mod checksum;
mod header;
mod ipv4;
pub mod laws;
mod link;
mod numbers;
mod rewriting;

pub use header::header_of;
pub use rewriting::rewrite;
