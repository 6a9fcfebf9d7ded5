//! Who is at the other end of an endpoint's connections.
use cv_io::List;

/// Who is at the other end of an endpoint's connections.
#[derive(Drop, Debug)]
pub enum Side {
    /// The controller of a member, by its number.
    Member { index: u32 },
    /// Any of the switches: each tells in its FEATURES_REPLY which of these datapath ids is its own.
    Switch { dpids: List<u64> },
}
