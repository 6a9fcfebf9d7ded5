//! The endpoints of a run.
use endpoint_works::Side;
use outside::Endpoint;

/// An endpoint, and who is at the other end of its connections.
#[derive(Drop, Debug)]
pub struct Place {
    pub end: Endpoint,
    pub side: Side,
}
