//! How endpoints are named in lines to the operator.
use outside::Endpoint;
use std::fmt::{self, Display, Formatter};

/// An endpoint, as a line to the operator names it: `member/0`, `switch/3`, by the numbers of the policy.
#[derive(Clone, Copy, PartialEq, Eq, Debug)]
pub enum EndpointName {
    Member { index: u32 },
    Switch { index: u32 },
    Standby,
    Lead,
}

impl EndpointName {
    pub fn of(end: &Endpoint) -> EndpointName {
        match end {
            Endpoint::Member { index, .. } => EndpointName::Member { index: *index },
            Endpoint::Switch { index, .. } => EndpointName::Switch { index: *index },
            Endpoint::Standby { .. } => EndpointName::Standby,
            Endpoint::Lead { .. } => EndpointName::Lead,
        }
    }
}

impl Display for EndpointName {
    fn fmt<W: fmt::Write>(&self, f: &mut Formatter<W>) -> fmt::Result {
        match self {
            EndpointName::Member { index } => write!(f, "member/{index}"),
            EndpointName::Switch { index } => write!(f, "switch/{index}"),
            EndpointName::Standby => f.write_str("standby"),
            EndpointName::Lead => f.write_str("lead"),
        }
    }
}
