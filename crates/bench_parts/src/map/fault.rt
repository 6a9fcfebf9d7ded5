//! Why nothing was measured.
use cv_io::Memory;
use member_table::TableFault;
use policy_expr::ExprFault;
use thiserror::Error;
use virtual_topology::TopologyFault;

/// Why nothing was measured.
#[derive(Debug, Drop, Error)]
pub enum Fault {
    #[error("the topology: {0}")]
    Topology(#[from] TopologyFault),
    #[error("the expression: {0}")]
    Expression(#[from] ExprFault),
    #[error("an entry: {0}")]
    Entry(#[from] TableFault),
    #[error("the expression isn't of ASCII")]
    Text,
    #[error("ports don't rise")]
    Ports,
    #[error("out of memory")]
    Memory,
}

impl From<Memory> for Fault {
    fn from(_wanted: Memory) -> Fault {
        Fault::Memory
    }
}
