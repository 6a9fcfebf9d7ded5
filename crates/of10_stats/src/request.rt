//! Requests for statistics.
ghost use Rattle.std.specs.Prelude.{◌≡◌};
ghost use Rattle.of10_stats.specs.Kinds.{request_kind};

use crate::kind::StatsKind;
use of10_msgs::MATCH;

/// A request for statistics (`ofp_stats_request`). A match is its 40 bytes with zero padding.
#[derive(Clone, Copy, PartialEq, Eq, Debug)]
pub enum StatsRequest {
    /// What the switch is.
    Desc,
    /// Each entry that the filter covers (`ofp_flow_stats_request`).
    Flow {
        m: [u8; MATCH],
        table_id: u8,
        out_port: u16,
    },
    /// The sums over the entries that the filter covers (`ofp_aggregate_stats_request`).
    Aggregate {
        m: [u8; MATCH],
        table_id: u8,
        out_port: u16,
    },
    /// What the tables hold.
    Table,
    /// The counts of a port, or of each port (`ofp_port_stats_request`).
    Port {
        port_no: u16,
    },
}

impl StatsRequest {
    /// The type of the statistics.
    pub fn kind(&self) -> StatsKind
        ensures { result ≡ request_kind self.now }
    {
        match self {
            StatsRequest::Desc => StatsKind::Desc,
            StatsRequest::Flow { .. } => StatsKind::Flow,
            StatsRequest::Aggregate { .. } => StatsKind::Aggregate,
            StatsRequest::Table => StatsKind::Table,
            StatsRequest::Port { .. } => StatsKind::Port,
        }
    }
}
