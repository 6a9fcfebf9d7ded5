//! Replies with statistics.
ghost use Rattle.std.specs.Prelude.{◌≡◌, ◌<◌, ◌^◌};
ghost use Rattle.of10_stats.specs.Kinds.{reply_kind};
ghost use Rattle.of10_stats.specs.Spelling.{entry_size};

use crate::kind::StatsKind;
use cv_io::{Bytes, List};
use of10_msgs::MATCH;

/// How many bytes the name of a table takes (`OFP_MAX_TABLE_NAME_LEN`).
pub const NAME: usize = 32;

/// A reply with statistics (`ofp_stats_reply`), or a part of one.
#[derive(PartialEq, Eq, Debug, Drop)]
pub struct StatsReply {
    /// Whether parts of the reply follow (`OFPSF_REPLY_MORE`).
    pub more: bool,
    pub body: ReplyBody,
}

/// What a reply tells, by the type of the statistics.
#[derive(PartialEq, Eq, Debug, Drop)]
pub enum ReplyBody {
    /// The texts of `ofp_desc_stats`, of 256, 256, 256, 32 and 256 bytes.
    Desc {
        texts: List<Bytes>,
    },
    Flow {
        entries: List<FlowStat>,
    },
    /// The sums of `ofp_aggregate_stats_reply`.
    Aggregate {
        packets: u64,
        bytes: u64,
        flows: u32,
    },
    /// One table (`ofp_table_stats`).
    Table {
        table_id: u8,
        name: [u8; NAME],
        wildcards: u32,
        max_entries: u32,
        active: u32,
        lookup: u64,
        matched: u64,
    },
    Port {
        ports: List<PortStat>,
    },
}

/// An entry of a flow table and its counts (`ofp_flow_stats`). Its match is 40 bytes with zero padding;
/// its actions are not read.
#[derive(PartialEq, Eq, Debug, Drop)]
pub struct FlowStat {
    pub table_id: u8,
    pub m: [u8; MATCH],
    /// How long it has been there, in seconds, and the nanoseconds beyond them.
    pub duration_sec: u32,
    pub duration_nsec: u32,
    pub priority: u16,
    /// Seconds without a packet until it goes; 0 for none.
    pub idle: u16,
    /// Seconds until it goes; 0 for none.
    pub hard: u16,
    pub cookie: u64,
    pub packets: u64,
    pub bytes: u64,
    pub actions: Bytes,
}

/// The counts of a port (`ofp_port_stats`); all ones where a count is not kept.
#[derive(Clone, Copy, PartialEq, Eq, Debug)]
pub struct PortStat {
    pub port_no: u16,
    pub rx_packets: u64,
    pub tx_packets: u64,
    pub rx_bytes: u64,
    pub tx_bytes: u64,
    pub rx_dropped: u64,
    pub tx_dropped: u64,
    pub rx_errors: u64,
    pub tx_errors: u64,
    pub rx_frame_err: u64,
    pub rx_over_err: u64,
    pub rx_crc_err: u64,
    pub collisions: u64,
}

impl ReplyBody {
    /// The type of the statistics.
    pub fn kind(&self) -> StatsKind
        ensures { result ≡ reply_kind self.now }
    {
        match self {
            ReplyBody::Desc { .. } => StatsKind::Desc,
            ReplyBody::Flow { .. } => StatsKind::Flow,
            ReplyBody::Aggregate { .. } => StatsKind::Aggregate,
            ReplyBody::Table { .. } => StatsKind::Table,
            ReplyBody::Port { .. } => StatsKind::Port,
        }
    }
}

impl FlowStat {
    /// How many bytes it takes in a reply.
    pub fn length(&self) -> usize
        requires { entry_size self.now < 2 ^ 64 }
        ensures { result ≡ entry_size self.now }
    {
        48 + self.m.len() + self.actions.len()
    }
}
