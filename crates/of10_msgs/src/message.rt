//! Messages.
ghost use Rattle.std.specs.Prelude.{◌≡◌};
ghost use Rattle.of10_msgs.specs.Bodies.{kind_of};

use crate::kind::Kind;
use cv_io::{Bytes, List};
use of10_actions::Action;

/// How many bytes a match takes in a message (`ofp_match`, section 5.2.3).
pub const MATCH: usize = 40;

/// One message: its transaction id, and what it says.
#[derive(PartialEq, Eq, Debug, Drop)]
pub struct Message {
    pub xid: u32,
    pub body: Body,
}

/// What a message says, by its type. There is none for VENDOR, which is always refused. A match is
/// its 40 bytes with zero padding; `bytes` are all bytes that follow.
#[derive(PartialEq, Eq, Debug, Drop)]
pub enum Body {
    Hello {
        bytes: Bytes,
    },
    Error {
        kind: u16,
        code: u16,
        bytes: Bytes,
    },
    EchoRequest {
        bytes: Bytes,
    },
    EchoReply {
        bytes: Bytes,
    },
    FeaturesRequest,
    FeaturesReply {
        datapath_id: u64,
        n_buffers: u32,
        n_tables: u8,
        capabilities: u32,
        actions: u32,
        ports: List<PhyPort>,
    },
    GetConfigRequest,
    GetConfigReply {
        flags: u16,
        miss_send_len: u16,
    },
    SetConfig {
        flags: u16,
        miss_send_len: u16,
    },
    PacketIn {
        buffer_id: u32,
        total_len: u16,
        in_port: u16,
        reason: u8,
        bytes: Bytes,
    },
    FlowRemoved {
        m: [u8; MATCH],
        cookie: u64,
        priority: u16,
        reason: u8,
        duration_sec: u32,
        duration_nsec: u32,
        idle_timeout: u16,
        packet_count: u64,
        byte_count: u64,
    },
    PortStatus {
        reason: u8,
        port: PhyPort,
    },
    PacketOut(PacketOut),
    FlowMod(FlowMod),
    /// All that follows the header.
    PortMod {
        bytes: Bytes,
    },
    /// The type of the statistics and all that follows it.
    StatsRequest {
        body: Bytes,
    },
    /// The type of the statistics and all that follows it.
    StatsReply {
        body: Bytes,
    },
    BarrierRequest,
    BarrierReply,
    /// All that follows the header.
    QueueGetConfigRequest {
        bytes: Bytes,
    },
    /// All that follows the header.
    QueueGetConfigReply {
        bytes: Bytes,
    },
}

/// A change of a flow table (`ofp_flow_mod`, section 5.3.3).
#[derive(PartialEq, Eq, Debug, Drop)]
pub struct FlowMod {
    pub m: [u8; MATCH],
    pub cookie: u64,
    pub command: u16,
    pub idle_timeout: u16,
    pub hard_timeout: u16,
    pub priority: u16,
    pub buffer_id: u32,
    pub out_port: u16,
    pub flags: u16,
    pub actions: List<Action>,
}

/// A packet that a switch is to send (`ofp_packet_out`, section 5.3.6).
#[derive(PartialEq, Eq, Debug, Drop)]
pub struct PacketOut {
    pub buffer_id: u32,
    pub in_port: u16,
    pub actions: List<Action>,
    pub bytes: Bytes,
}

/// A port of a switch (`ofp_phy_port`, section 5.2.1). Its Ethernet address is below 2^48.
#[derive(Clone, Copy, PartialEq, Eq, Debug)]
pub struct PhyPort {
    pub port_no: u16,
    pub hw_addr: u64,
    pub name: [u8; 16],
    pub config: u32,
    pub state: u32,
    pub curr: u32,
    pub advertised: u32,
    pub supported: u32,
    pub peer: u32,
}

impl Body {
    /// The type of the message.
    pub fn kind(&self) -> Kind
        ensures { result ≡ kind_of self.now }
    {
        match self {
            Body::Hello { .. } => Kind::Hello,
            Body::Error { .. } => Kind::Error,
            Body::EchoRequest { .. } => Kind::EchoRequest,
            Body::EchoReply { .. } => Kind::EchoReply,
            Body::FeaturesRequest => Kind::FeaturesRequest,
            Body::FeaturesReply { .. } => Kind::FeaturesReply,
            Body::GetConfigRequest => Kind::GetConfigRequest,
            Body::GetConfigReply { .. } => Kind::GetConfigReply,
            Body::SetConfig { .. } => Kind::SetConfig,
            Body::PacketIn { .. } => Kind::PacketIn,
            Body::FlowRemoved { .. } => Kind::FlowRemoved,
            Body::PortStatus { .. } => Kind::PortStatus,
            Body::PacketOut(..) => Kind::PacketOut,
            Body::FlowMod(..) => Kind::FlowMod,
            Body::PortMod { .. } => Kind::PortMod,
            Body::StatsRequest { .. } => Kind::StatsRequest,
            Body::StatsReply { .. } => Kind::StatsReply,
            Body::BarrierRequest => Kind::BarrierRequest,
            Body::BarrierReply => Kind::BarrierReply,
            Body::QueueGetConfigRequest { .. } => Kind::QueueGetConfigRequest,
            Body::QueueGetConfigReply { .. } => Kind::QueueGetConfigReply,
        }
    }
}
