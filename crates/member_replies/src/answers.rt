//! Answers about the virtual switch (sections 5.3.1, 5.3.2, 5.4.3 and 5.5 of the standard).
ghost use Rattle.std.specs.Prelude.{◌≡◌, ◌<◌, ◌+◌, ◌^◌, IfOk, length};
ghost use Rattle.of10_msgs.specs.Spelling.{spelling};
ghost use Rattle.of10_msgs.specs.declared.message.Body.{Body};
ghost use Rattle.member_replies.specs.Ports.{HasFewPorts};
ghost use Rattle.member_replies.specs.Switches.{config, echo, features, port_changed};

use crate::features::{actions_of, shown_ports};
use crate::ports::port_of;
use cv_io::{Bytes, Memory};
use grants::Grant;
use of10_msgs::number::PORT_MODIFIED;
use of10_msgs::{Body, Message, write_message};
use std::alloc::Global;

/// What a virtual switch can do: OFPC_FLOW_STATS, OFPC_TABLE_STATS, OFPC_PORT_STATS and OFPC_ARP_MATCH_IP.
const CAPABILITIES: u32 = 0x87;

/// The FEATURES_REPLY of the virtual switch of a number to a member, to which these ports are dark.
pub fn features_reply(
    alloc: Global,
    xid: u32,
    dpid: u64,
    g: &Grant,
    v: u16,
    dark: &[u16],
) -> Result<Bytes, Memory>
    requires { HasFewPorts g.now.ports }
    ensures { IfOk result (λ bytes. bytes ≡ spelling (record { xid = xid; body = features dpid g.now v dark.now })) }
{
    let body = Body::FeaturesReply {
        datapath_id: dpid,
        n_buffers: 0,
        n_tables: 1,
        capabilities: CAPABILITIES,
        actions: actions_of(g),
        ports: shown_ports(alloc, g, v, dark)?,
    };
    write_message(alloc, &Message { xid, body })
}

/// The PORT_STATUS of a port of the virtual switch of a number that went dark, or is no longer dark.
pub fn port_status(
    alloc: Global,
    v: u16,
    port: u16,
    is_link: bool,
    is_dark: bool,
) -> Result<Bytes, Memory>
    ensures { IfOk result (λ bytes. bytes ≡ spelling (record { xid = 0; body = port_changed v port is_link is_dark })) }
{
    let body = Body::PortStatus {
        reason: PORT_MODIFIED,
        port: port_of(alloc, v, port, is_link, is_dark)?,
    };
    write_message(alloc, &Message { xid: 0, body })
}

/// The GET_CONFIG_REPLY of what SET_CONFIG last gave.
pub fn config_reply(
    alloc: Global,
    xid: u32,
    flags: u16,
    miss_send_len: u16,
) -> Result<Bytes, Memory>
    ensures { IfOk result (λ bytes. bytes ≡ spelling (record { xid = xid; body = config flags miss_send_len })) }
{
    let body = Body::GetConfigReply {
        flags,
        miss_send_len,
    };
    write_message(alloc, &Message { xid, body })
}

/// The ECHO_REPLY to a request with these bytes.
pub fn echo_reply(alloc: Global, xid: u32, bytes: Bytes) -> Result<Bytes, Memory>
    requires { 8 + length bytes < 2 ^ 16 }
    ensures { IfOk result (λ message. message ≡ spelling (record { xid = xid; body = echo bytes })) }
{
    let body = Body::EchoReply { bytes };
    write_message(alloc, &Message { xid, body })
}

/// The BARRIER_REPLY.
pub fn barrier_reply(alloc: Global, xid: u32) -> Result<Bytes, Memory>
    ensures { IfOk result (λ bytes. bytes ≡ spelling (record { xid = xid; body = Body.BarrierReply })) }
{
    let body = Body::BarrierReply;
    write_message(alloc, &Message { xid, body })
}
