//! A frame of a member is read, and refused or accepted, before anything is done.
ghost use Rattle.std.specs.Prelude.{◌≡◌, None, Ok, IfErr, IfOk, OnOk};
ghost use Rattle.of10_frames.specs.Frames.{IsFrame};
ghost use Rattle.of10_msgs.specs.Ranges.{CanWrite};
ghost use Rattle.grants.specs.Rows.{kind_row};
ghost use Rattle.member_state.specs.Denials.{IsFaultOf};
ghost use Rattle.machine_meaning.specs.Denials.{body_row, denial};
ghost use Rattle.event_acts.specs.InsideJudging.{Asks, IsJudged, IsServed};

use crate::denials::{form_fault, statistics_fault};
use cv_io::{Bytes, Memory};
use grants::{Denial, Grant, check_kind, check_out};
use machine_meaning::Config;
use member_state::{FlowFault, MemberState, Planned};
use of10_actions::PortView;
use of10_msgs::{Body, FlowMod, Message, PacketOut, read_of_controller};
use of10_stats::{StatsRequest, read_request};
use pkt_bytes::header_of;
use std::alloc::Global;

/// What a member asks for.
#[derive(Debug, Drop)]
pub enum Request {
    Echo { bytes: Bytes },
    Features,
    GetConfig,
    SetConfig { config: Config },
    PacketOut(PacketOut),
    /// A change of its table, as it was judged, and what it plans.
    FlowMod { change: FlowMod, planned: Planned },
    Statistics(StatsRequest),
    Barrier,
    /// Messages of other types are heard, and nothing is done.
    Nothing,
}

/// What comes of a member's frame.
#[derive(Debug, Drop)]
pub enum Judged {
    Refused(Denial),
    Served { xid: u32, request: Request },
}

/// A FLOW_MOD, with what it plans.
fn ask_flow_mod(
    g: &Grant,
    v: &PortView,
    kept: &mut MemberState,
    change: FlowMod,
    now: u64,
) -> Result<Request, FlowFault>
    requires { CanWrite (Body.FlowMod change) }
    ensures accepted { OnOk result (body_row g.now v.now kept.old.state (Body.FlowMod change) ≡ None) }
    ensures request { IfOk result (Asks kept.new now (Body.FlowMod change)) }
    ensures fault { IfErr result (IsFaultOf (body_row g.now v.now kept.old.state (Body.FlowMod change))) }
    ensures state { kept.new.state ≡ kept.old.state }
{
    let planned = kept.judge(g, v, &change, now)?;
    Ok(Request::FlowMod { change, planned })
}

/// A PACKET_OUT, if its sender may send it.
fn ask_packet_out(
    g: &Grant,
    v: &PortView,
    kept: &MemberState,
    m: PacketOut,
    now: u64,
) -> Result<Request, FlowFault>
    requires { CanWrite (Body.PacketOut m) }
    ensures accepted { OnOk result (body_row g.now v.now kept.now.state (Body.PacketOut m) ≡ None) }
    ensures request { IfOk result (Asks kept.now now (Body.PacketOut m)) }
    ensures fault { IfErr result (IsFaultOf (body_row g.now v.now kept.now.state (Body.PacketOut m))) }
{
    check_out(g, v, &m, &header_of(m.bytes.as_slice(), m.in_port))?;
    Ok(Request::PacketOut(m))
}

/// A request for statistics, if it can be read.
fn ask_statistics(
    g: &Grant,
    v: &PortView,
    kept: &MemberState,
    body: Bytes,
    now: u64,
) -> Result<Request, FlowFault>
    requires { CanWrite (Body.StatsRequest body) }
    ensures accepted { OnOk result (body_row g.now v.now kept.now.state (Body.StatsRequest body) ≡ None) }
    ensures request { IfOk result (Asks kept.now now (Body.StatsRequest body)) }
    ensures fault { IfErr result (IsFaultOf (body_row g.now v.now kept.now.state (Body.StatsRequest body))) }
{
    match read_request(body.as_slice()) {
        Ok(request) => Ok(Request::Statistics(request)),
        Err(fault) => Err(statistics_fault(fault)),
    }
}

/// What a message of a member asks for, or the first rule that refuses it.
fn ask(
    g: &Grant,
    v: &PortView,
    kept: &mut MemberState,
    body: Body,
    now: u64,
) -> Result<Request, FlowFault>
    requires { CanWrite body }
    ensures accepted { OnOk result (body_row g.now v.now kept.old.state body ≡ None) }
    ensures request { IfOk result (Asks kept.new now body) }
    ensures fault { IfErr result (IsFaultOf (body_row g.now v.now kept.old.state body)) }
    ensures state { kept.new.state ≡ kept.old.state }
{
    match body {
        Body::EchoRequest { bytes } => Ok(Request::Echo { bytes }),
        Body::FeaturesRequest => Ok(Request::Features),
        Body::GetConfigRequest => Ok(Request::GetConfig),
        Body::SetConfig {
            flags,
            miss_send_len,
        } => Ok(Request::SetConfig {
            config: Config {
                flags,
                miss_send_len,
            },
        }),
        Body::PacketOut(m) => ask_packet_out(g, v, kept, m, now),
        Body::FlowMod(m) => ask_flow_mod(g, v, kept, m, now),
        Body::StatsRequest { body } => ask_statistics(g, v, kept, body, now),
        Body::BarrierRequest => Ok(Request::Barrier),
        Body::PortMod { .. } => ask_refused(15),
        Body::QueueGetConfigRequest { .. } => ask_refused(20),
        Body::Hello { .. }
        | Body::Error { .. }
        | Body::EchoReply { .. }
        | Body::FeaturesReply { .. }
        | Body::GetConfigReply { .. }
        | Body::PacketIn { .. }
        | Body::FlowRemoved { .. }
        | Body::PortStatus { .. }
        | Body::StatsReply { .. }
        | Body::BarrierReply
        | Body::QueueGetConfigReply { .. } => Ok(Request::Nothing),
    }
}

/// Messages of a type that isn't served.
fn ask_refused(kind: u8) -> Result<Request, FlowFault>
    ensures accepted { OnOk result (kind_row kind ≡ None) }
    ensures request { IfOk result (λ request. request ≡ Request.Nothing) }
    ensures fault { IfErr result (IsFaultOf (kind_row kind)) }
{
    check_kind(kind)?;
    Ok(Request::Nothing)
}

/// The transaction id of a frame and what it asks for, or the first rule that refuses it.
fn served(
    alloc: Global,
    g: &Grant,
    v: &PortView,
    kept: &mut MemberState,
    frame: &[u8],
    now: u64,
) -> Result<(u32, Request), FlowFault>
    requires { IsFrame frame.now }
    ensures served { IfOk result (λ s. IsServed g.now v.now kept.new now frame.now s.0 s.1) }
    ensures fault { IfErr result (IsFaultOf (denial g.now v.now kept.old.state frame.now)) }
    ensures state { kept.new.state ≡ kept.old.state }
{
    match read_of_controller(alloc, frame) {
        Ok(Message { xid, body }) => Ok((xid, ask(g, v, kept, body, now)?)),
        Err(fault) => Err(form_fault(fault)),
    }
}

/// Judges a frame of a member with this grant at a virtual switch of which `v` holds all ports: what it asks for, or
/// the first rule that refuses it. It takes all memory that a change of the member's table needs, and changes nothing.
pub fn judge(
    alloc: Global,
    g: &Grant,
    v: &PortView,
    kept: &mut MemberState,
    frame: &[u8],
    now: u64,
) -> Result<Judged, Memory>
    requires { IsFrame frame.now }
    ensures judged { IfOk result (IsJudged g.now v.now kept.new now frame.now) }
    ensures state { kept.new.state ≡ kept.old.state }
{
    match served(alloc, g, v, kept, frame, now) {
        Ok((xid, request)) => Ok(Judged::Served { xid, request }),
        Err(FlowFault::Denied(denied)) => Ok(Judged::Refused(denied)),
        Err(FlowFault::Memory) => Err(Memory),
    }
}
