//! A message of a member.
ghost use Rattle.std.specs.Prelude.{◌≡◌, ◌<◌, ◌≤◌, IfOk, OnOk, Some, length, slice_get};
ghost use Rattle.of10_actions.specs.Ports.{AreRising};
ghost use Rattle.of10_frames.specs.Frames.{IsFrame};
ghost use Rattle.of10_msgs.specs.declared.message.Body.{Body as BodyOf};
ghost use Rattle.member_replies.specs.Ports.{HasFewPorts};
ghost use Rattle.member_replies.specs.Switches.{features as features_of};
ghost use Rattle.machine_meaning.specs.Drafts.{answer as answer_of, message};
ghost use Rattle.event_acts.specs.InsideHearing.{IsAsked, WasJudged};
ghost use Rattle.event_acts.specs.InsideJudging.{Asks};
ghost use Rattle.machine_drafts.specs.InsideRequests.{AreSendable};
ghost use Rattle.machine_drafts.specs.InsideSwitches.{dark_ports_among};
ghost use Rattle.machine_meaning.specs.Lists.{changed_at};
ghost use Rattle.machine_drafts.specs.MemberDrafts.{MemberDraftOf};
ghost use Rattle.machine_meaning.specs.MemberMessages.{hears_member as hears_member_of};
ghost use Rattle.machine_meaning.specs.MemberMessages.{refuse as refuse_of, serve as serve_of, with_config};
ghost use Rattle.machine_meaning.specs.Names.{virtual_dpid, virtual_of};
ghost use Rattle.machine_drafts.specs.Outcomes.{bases, draft_in, member_bases, members_in, moments_of};
ghost use Rattle.machine_drafts.specs.Outcomes.{state_in, switches_in};
ghost use Rattle.machine_meaning.specs.Ports.{dark_ports as dark_ports_of};

use crate::barriers::barrier_asked;
use crate::dark_ports::dark_ports;
use crate::flow_mods::flow_mod;
use crate::judging::{Judged, Request};
use crate::packets::packet_goes;
use crate::statistics::asked;
use cv_io::{Bytes, Memory};
use grants::Denial;
use machine_drafts::answering::answer;
use machine_drafts::member_draft::MemberDraft;
use machine_drafts::outcome::Outcome;
use machine_drafts::setup::Setup;
use machine_drafts::switch_draft::SwitchDraft;
use machine_meaning::{Config, Letter};
use member_replies::{config_reply, deny_line, echo_reply, error, features_reply};
use of10_frames::xid_of;
use policies::MemberItem;

/// A message is refused: its sender gets an ERROR, and the audit a line.
fn refuse(
    setup: &Setup,
    draft: &mut Outcome<'_>,
    n: u32,
    m: &MemberItem,
    frame: &[u8],
    denied: &Denial,
) -> Result<(), Memory>
    requires { 8 ≤ length frame.now }
    ensures drafted { OnOk result (draft_in draft.new ≡ refuse_of n m.now frame.now denied.now (draft_in draft.old)) }
    ensures bases { OnOk result (bases draft.new ≡ bases draft.old) }
{
    let alloc = setup.alloc();
    let bytes = error(alloc, denied, frame)?;
    draft.answers.push(Letter { to: n, bytes })?;
    let line = deny_line(alloc, &m.controller, &m.vsw, xid_of(frame), denied)?;
    draft.denials.push(line)
}

/// The datapath id of a virtual switch.
fn dpid_of(setup: &Setup, v: u32) -> u64
    ensures { result ≡ virtual_dpid setup.now v }
{
    match setup.virtual_at(v) {
        Some(item) => item.dpid,
        None => 0,
    }
}

/// The number of a virtual switch, as the addresses of its ports have it.
fn short_number(setup: &Setup, v: u32) -> u16
    requires { v < length setup.now.virtuals }
    ensures { result ≡ v }
{
    // The proof learns that there are at most 16.
    let _ = setup.topology().plan();
    v as u16
}

/// The FEATURES_REPLY to a member.
fn features_message(
    setup: &Setup,
    switches: &[SwitchDraft<'_>],
    m: &MemberItem,
    xid: u32,
) -> Result<Bytes, Memory>
    requires there { m.now.grant.ports.v < length setup.now.virtuals }
    requires few { HasFewPorts m.now.grant.ports }
    ensures { IfOk result (λ bytes. bytes ≡ message xid
        (features_of (virtual_dpid setup.now (virtual_of m.now)) m.now.grant (virtual_of m.now)
        (dark_ports_among setup.now (switches_in switches.now) (virtual_of m.now)))) }
{
    let v = m.grant.ports.v;
    let dark = dark_ports(setup, switches, v)?;
    let dpid = dpid_of(setup, v);
    let number = short_number(setup, v);
    features_reply(setup.alloc(), xid, dpid, &m.grant, number, dark.as_slice())
}

/// A FEATURES_REQUEST is answered.
fn features(
    setup: &Setup,
    draft: &mut Outcome<'_>,
    n: u32,
    m: &MemberItem,
    xid: u32,
) -> Result<(), Memory>
    requires there { m.now.grant.ports.v < length setup.now.virtuals }
    requires few { HasFewPorts m.now.grant.ports }
    ensures drafted { OnOk result (draft_in draft.new ≡ answer_of n xid
        (features_of (virtual_dpid setup.now (virtual_of m.now)) m.now.grant (virtual_of m.now)
        (dark_ports_of setup.now (state_in draft.old) (virtual_of m.now)))
        (draft_in draft.old)) }
    ensures bases { OnOk result (bases draft.new ≡ bases draft.old) }
{
    let bytes = features_message(setup, draft.switches.as_slice(), m, xid)?;
    answer(draft, n, bytes)
}

/// SET_CONFIG gives the member of a number another configuration.
fn configure_at(members: &mut [MemberDraft<'_>], n: u32, config: Config)
    requires { n < length members.old }
    ensures now { members_in members.new ≡ changed_at n (with_config config) (members_in members.old) }
    ensures bases { member_bases members.new ≡ member_bases members.old }
    ensures moments { moments_of members.new ≡ moments_of members.old }
{
    members[n as usize].configure(config);
}

/// The configuration of the member of a number.
fn config_at(members: &[MemberDraft<'_>], n: u32) -> Config
    requires { n < length members.now }
    ensures { (x : MemberDraftOf) → slice_get members.now n ≡ Some x → result ≡ x.now.config }
{
    members[n as usize].config()
}

/// A message that isn't refused, by what it asks for.
fn serve(
    setup: &Setup,
    draft: &mut Outcome<'_>,
    n: u32,
    m: &MemberItem,
    xid: u32,
    request: Request,
) -> Result<(), Memory>
    requires there { m.now.grant.ports.v < length setup.now.virtuals }
    requires rising { AreRising m.now.grant.ports }
    requires few { HasFewPorts m.now.grant.ports }
    requires asked { IsAsked draft.old.members draft.old.moment n request }
    ensures drafted { (x : MemberDraftOf) (body : BodyOf) → slice_get draft.old.members n ≡ Some x
        → Asks x.base.kept draft.old.moment body request
        → OnOk result (draft_in draft.new ≡ serve_of setup.now n m.now x.now xid body (draft_in draft.old)) }
    ensures bases { OnOk result (bases draft.new ≡ bases draft.old) }
{
    let alloc = setup.alloc();
    match request {
        Request::Echo { bytes } => answer(draft, n, echo_reply(alloc, xid, bytes)?),
        Request::Features => features(setup, draft, n, m, xid),
        Request::GetConfig => {
            let config = config_at(draft.members.as_slice(), n);
            let bytes = config_reply(alloc, xid, config.flags, config.miss_send_len)?;
            answer(draft, n, bytes)
        }
        Request::SetConfig { config } => {
            configure_at(draft.members.as_mut_slice(), n, config);
            Ok(())
        }
        Request::PacketOut(sent) => packet_goes(setup, draft, n, &m.grant.ports, &sent),
        Request::FlowMod { change, planned } => flow_mod(alloc, draft, n, &change, planned),
        Request::Statistics(request) => asked(setup, draft, n, m, xid, request),
        Request::Barrier => barrier_asked(setup, draft, n, m.grant.ports.v, xid),
        Request::Nothing => Ok(()),
    }
}

/// A frame of a member, as it was judged.
fn heard_from(
    setup: &Setup,
    draft: &mut Outcome<'_>,
    n: u32,
    m: &MemberItem,
    frame: &[u8],
    judged: Judged,
) -> Result<(), Memory>
    requires item { slice_get setup.now.members n ≡ Some m.now }
    requires there { m.now.grant.ports.v < length setup.now.virtuals }
    requires rising { AreRising m.now.grant.ports }
    requires frame { IsFrame frame.now }
    requires judged { WasJudged setup.now draft.old n frame.now judged }
    ensures drafted { OnOk result (draft_in draft.new ≡ hears_member_of setup.now n frame.now (draft_in draft.old)) }
    ensures bases { OnOk result (bases draft.new ≡ bases draft.old) }
    ensures sendable { AreSendable draft.old.sent → OnOk result (AreSendable draft.new.sent) }
{
    // The proof learns what is true of every policy.
    let _ = setup.policy();
    if n as usize >= draft.members.len() {
        drop(judged);
        return Ok(());
    }
    match judged {
        Judged::Refused(denied) => refuse(setup, draft, n, m, frame, &denied),
        Judged::Served { xid, request } => serve(setup, draft, n, m, xid, request),
    }
}

/// A frame of the member of a number, as it was judged.
pub fn hears_member(
    setup: &Setup,
    draft: &mut Outcome<'_>,
    n: u32,
    frame: &[u8],
    judged: Judged,
) -> Result<(), Memory>
    requires frame { IsFrame frame.now }
    requires judged { WasJudged setup.now draft.old n frame.now judged }
    ensures drafted { OnOk result (draft_in draft.new ≡ hears_member_of setup.now n frame.now (draft_in draft.old)) }
    ensures bases { OnOk result (bases draft.new ≡ bases draft.old) }
    ensures sendable { AreSendable draft.old.sent → OnOk result (AreSendable draft.new.sent) }
{
    match setup.member(n) {
        Some(m) => heard_from(setup, draft, n, m, frame, judged),
        None => {
            drop(judged);
            Ok(())
        }
    }
}
