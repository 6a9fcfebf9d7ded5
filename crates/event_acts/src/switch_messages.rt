//! What comes of what a switch's frame tells.
ghost use Rattle.std.specs.Prelude.{◌≡◌, ℕ, List, ◌+◌, ◌<◌, ◌^◌, OnOk, Some, length, slice_get};
ghost use Rattle.cv_io.specs.declared.leaf.Who.TheVariants.{Switch};
ghost use Rattle.event_acts.specs.CookieCounts.{AreLast};
ghost use Rattle.event_acts.specs.Heard.{IsHeard, heard_in};
ghost use Rattle.event_acts.specs.HeardActs.{acts_on, comes_of};
ghost use Rattle.machine_drafts.specs.Outcomes.{bases, draft_in, switches_in};
ghost use Rattle.event_acts.specs.Overtaking.{AreTakenOver};
ghost use Rattle.machine_meaning.specs.Parts.{with_flows, with_ports};
ghost use Rattle.machine_meaning.specs.States.{SwitchOf};
ghost use Rattle.machine_meaning.specs.SwitchMessages.{echoed, hears_switch as hears_switch_of};

use crate::heard::Heard;
use crate::packets::packet_comes;
use crate::removals::{barrier_replied, port_reported, removal_reported};
use crate::rounds::end_switch;
use cv_io::{Bytes, Duplicate, Memory};
use machine_drafts::outcome::Outcome;
use machine_drafts::setup::Setup;
use machine_meaning::Letter;
use of10_stats::PortStat;
use script_text::DownCause;
use std::alloc::Global;
use switch_state::echo_reply;

/// An ECHO_REQUEST is answered, with its own xid.
fn echo(
    alloc: Global,
    draft: &mut Outcome<'_>,
    n: u32,
    xid: u32,
    bytes: &Bytes,
) -> Result<(), Memory>
    requires { 8 + length bytes.now < 2 ^ 16 }
    ensures drafted { OnOk result (draft_in draft.new ≡ echoed n xid bytes.now (draft_in draft.old)) }
    ensures bases { OnOk result (bases draft.new ≡ bases draft.old) }
{
    let bytes = echo_reply(alloc, xid, bytes.copy()?)?;
    draft.echoes.push(Letter { to: n, bytes })?;
    Ok(())
}

/// A part of an answer to a poll of entries: its numbers are counted already.
fn flows_told(draft: &mut Outcome<'_>, n: u32, xid: u32, more: bool) -> Result<(), Memory>
    ensures drafted { OnOk result (draft_in draft.new
        ≡ record (draft_in draft.old) { state = with_flows n xid more (draft_in draft.old).state }) }
    ensures bases { OnOk result (bases draft.new ≡ bases draft.old) }
{
    draft.waiting.flows_told(n, xid, more)?;
    Ok(())
}

/// A part of an answer to a poll of ports.
fn ports_told(
    setup: &Setup,
    draft: &mut Outcome<'_>,
    n: u32,
    xid: u32,
    more: bool,
    ports: &[PortStat],
) -> Result<(), Memory>
    ensures drafted { OnOk result (draft_in draft.new
        ≡ record (draft_in draft.old) {
          state = with_ports setup.now n xid more ports.now (draft_in draft.old).state;
        }) }
    ensures bases { OnOk result (bases draft.new ≡ bases draft.old) }
{
    draft
        .waiting
        .ports_told(setup.topology(), n, xid, more, ports)?;
    Ok(())
}

/// What comes of it at a switch that is there.
fn come_of(setup: &Setup, draft: &mut Outcome<'_>, n: u32, heard: &Heard) -> Result<(), Memory>
    requires there { n < length draft.old.switches }
    requires heard { IsHeard heard.now }
    ensures drafted { OnOk result ((x : SwitchOf) → slice_get (switches_in draft.old.switches) n ≡ Some x
        → AreLast n x.known heard.now (draft_in draft.old).state.counts
        → draft_in draft.new ≡ comes_of setup.now n x heard.now (draft_in draft.old)) }
    ensures bases { OnOk result (bases draft.new ≡ bases draft.old) }
{
    let alloc = setup.alloc();
    match heard {
        Heard::Nothing => Ok(()),
        Heard::IllFormed => end_switch(alloc, draft, n, DownCause::Form),
        Heard::Error => end_switch(alloc, draft, n, DownCause::Error),
        Heard::EchoRequest { xid, bytes } => echo(alloc, draft, n, *xid, bytes),
        Heard::PacketIn {
            total_len,
            in_port,
            bytes,
        } => { packet_comes(setup, draft, n, *total_len, *in_port, bytes.as_slice()) }
        Heard::FlowRemoved { cookie, .. } => removal_reported(alloc, draft, n, *cookie),
        Heard::PortStatus { reason, port } => port_reported(draft, n, *reason, port),
        Heard::Flows { xid, more, .. } => flows_told(draft, n, *xid, *more),
        Heard::Ports { xid, more, ports } => {
            ports_told(setup, draft, n, *xid, *more, ports.as_slice())
        }
        Heard::BarrierReply { xid } => barrier_replied(draft, n, *xid),
    }
}

/// What comes of it, if the switch is there.
fn come_from(setup: &Setup, draft: &mut Outcome<'_>, n: u32, heard: &Heard) -> Result<(), Memory>
    requires heard { IsHeard heard.now }
    requires last { (x : SwitchOf) → slice_get (draft_in draft.old).state.switches n ≡ Some x
        → AreLast n x.known heard.now (draft_in draft.old).state.counts }
    ensures drafted { OnOk result (draft_in draft.new ≡ acts_on setup.now n heard.now (draft_in draft.old)) }
    ensures bases { OnOk result (bases draft.new ≡ bases draft.old) }
{
    if n as usize >= draft.switches.len() {
        return Ok(());
    }
    come_of(setup, draft, n, heard)
}

/// A switch sends a frame of which this was heard. The numbers of a removal are counted already.
pub fn hears_switch(
    setup: &Setup,
    draft: &mut Outcome<'_>,
    n: u32,
    heard: &Heard,
) -> Result<(), Memory>
    requires heard { IsHeard heard.now }
    requires last { AreTakenOver (Switch n) heard.now (draft_in draft.old).state }
    ensures drafted { OnOk result ((frame : List ℕ) → heard.now ≡ heard_in frame
        → draft_in draft.new ≡ hears_switch_of setup.now n frame (draft_in draft.old)) }
    ensures bases { OnOk result (bases draft.new ≡ bases draft.old) }
{
    come_from(setup, draft, n, heard)?;
    Ok(())
}
