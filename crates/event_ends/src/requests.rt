//! What switches are sent behind their batches: polls, and packets that leave.
ghost use Rattle.std.specs.Prelude.{◌≡◌, ◌++◌, ◌<◌, IfOk, OnOk, Some, fold, length, map, slice_get};
ghost use Rattle.switch_state.specs.Messages.{packet_out};
ghost use Rattle.machine_meaning.specs.Barriers.{with_known as known_as};
ghost use Rattle.machine_meaning.specs.Drafts.{Draft, letter};
ghost use Rattle.machine_drafts.specs.InsideRequests.{AreSendable, IsSendable, known_sent, with_dispatched};
ghost use Rattle.machine_drafts.specs.InsideRequests.{with_polled};
ghost use Rattle.machine_meaning.specs.Lists.{changed_at};
ghost use Rattle.machine_drafts.specs.Outcomes.{bases, draft_in, standing_in, switch_bases, switches_in};
ghost use Rattle.machine_meaning.specs.Requests.{dispatch as dispatch_of, poll as poll_of, poll_at as poll_at_of};
ghost use Rattle.machine_meaning.specs.Requests.{request as request_of, request_all as request_all_of, sent_one};
ghost use Rattle.machine_meaning.specs.States.{SwitchOf};
ghost use Rattle.machine_drafts.specs.SwitchDrafts.{with_known};

use cv_io::{Bytes, Duplicate, List, Memory};
use machine_drafts::outcome::Outcome;
use machine_drafts::sessions::is_switch_up;
use machine_drafts::setup::Setup;
use machine_drafts::switch_draft::SwitchDraft;
use machine_meaning::{Asked, Letter, Sent};
use outbox::Letters;
use std::alloc::Global;
use waitings::Waitings;

/// Puts messages to the session of a number behind letters.
pub fn post(to: u32, mut messages: Letters, letters: &mut List<Letter>) -> Result<(), Memory>
    ensures { OnOk result (letters.new ≡ letters.old ++ map (letter to) messages) }
{
    while let Some(bytes) = messages.pop() {
        letters.push(Letter { to, bytes })?;
    }
    Ok(())
}

/// A switch is asked for its entries or for its ports, by these messages.
fn ask(alloc: Global, switch: &mut SwitchDraft<'_>, asked: &Asked) -> Result<Letters, Memory>
    ensures known { OnOk result (switch.new
        ≡ with_known (known_sent (request_of asked.now) switch.old.now.known) switch.old) }
    ensures messages { IfOk result (λ messages. messages
        ≡ (sent_one switch.old.now (request_of asked.now)).messages) }
{
    let mut messages = Letters::new(alloc);
    if asked.ports {
        switch.poll_ports(alloc, &mut messages)?;
        return Ok(messages);
    }
    switch.poll_flows(alloc, &mut messages)?;
    Ok(messages)
}

/// The switch of a number is asked.
fn ask_at(
    alloc: Global,
    switches: &mut [SwitchDraft<'_>],
    n: u32,
    asked: &Asked,
) -> Result<Letters, Memory>
    requires { n < length switches.old }
    ensures messages { IfOk result (λ messages. (x : SwitchOf) → slice_get (switches_in switches.old) n ≡ Some x
        → messages ≡ (sent_one x (request_of asked.now)).messages) }
    ensures known { OnOk result (switches_in switches.new
        ≡ changed_at n (known_as (known_sent (request_of asked.now))) (switches_in switches.old)) }
    ensures standing { OnOk result (standing_in switches.new ≡ standing_in switches.old) }
    ensures bases { OnOk result (switch_bases switches.new ≡ switch_bases switches.old) }
{
    let messages = ask(alloc, &mut switches[n as usize], asked)?;
    Ok(messages)
}

/// The xid of the last message to the switch of a number.
fn xid_at(switches: &[SwitchDraft<'_>], n: u32) -> u32
    requires { n < length switches.now }
    ensures { (x : SwitchOf) → slice_get (switches_in switches.now) n ≡ Some x → result ≡ x.known.xid }
{
    switches[n as usize].known().xid()
}

/// The poll of a virtual switch is asked of the switch of a number, if it is up.
fn poll_at(
    alloc: Global,
    switches: &mut [SwitchDraft<'_>],
    waiting: &mut Waitings<'_>,
    polls: &mut List<Letter>,
    asked: &Asked,
    n: u32,
) -> Result<(), Memory>
    ensures polled { OnOk result ((d : Draft)
        → poll_at_of asked.now (with_polled (switches_in switches.old) waiting.old.now polls.old d) n
        ≡ with_polled (switches_in switches.new) waiting.new.now polls.new d) }
    ensures standing { OnOk result (standing_in switches.new ≡ standing_in switches.old) }
    ensures bases { OnOk result (switch_bases switches.new ≡ switch_bases switches.old) }
    ensures base { OnOk result (waiting.new.base ≡ waiting.old.base) }
{
    if !is_switch_up(switches, n) {
        return Ok(());
    }
    let messages = ask_at(alloc, switches, n, asked)?;
    let xid = xid_at(switches, n);
    waiting.asked(asked.v, n, xid)?;
    post(n, messages, polls)?;
    Ok(())
}

/// A poll is asked of each of these switches that is up.
fn poll_each(
    alloc: Global,
    switches: &mut [SwitchDraft<'_>],
    waiting: &mut Waitings<'_>,
    polls: &mut List<Letter>,
    asked: &Asked,
    numbers: &[u32],
) -> Result<(), Memory>
    ensures polled { OnOk result ((d : Draft)
        → fold (poll_at_of asked.now) (with_polled (switches_in switches.old) waiting.old.now polls.old d) numbers.now
        ≡ with_polled (switches_in switches.new) waiting.new.now polls.new d) }
    ensures standing { OnOk result (standing_in switches.new ≡ standing_in switches.old) }
    ensures bases { OnOk result (switch_bases switches.new ≡ switch_bases switches.old) }
    ensures base { OnOk result (waiting.new.base ≡ waiting.old.base) }
{
    for n in numbers {
        poll_at(alloc, switches, waiting, polls, asked, *n)?;
    }
    Ok(())
}

/// A poll is asked of each switch of its virtual switch that is up.
fn poll(
    setup: &Setup,
    switches: &mut [SwitchDraft<'_>],
    waiting: &mut Waitings<'_>,
    polls: &mut List<Letter>,
    asked: &Asked,
) -> Result<(), Memory>
    ensures polled { OnOk result ((d : Draft)
        → poll_of setup.now (with_polled (switches_in switches.old) waiting.old.now polls.old d) asked.now
        ≡ with_polled (switches_in switches.new) waiting.new.now polls.new d) }
    ensures standing { OnOk result (standing_in switches.new ≡ standing_in switches.old) }
    ensures bases { OnOk result (switch_bases switches.new ≡ switch_bases switches.old) }
    ensures base { OnOk result (waiting.new.base ≡ waiting.old.base) }
{
    if asked.v as usize >= setup.policy().virtuals.len() {
        return Ok(());
    }
    let numbers = setup.switches_of(asked.v);
    poll_each(setup.alloc(), switches, waiting, polls, asked, numbers)
}

/// Polls are asked, in the order in which they began.
fn poll_all(
    setup: &Setup,
    switches: &mut [SwitchDraft<'_>],
    waiting: &mut Waitings<'_>,
    polls: &mut List<Letter>,
    all: &[Asked],
) -> Result<(), Memory>
    ensures polled { OnOk result ((d : Draft)
        → fold (poll_of setup.now) (with_polled (switches_in switches.old) waiting.old.now polls.old d) all.now
        ≡ with_polled (switches_in switches.new) waiting.new.now polls.new d) }
    ensures standing { OnOk result (standing_in switches.new ≡ standing_in switches.old) }
    ensures bases { OnOk result (switch_bases switches.new ≡ switch_bases switches.old) }
    ensures base { OnOk result (waiting.new.base ≡ waiting.old.base) }
{
    for asked in all {
        poll(setup, switches, waiting, polls, asked)?;
    }
    Ok(())
}

/// A packet leaves at a switch, by these messages.
fn send(
    alloc: Global,
    switch: &mut SwitchDraft<'_>,
    port: u16,
    bytes: &Bytes,
) -> Result<Letters, Memory>
    requires { length bytes.now < 65512 }
    ensures known { OnOk result (switch.new
        ≡ with_known (known_sent (packet_out port bytes.now) switch.old.now.known) switch.old) }
    ensures messages { IfOk result (λ messages. messages
        ≡ (sent_one switch.old.now (packet_out port bytes.now)).messages) }
{
    let mut messages = Letters::new(alloc);
    let bytes = bytes.copy()?;
    switch.send_packet(alloc, port, bytes, &mut messages)?;
    Ok(messages)
}

/// A packet leaves at the switch of a number, by these messages.
fn send_at(
    alloc: Global,
    switches: &mut [SwitchDraft<'_>],
    n: u32,
    port: u16,
    bytes: &Bytes,
) -> Result<Letters, Memory>
    requires there { n < length switches.old }
    requires short { length bytes.now < 65512 }
    ensures messages { IfOk result (λ messages. (x : SwitchOf) → slice_get (switches_in switches.old) n ≡ Some x
        → messages ≡ (sent_one x (packet_out port bytes.now)).messages) }
    ensures known { OnOk result (switches_in switches.new
        ≡ changed_at n (known_as (known_sent (packet_out port bytes.now))) (switches_in switches.old)) }
    ensures standing { OnOk result (standing_in switches.new ≡ standing_in switches.old) }
    ensures bases { OnOk result (switch_bases switches.new ≡ switch_bases switches.old) }
{
    let messages = send(alloc, &mut switches[n as usize], port, bytes)?;
    Ok(messages)
}

/// A packet leaves at its switch, if that is up.
fn dispatch(
    alloc: Global,
    switches: &mut [SwitchDraft<'_>],
    packets: &mut List<Letter>,
    sent: &Sent,
) -> Result<(), Memory>
    requires { IsSendable sent.now }
    ensures dispatched { OnOk result ((d : Draft)
        → dispatch_of (with_dispatched (switches_in switches.old) packets.old d) sent.now
        ≡ with_dispatched (switches_in switches.new) packets.new d) }
    ensures standing { OnOk result (standing_in switches.new ≡ standing_in switches.old) }
    ensures bases { OnOk result (switch_bases switches.new ≡ switch_bases switches.old) }
{
    let n = sent.switch;
    if !is_switch_up(switches, n) {
        return Ok(());
    }
    let messages = send_at(alloc, switches, n, sent.port, &sent.bytes)?;
    post(n, messages, packets)?;
    Ok(())
}

/// Packets leave, in the order of the outs.
fn dispatch_all(
    alloc: Global,
    switches: &mut [SwitchDraft<'_>],
    packets: &mut List<Letter>,
    sent: &[Sent],
) -> Result<(), Memory>
    requires { AreSendable sent.now }
    ensures dispatched { OnOk result ((d : Draft)
        → fold dispatch_of (with_dispatched (switches_in switches.old) packets.old d) sent.now
        ≡ with_dispatched (switches_in switches.new) packets.new d) }
    ensures standing { OnOk result (standing_in switches.new ≡ standing_in switches.old) }
    ensures bases { OnOk result (switch_bases switches.new ≡ switch_bases switches.old) }
{
    for one in sent {
        dispatch(alloc, switches, packets, one)?;
    }
    Ok(())
}

/// Polls are asked, in the order in which they began.
fn request_polls(setup: &Setup, draft: &mut Outcome<'_>) -> Result<(), Memory>
    ensures drafted { OnOk result (draft_in draft.new
        ≡ fold (poll_of setup.now) (draft_in draft.old) (draft_in draft.old).asked) }
    ensures bases { OnOk result (bases draft.new ≡ bases draft.old) }
    ensures sent { OnOk result (draft.new.sent ≡ draft.old.sent) }
{
    poll_all(
        setup,
        draft.switches.as_mut_slice(),
        &mut draft.waiting,
        &mut draft.polls,
        draft.asked.as_slice(),
    )?;
    Ok(())
}

/// Packets leave, in the order of the outs.
fn send_packets(alloc: Global, draft: &mut Outcome<'_>) -> Result<(), Memory>
    requires { AreSendable draft.old.sent }
    ensures drafted { OnOk result (draft_in draft.new
        ≡ fold dispatch_of (draft_in draft.old) (draft_in draft.old).sent) }
    ensures bases { OnOk result (bases draft.new ≡ bases draft.old) }
{
    dispatch_all(
        alloc,
        draft.switches.as_mut_slice(),
        &mut draft.packets,
        draft.sent.as_slice(),
    )?;
    Ok(())
}

/// Polls are asked, in the order in which they began, and then packets leave.
pub fn request_all(setup: &Setup, draft: &mut Outcome<'_>) -> Result<(), Memory>
    requires { AreSendable draft.old.sent }
    ensures drafted { OnOk result (draft_in draft.new ≡ request_all_of setup.now (draft_in draft.old)) }
    ensures bases { OnOk result (bases draft.new ≡ bases draft.old) }
{
    request_polls(setup, draft)?;
    send_packets(setup.alloc(), draft)?;
    Ok(())
}
