//! Messages are sent to a switch.
ghost use Rattle.std.specs.Prelude.{◌≡◌, ◌+◌, ◌<◌, ◌^◌, IsTrue, OnErr, OnOk, length, map};
ghost use Rattle.std.specs.List.{AllByRecursion};
ghost use Rattle.of10_msgs.specs.Ranges.{CanWrite};
ghost use Rattle.switch_state.specs.Fitting.{CanAdd, CanSend};
ghost use Rattle.switch_state.specs.Messages.{addition as addition_of, batch_messages, beginning};
ghost use Rattle.switch_state.specs.Messages.{delete_strict as delete_strict_of, installation, phase};
ghost use Rattle.switch_state.specs.Sending.{IsPartlySent, next_xid as next_xid_of, send as send_of};
ghost use Rattle.switch_state.specs.Sending.{send_all, sending_of};

use crate::known::Known;
use crate::messages::{addition, delete_all, delete_strict};
use cv_io::{List, Memory};
use install_plan::{Batch, Written};
use of10_msgs::{Body, Message, write_message};
use outbox::Letters;
use std::alloc::Global;

/// The xid of the next message: after the greatest comes 1 again.
fn next_xid(xid: u32) -> u32
    ensures { result ≡ next_xid_of xid }
{
    xid.checked_add(1).unwrap_or(1)
}

/// Whether one more message has a place, as it has on any machine.
fn has_place(messages: &Letters) -> bool
    ensures { IsTrue result → length messages.now + 1 < 2 ^ 63 }
{
    messages.len() + 1 < 1 << 63
}

/// Sends a message that has the next xid.
fn send_message(
    alloc: Global,
    known: &mut Known,
    message: &Message,
    messages: &mut Letters,
) -> Result<(), Memory>
    requires writable { CanWrite message.now.body }
    requires next { message.now.xid ≡ next_xid_of known.old.xid }
    ensures sent { OnOk result (sending_of known.new messages.new
        ≡ send_of (sending_of known.old messages.old) message.now.body) }
    ensures memory { OnErr result ((known.new ≡ known.old) × (messages.new ≡ messages.old)) }
{
    let mut letter = Letters::new(alloc);
    letter.push(write_message(alloc, message)?)?;
    if !has_place(messages) {
        return Err(Memory);
    }
    known.note(&message.body, message.xid)?;
    // Joining takes no memory, so what is known and what is said change together.
    messages.join(letter);
    Ok(())
}

/// Sends a message: it takes the next xid.
pub(crate) fn send(
    alloc: Global,
    known: &mut Known,
    body: Body,
    messages: &mut Letters,
) -> Result<(), Memory>
    requires { CanWrite body }
    ensures sent { OnOk result (sending_of known.new messages.new
        ≡ send_of (sending_of known.old messages.old) body) }
    ensures memory { OnErr result ((known.new ≡ known.old) × (messages.new ≡ messages.old)) }
{
    let xid = next_xid(known.xid());
    let message = Message { xid, body };
    send_message(alloc, known, &message, messages)
}

/// Sends a barrier.
fn send_barrier(alloc: Global, known: &mut Known, messages: &mut Letters) -> Result<(), Memory>
    ensures sent { OnOk result (sending_of known.new messages.new
        ≡ send_of (sending_of known.old messages.old) Body.BarrierRequest) }
    ensures memory { OnErr result ((known.new ≡ known.old) × (messages.new ≡ messages.old)) }
{
    let barrier = Body::BarrierRequest;
    send(alloc, known, barrier, messages)
}

/// Sends what configures and empties a switch.
fn install(alloc: Global, known: &mut Known, messages: &mut Letters) -> Result<(), Memory>
    ensures sent { OnOk result (sending_of known.new messages.new
        ≡ send_all installation (sending_of known.old messages.old)) }
    ensures memory { OnErr result (IsPartlySent installation
        (sending_of known.old messages.old) (sending_of known.new messages.new)) }
{
    let config = Body::SetConfig {
        flags: 0,
        miss_send_len: 0xffff,
    };
    send(alloc, known, config, messages)?;
    send(alloc, known, delete_all(alloc), messages)?;
    send_barrier(alloc, known, messages)
}

/// Sends the installation, where the round begins.
pub(crate) fn begin(
    alloc: Global,
    known: &mut Known,
    begins: bool,
    messages: &mut Letters,
) -> Result<(), Memory>
    ensures sent { OnOk result (sending_of known.new messages.new
        ≡ send_all (beginning begins) (sending_of known.old messages.old)) }
    ensures memory { OnErr result (IsPartlySent (beginning begins)
        (sending_of known.old messages.old) (sending_of known.new messages.new)) }
{
    if !begins {
        return Ok(());
    }
    install(alloc, known, messages)
}

/// Sends the deletions.
fn send_deletes(
    alloc: Global,
    known: &mut Known,
    deletes: List<Written>,
    messages: &mut Letters,
) -> Result<(), Memory>
    ensures sent { OnOk result (sending_of known.new messages.new
        ≡ send_all (map delete_strict_of deletes) (sending_of known.old messages.old)) }
    ensures memory { OnErr result (IsPartlySent (map delete_strict_of deletes)
        (sending_of known.old messages.old) (sending_of known.new messages.new)) }
{
    for written in deletes.into_vec() {
        send(alloc, known, delete_strict(alloc, &written), messages)?;
    }
    Ok(())
}

/// Sends the additions.
fn send_adds(
    alloc: Global,
    known: &mut Known,
    adds: List<Written>,
    messages: &mut Letters,
) -> Result<(), Memory>
    requires { AllByRecursion CanAdd adds }
    ensures sent { OnOk result (sending_of known.new messages.new
        ≡ send_all (map addition_of adds) (sending_of known.old messages.old)) }
    ensures memory { OnErr result (IsPartlySent (map addition_of adds)
        (sending_of known.old messages.old) (sending_of known.new messages.new)) }
{
    for written in adds.into_vec() {
        send(alloc, known, addition(written), messages)?;
    }
    Ok(())
}

/// Sends the first phase: the deletions and a barrier, or nothing.
fn delete_phase(
    alloc: Global,
    known: &mut Known,
    deletes: List<Written>,
    messages: &mut Letters,
) -> Result<(), Memory>
    ensures sent { OnOk result (sending_of known.new messages.new
        ≡ send_all (phase (map delete_strict_of deletes)) (sending_of known.old messages.old)) }
    ensures memory { OnErr result (IsPartlySent (phase (map delete_strict_of deletes))
        (sending_of known.old messages.old) (sending_of known.new messages.new)) }
{
    if deletes.is_empty() {
        return Ok(());
    }
    send_deletes(alloc, known, deletes, messages)?;
    send_barrier(alloc, known, messages)
}

/// Sends the second phase: the additions and a barrier, or nothing.
fn add_phase(
    alloc: Global,
    known: &mut Known,
    adds: List<Written>,
    messages: &mut Letters,
) -> Result<(), Memory>
    requires { AllByRecursion CanAdd adds }
    ensures sent { OnOk result (sending_of known.new messages.new
        ≡ send_all (phase (map addition_of adds)) (sending_of known.old messages.old)) }
    ensures memory { OnErr result (IsPartlySent (phase (map addition_of adds))
        (sending_of known.old messages.old) (sending_of known.new messages.new)) }
{
    if adds.is_empty() {
        return Ok(());
    }
    send_adds(alloc, known, adds, messages)?;
    send_barrier(alloc, known, messages)
}

/// Sends a batch: the deletions and a barrier, the additions and a barrier.
pub(crate) fn write_batch(
    alloc: Global,
    known: &mut Known,
    batch: Batch,
    messages: &mut Letters,
) -> Result<(), Memory>
    requires { CanSend batch }
    ensures sent { OnOk result (sending_of known.new messages.new
        ≡ send_all (batch_messages batch) (sending_of known.old messages.old)) }
    ensures memory { OnErr result (IsPartlySent (batch_messages batch)
        (sending_of known.old messages.old) (sending_of known.new messages.new)) }
{
    let Batch { deletes, adds } = batch;
    delete_phase(alloc, known, deletes, messages)?;
    add_phase(alloc, known, adds, messages)
}
