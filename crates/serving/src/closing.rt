//! The end of a run: what still waits of the audit is written.
ghost use Rattle.std.specs.Prelude.{◌≡◌, ◌≢◌, ◌<◌, IfOk, OnErr, OnOk};
ghost use Rattle.serving.specs.Endings.{EndsRest, TakesNext};

use cv_io::{Bytes, Memory, Steps};
use endpoint_works::{AUDIT, write_line};
use events::{Event, Reply};
use lock_desk::Host;
use outside::Sink;
use policy_lock::Machine;
use std::marker::Brand;
use std::sync::Wait;
use std::sync::ledger::{Blank, Ledger};
use std::thread::Threads;

/// How the writing of what waits ended.
#[derive(Clone, Copy, PartialEq, Eq, Debug)]
pub(crate) enum Rest {
    /// No line waits any more.
    Written,
    /// A line could not be written.
    WriteFault,
    /// A line could not be taken for want of memory.
    Memory,
}

/// Writes each line of the audit that waits in the machine.
pub(crate) fn write_rest<H: Host, R: Wait + Threads + Sync, K: Sink>(
    rt: &R,
    machine: &mut H::Machine,
    out: &mut K,
) -> Rest
    ensures ends { EndsRest ⟦<H::Machine as Machine>⟧ (H.Machine.meaning machine.old) (H.Machine.meaning machine.new)
        (K.held out.old) (K.held out.new) (K.faults out.old) (K.faults out.new) result }
    ensures quiet { result ≢ Rest.WriteFault → K.faults out.new ≡ K.faults out.old }
{
    for _ in rt.forever() {
        match next_line::<H, R>(rt, machine) {
            Ok(Some(line)) => {
                if write_line(out, line.as_slice()).is_err() {
                    return Rest::WriteFault;
                }
            }
            Ok(None) => return Rest::Written,
            Err(_) => return Rest::Memory,
        }
    }
    unreachable!()
}

/// Takes the next line of the audit, if one waits.
fn next_line<H: Host, R: Threads + Sync>(
    rt: &R,
    machine: &mut H::Machine,
) -> Result<Option<Bytes>, Memory>
    ensures taken { IfOk result (TakesNext ⟦<H::Machine as Machine>⟧
        (H.Machine.meaning machine.old) (H.Machine.meaning machine.new)) }
    ensures memory { OnErr result (H.Machine.meaning machine.new ≡ H.Machine.meaning machine.old) }
{
    let take = Event::Take { session: AUDIT };
    if is_idle::<H>(machine, &take) {
        return Ok(None);
    }
    match step::<H::Machine, R, Brand>(rt, machine, &take, Blank::new(1))? {
        Reply::Taken { message } => Ok(Some(message)),
        _ => unreachable!(),
    }
}

/// Whether an event changes nothing.
fn is_idle<H: Host>(machine: &H::Machine, event: &Event) -> bool
    ensures { H.Machine.idle (H.Machine.meaning machine.now) event.now ≡ result }
{
    machine.glance(event).is_some()
}

/// Takes an event, with a count of steps of its own.
fn step<M: Machine, R: Threads + Sync, G: Ledger>(
    rt: &R,
    machine: &mut M,
    event: &M::Event,
    blank: Blank,
) -> Result<M::Reply, Memory>
    requires { (blank.name ≡ G.name) × (blank.parts ≡ G.parts) × (0 < blank.parts) }
    ensures reply { IfOk result (λ r. r ≡ M.reply (M.meaning machine.old) event.now) }
    ensures next { OnOk result (M.meaning machine.new ≡ M.next (M.meaning machine.old) event.now) }
    ensures memory { OnErr result (M.meaning machine.new ≡ M.meaning machine.old) }
{
    let mut steps = Steps::<G>::new(blank);
    machine.step(rt, event, &mut steps)
}
