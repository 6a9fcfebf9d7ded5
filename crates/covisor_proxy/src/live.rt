//! The form `serve`.
ghost use Rattle.std.specs.Prelude.{◌≡◌, ◌≢◌, List, Option, Some, ℕ};
ghost use Rattle.outside.specs.declared.files.MemFile.{MemFile};
ghost use Rattle.command_line.specs.declared.command.Command.TheVariants as commands;
ghost use Rattle.covisor_proxy.specs.Noted.{Notes, NotesServed};
ghost use Rattle.covisor_proxy.specs.Outcomes.{code_of};
ghost use Rattle.covisor_proxy.specs.Outside.{outside_of};
ghost use Rattle.covisor_proxy.specs.Runs.{Runs};
ghost use Rattle.covisor_proxy.specs.Serving.{EndsServing};

use crate::ending::write_fault;
use crate::noting::{LINK, SPAWN, note_remarks, note_words};
use crate::opening::open;
use crate::status::Status;
use crate::telling::tell;
use crate::writing::write_all;
use cv_io::{Duplicate, Text};
use hyper_core::Hyper;
use outside::{Clock, Dial, Files, Links, Sink, Spawner};
use policies::Policy;
use policy_lock::Machine;
use policy_serving::serve_policy;
use serving::Served;
use std::alloc::Global;
use std::sync::Wait;
use std::thread::Threads;

/// Serves every endpoint of the policy of a file.
pub(crate) fn serve_file<
    R: Wait + Threads + Sync,
    F: Files,
    K: Sink + Send,
    N: Sink,
    L: Links,
    P: Spawner,
    C: Clock + Duplicate + Drop + Send,
>(
    rt: &R,
    alloc: Global,
    name: &Text,
    files: &mut F,
    out: &mut K,
    notes: &mut N,
    links: &mut L,
    spawner: &mut P,
    clock: &C,
) -> Status
where
    L::Dial: Drop,
    <L::Dial as Dial>::In: Drop + Send,
    <L::Dial as Dial>::Out: Drop + Send,
    ensures runs { (left : Option (List ℕ)) (reads steps : ℕ) → Runs ⟦<Hyper as Machine>⟧ (C.may clock.now)
        (outside_of (F.files files.old) (F.faults files.old) left reads (K.held out.old) (K.faults out.old)
        (L.told links.old) (L.is_reliable links.old) (L.faults links.old) (P.faults spawner.old) steps)
        (outside_of (F.files files.new) (F.faults files.new) left reads (K.held out.new) (K.faults out.new)
        (L.told links.new) (L.is_reliable links.new) (L.faults links.new) (P.faults spawner.new) steps)
        (code_of result) (Some (commands.Serve name.now)) }
    ensures notes { (left : Option (List ℕ)) → Notes result (Some (commands.Serve name.now)) (F.files files.old)
        (F.faults files.old) (F.faults files.new) left (N.held notes.old) (N.held notes.new) }
    ensures form { result ≢ Status.Usage }
{
    match open(alloc, files, name) {
        Ok(policy) => serve(rt, alloc, policy, out, notes, links, spawner, clock),
        Err(fault) => tell(alloc, name, fault, out, notes),
    }
}

/// Serves every endpoint of a policy.
fn serve<
    R: Wait + Threads + Sync,
    K: Sink + Send,
    N: Sink,
    L: Links,
    P: Spawner,
    C: Clock + Duplicate + Drop + Send,
>(
    rt: &R,
    alloc: Global,
    policy: Policy,
    out: &mut K,
    notes: &mut N,
    links: &mut L,
    spawner: &mut P,
    clock: &C,
) -> Status
where
    L::Dial: Drop,
    <L::Dial as Dial>::In: Drop + Send,
    <L::Dial as Dial>::Out: Drop + Send,
    ensures ends { (files files' : Option (List MemFile)) (fails fails' : ℕ) (left : Option (List ℕ))
        (reads steps : ℕ) → EndsServing ⟦<Hyper as Machine>⟧ (C.may clock.now) result policy
        (outside_of files fails left reads (K.held out.old) (K.faults out.old)
        (L.told links.old) (L.is_reliable links.old) (L.faults links.old) (P.faults spawner.old) steps)
        (outside_of files' fails' left reads (K.held out.new) (K.faults out.new)
        (L.told links.new) (L.is_reliable links.new) (L.faults links.new) (P.faults spawner.new) steps) }
    ensures notes { NotesServed result policy (N.held notes.old) (N.held notes.new) }
{
    note_remarks(alloc, notes, &policy);
    match serve_policy(rt, alloc, policy, out, links, spawner, clock) {
        Served::Done => Status::Done,
        Served::Link => match write_all(out, b"fault link\n") {
            Ok(()) => {
                note_words(alloc, notes, LINK);
                Status::Link
            }
            Err(_) => Status::Write,
        },
        Served::Spawn => {
            note_words(alloc, notes, SPAWN);
            write_fault(out, b"fault spawn\n", Status::Spawn)
        }
        Served::Write => Status::Write,
        Served::Memory => Status::Memory,
    }
}
