//! The top call.
ghost use Rattle.std.specs.Prelude.{◌≡◌, ◌≢◌, ◌↔◌, None, Some};
ghost use Rattle.command_line.specs.Forms.{command_of};
ghost use Rattle.covisor_proxy.specs.Noted.{Noted, Notes};
ghost use Rattle.covisor_proxy.specs.Outcomes.{code_of};
ghost use Rattle.covisor_proxy.specs.Outside.{outside_of};
ghost use Rattle.covisor_proxy.specs.Runs.{Runs};

use crate::ending::write_fault;
use crate::forms::{make, replay_built_in, replay_file};
use crate::live::serve_file;
use crate::status::Status;
use command_line::{Command, asked};
use cv_io::{Duplicate, Steps};
use hyper_core::Hyper;
use outside::{Clock, Dial, Files, Links, Sink, Source, Spawner};
use policy_lock::Machine;
use script_text::Form;
use std::alloc::Global;
use std::sync::Wait;
use std::sync::ledger::Ledger;
use std::thread::Threads;

/// The exit status of want of memory.
pub const MEMORY: u8 = 10;

/// Does what the words after the program's name say, and answers the exit status. `replay` and `replay POLICY` do the
/// lines of the script that `input` gives, over the built-in policy or over that of a file, and write the report to
/// `out`; so does `explain POLICY`, which also knows lines that ask why a packet goes where it goes. `make SEED N` does
/// a script that it makes, and writes one line of numbers. `serve POLICY` serves the controllers and the switches of a
/// policy, which `links` dials, by works that `spawner` runs, and writes the audit to `out`, a line each; it waits for
/// them.
///
/// The exit status is 0 where all is done; 2 where the words are of no form; 3 where the policy file is refused; 4 at a
/// line that isn't done; 5 where a file or the script can't be read; 6 where the report or the audit can't be written;
/// 7 where there is no such file; 8 where an endpoint can't be dialled, and the others were served; 9 where the works
/// that serve can't be run; 10 for want of memory. With 2, 3, 4, 5, 7, 8 and 9 the last line tells the fault.
///
/// `notes` is told a sentence for each fault: with 3 what is wrong with the policy and where it stands, with 4 the line
/// and why it isn't done, with 5, 7, 8 and 9 what can't be read, is absent or wasn't served; and before a policy is served
/// what there is to remark of it. A sentence that can't be written there changes no status.
///
/// The steps of composition that the lines of a script take are counted in `steps`; those of a policy that is served
/// are not.
pub fn run<
    R: Wait + Threads + Sync,
    F: Files,
    S: Source,
    K: Sink + Send,
    N: Sink,
    L: Links,
    P: Spawner,
    C: Clock + Duplicate + Drop + Send,
    G: Ledger,
>(
    rt: &R,
    alloc: Global,
    words: &[String],
    files: &mut F,
    input: &mut S,
    out: &mut K,
    notes: &mut N,
    links: &mut L,
    spawner: &mut P,
    clock: &C,
    steps: &mut Steps<G>,
) -> u8
where
    L::Dial: Drop,
    <L::Dial as Dial>::In: Drop + Send,
    <L::Dial as Dial>::Out: Drop + Send,
    ensures runs { Runs ⟦<Hyper as Machine>⟧ (C.may clock.now)
        (outside_of (F.files files.old) (F.faults files.old) (S.remaining input.old) (S.faults input.old)
        (K.held out.old) (K.faults out.old) (L.told links.old) (L.is_reliable links.old) (L.faults links.old)
        (P.faults spawner.old) steps.old)
        (outside_of (F.files files.new) (F.faults files.new) (S.remaining input.new) (S.faults input.new)
        (K.held out.new) (K.faults out.new) (L.told links.new) (L.is_reliable links.new) (L.faults links.new)
        (P.faults spawner.new) steps.new)
        result (command_of words.now) }
    ensures notes { Noted result (command_of words.now) (F.files files.old) (F.faults files.old) (F.faults files.new)
        (S.remaining input.old) (N.held notes.old) (N.held notes.new) }
    ensures usage { (result ≡ 2) ↔ (command_of words.now ≡ None) }
{
    answer(
        rt, alloc, words, files, input, out, notes, links, spawner, clock, steps,
    )
    .code()
}

/// Does what the words say.
fn answer<
    R: Wait + Threads + Sync,
    F: Files,
    S: Source,
    K: Sink + Send,
    N: Sink,
    L: Links,
    P: Spawner,
    C: Clock + Duplicate + Drop + Send,
    G: Ledger,
>(
    rt: &R,
    alloc: Global,
    words: &[String],
    files: &mut F,
    input: &mut S,
    out: &mut K,
    notes: &mut N,
    links: &mut L,
    spawner: &mut P,
    clock: &C,
    steps: &mut Steps<G>,
) -> Status
where
    L::Dial: Drop,
    <L::Dial as Dial>::In: Drop + Send,
    <L::Dial as Dial>::Out: Drop + Send,
    ensures runs { Runs ⟦<Hyper as Machine>⟧ (C.may clock.now)
        (outside_of (F.files files.old) (F.faults files.old) (S.remaining input.old) (S.faults input.old)
        (K.held out.old) (K.faults out.old) (L.told links.old) (L.is_reliable links.old) (L.faults links.old)
        (P.faults spawner.old) steps.old)
        (outside_of (F.files files.new) (F.faults files.new) (S.remaining input.new) (S.faults input.new)
        (K.held out.new) (K.faults out.new) (L.told links.new) (L.is_reliable links.new) (L.faults links.new)
        (P.faults spawner.new) steps.new)
        (code_of result) (command_of words.now) }
    ensures notes { Notes result (command_of words.now) (F.files files.old) (F.faults files.old) (F.faults files.new)
        (S.remaining input.old) (N.held notes.old) (N.held notes.new) }
    ensures usage { (result ≡ Status.Usage) ↔ (command_of words.now ≡ None) }
{
    match asked(alloc, words) {
        Ok(command) => respond(
            rt, alloc, command, files, input, out, notes, links, spawner, clock, steps,
        ),
        Err(_) => Status::Memory,
    }
}

/// Does a command, if there is one.
fn respond<
    R: Wait + Threads + Sync,
    F: Files,
    S: Source,
    K: Sink + Send,
    N: Sink,
    L: Links,
    P: Spawner,
    C: Clock + Duplicate + Drop + Send,
    G: Ledger,
>(
    rt: &R,
    alloc: Global,
    command: Option<Command>,
    files: &mut F,
    input: &mut S,
    out: &mut K,
    notes: &mut N,
    links: &mut L,
    spawner: &mut P,
    clock: &C,
    steps: &mut Steps<G>,
) -> Status
where
    L::Dial: Drop,
    <L::Dial as Dial>::In: Drop + Send,
    <L::Dial as Dial>::Out: Drop + Send,
    ensures runs { Runs ⟦<Hyper as Machine>⟧ (C.may clock.now)
        (outside_of (F.files files.old) (F.faults files.old) (S.remaining input.old) (S.faults input.old)
        (K.held out.old) (K.faults out.old) (L.told links.old) (L.is_reliable links.old) (L.faults links.old)
        (P.faults spawner.old) steps.old)
        (outside_of (F.files files.new) (F.faults files.new) (S.remaining input.new) (S.faults input.new)
        (K.held out.new) (K.faults out.new) (L.told links.new) (L.is_reliable links.new) (L.faults links.new)
        (P.faults spawner.new) steps.new)
        (code_of result) command }
    ensures notes { Notes result command (F.files files.old) (F.faults files.old) (F.faults files.new)
        (S.remaining input.old) (N.held notes.old) (N.held notes.new) }
    ensures usage { (result ≡ Status.Usage) ↔ (command ≡ None) }
{
    match command {
        Some(command) => obey(
            rt, alloc, command, files, input, out, notes, links, spawner, clock, steps,
        ),
        None => write_fault(out, b"fault usage\n", Status::Usage),
    }
}

/// Does a command.
fn obey<
    R: Wait + Threads + Sync,
    F: Files,
    S: Source,
    K: Sink + Send,
    N: Sink,
    L: Links,
    P: Spawner,
    C: Clock + Duplicate + Drop + Send,
    G: Ledger,
>(
    rt: &R,
    alloc: Global,
    command: Command,
    files: &mut F,
    input: &mut S,
    out: &mut K,
    notes: &mut N,
    links: &mut L,
    spawner: &mut P,
    clock: &C,
    steps: &mut Steps<G>,
) -> Status
where
    L::Dial: Drop,
    <L::Dial as Dial>::In: Drop + Send,
    <L::Dial as Dial>::Out: Drop + Send,
    ensures runs { Runs ⟦<Hyper as Machine>⟧ (C.may clock.now)
        (outside_of (F.files files.old) (F.faults files.old) (S.remaining input.old) (S.faults input.old)
        (K.held out.old) (K.faults out.old) (L.told links.old) (L.is_reliable links.old) (L.faults links.old)
        (P.faults spawner.old) steps.old)
        (outside_of (F.files files.new) (F.faults files.new) (S.remaining input.new) (S.faults input.new)
        (K.held out.new) (K.faults out.new) (L.told links.new) (L.is_reliable links.new) (L.faults links.new)
        (P.faults spawner.new) steps.new)
        (code_of result) (Some command) }
    ensures notes { Notes result (Some command) (F.files files.old) (F.faults files.old) (F.faults files.new)
        (S.remaining input.old) (N.held notes.old) (N.held notes.new) }
    ensures form { result ≢ Status.Usage }
{
    match command {
        Command::Replay => replay_built_in(rt, alloc, input, out, notes, steps),
        Command::ReplayPolicy { name } => {
            replay_file(
                rt,
                alloc,
                Form::Replay,
                &name,
                files,
                input,
                out,
                notes,
                steps,
            )
        }
        Command::ExplainPolicy { name } => {
            replay_file(
                rt,
                alloc,
                Form::Explain,
                &name,
                files,
                input,
                out,
                notes,
                steps,
            )
        }
        Command::Serve { name } => {
            serve_file(rt, alloc, &name, files, out, notes, links, spawner, clock)
        }
        Command::Make { seed, count } => make(rt, alloc, seed, count, out, steps),
    }
}
