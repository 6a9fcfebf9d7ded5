//! The forms of the program.
ghost use Rattle.std.specs.Prelude.{◌≡◌, ◌≢◌, ◌≤◌, ◌+◌, [], IfOk};
ghost use Rattle.made_script.specs.Summary.{summary_text};
ghost use Rattle.replay_report.specs.Making.{made_of, made_steps};
ghost use Rattle.replay_report.specs.Players.{form_of, is_ready, plan_of, progress_of, reported};
ghost use Rattle.replay_report.specs.Takings.{as_line};
ghost use Rattle.covisor_proxy.specs.Asked.{cut_given_of, given_of, over_built_in};
ghost use Rattle.covisor_proxy.specs.BuiltIn.{built_in_read};
ghost use Rattle.covisor_proxy.specs.Chunks.{IsAtEnd};
ghost use Rattle.covisor_proxy.specs.Following.{EndsWith, IsBegun};
ghost use Rattle.covisor_proxy.specs.Noted.{NotesFile, NotesOver};
ghost use Rattle.covisor_proxy.specs.Outcomes.{Replayed, moment};
ghost use Rattle.script_text.specs.declared.form.Form.TheVariants as forms;
ghost use Rattle.covisor_proxy.specs.Runs.{EndsOver};

use crate::ending::conclude;
use crate::line_notes::session_names;
use crate::lines::Lines;
use crate::noting::note_end;
use crate::opening::{open, open_built_in};
use crate::replay::replay_over;
use crate::status::Status;
use crate::telling::tell;
use crate::writing::write_all;
use cv_io::{Memory, Steps, Text};
use made_script::summary_line;
use outside::{Files, Sink, Source};
use policies::Policy;
use replay_report::Player;
use script_text::Form;
use std::alloc::Global;
use std::sync::ledger::Ledger;
use std::thread::Threads;

/// A replay of which nothing is done yet.
fn begin<R: Threads + Sync>(
    rt: &R,
    alloc: Global,
    form: Form,
    policy: Policy,
) -> Result<Player, Memory>
    ensures form { IfOk result (λ player. form_of player ≡ form) }
    ensures plan { IfOk result (λ player. plan_of player ≡ policy) }
    ensures begins { IfOk result (λ player. IsBegun (progress_of player) policy) }
    ensures report { IfOk result (λ player. reported player ≡ []) }
    ensures ready { IfOk result (λ player. is_ready player) }
{
    Player::open(rt, alloc, form, policy)
}

/// Replays a script over a policy.
fn replay<R: Threads + Sync, S: Source, K: Sink, N: Sink, G: Ledger>(
    rt: &R,
    alloc: Global,
    form: Form,
    policy: Policy,
    input: &mut S,
    out: &mut K,
    notes: &mut N,
    steps: &mut Steps<G>,
) -> Status
    ensures ends { Replayed result (given_of form policy) (cut_given_of form policy)
        (moment (S.remaining input.old) (S.faults input.old) (K.held out.old) (K.faults out.old) steps.old)
        (moment (S.remaining input.new) (S.faults input.new) (K.held out.new) (K.faults out.new) steps.new) }
    ensures notes { NotesOver result form (given_of form policy) (S.remaining input.old)
        (N.held notes.old) (N.held notes.new) }
    ensures form { result ≢ Status.Usage }
    ensures whole { result ≡ Status.Done → IsAtEnd (S.remaining input.new) }
{
    let names = session_names(alloc, &policy).unwrap_or(Text::new(alloc));
    let Ok(mut lines) = Lines::new(alloc) else {
        return Status::Memory;
    };
    let Ok(mut player) = begin(rt, alloc, form, policy) else {
        return Status::Memory;
    };
    let outcome = replay_over(rt, &mut player, &mut lines, input, out, steps);
    let number = player.number() + 1;
    let status = conclude(alloc, &mut player, outcome, out);
    player.close();
    let line = lines.line();
    note_end(alloc, notes, status, outcome, form, number, line, names);
    status
}

/// Replays a script over the built-in policy.
pub(crate) fn replay_built_in<R: Threads + Sync, S: Source, K: Sink, N: Sink, G: Ledger>(
    rt: &R,
    alloc: Global,
    input: &mut S,
    out: &mut K,
    notes: &mut N,
    steps: &mut Steps<G>,
) -> Status
    ensures ends { Replayed result (over_built_in given_of built_in_read) (over_built_in cut_given_of built_in_read)
        (moment (S.remaining input.old) (S.faults input.old) (K.held out.old) (K.faults out.old) steps.old)
        (moment (S.remaining input.new) (S.faults input.new) (K.held out.new) (K.faults out.new) steps.new) }
    ensures notes { NotesOver result forms.Replay (over_built_in given_of built_in_read) (S.remaining input.old)
        (N.held notes.old) (N.held notes.new) }
    ensures form { result ≢ Status.Usage }
    ensures whole { result ≡ Status.Done → IsAtEnd (S.remaining input.new) }
{
    match open_built_in(alloc) {
        Ok(policy) => replay(rt, alloc, Form::Replay, policy, input, out, notes, steps),
        Err(_) => Status::Memory,
    }
}

/// Replays a script over the policy of a file.
pub(crate) fn replay_file<R: Threads + Sync, F: Files, S: Source, K: Sink, N: Sink, G: Ledger>(
    rt: &R,
    alloc: Global,
    form: Form,
    name: &Text,
    files: &mut F,
    input: &mut S,
    out: &mut K,
    notes: &mut N,
    steps: &mut Steps<G>,
) -> Status
    ensures ends { EndsOver result form name.now (F.files files.old) (F.faults files.old) (F.faults files.new)
        (moment (S.remaining input.old) (S.faults input.old) (K.held out.old) (K.faults out.old) steps.old)
        (moment (S.remaining input.new) (S.faults input.new) (K.held out.new) (K.faults out.new) steps.new) }
    ensures notes { NotesFile result form name.now (F.files files.old) (F.faults files.old) (F.faults files.new)
        (S.remaining input.old) (N.held notes.old) (N.held notes.new) }
    ensures form { result ≢ Status.Usage }
    ensures whole { result ≡ Status.Done → IsAtEnd (S.remaining input.new) }
{
    match open(alloc, files, name) {
        Ok(policy) => replay(rt, alloc, form, policy, input, out, notes, steps),
        Err(fault) => tell(alloc, name, fault, out, notes),
    }
}

/// Does a script that is made, and writes one line of numbers.
pub(crate) fn make<R: Threads + Sync, K: Sink, G: Ledger>(
    rt: &R,
    alloc: Global,
    seed: u64,
    count: u32,
    out: &mut K,
    steps: &mut Steps<G>,
) -> Status
    ensures ends { EndsWith result (K.held out.old) (K.held out.new) (K.faults out.old) (K.faults out.new)
        [] (as_line (summary_text (made_of seed count))) }
    ensures steps { steps.new ≤ steps.old + made_steps seed count }
{
    let Ok(line) = made_line(rt, alloc, seed, count, steps) else {
        return Status::Memory;
    };
    match write_all(out, line.as_bytes()) {
        Ok(()) => Status::Done,
        Err(_) => Status::Write,
    }
}

/// The line of numbers of a script that is made.
fn made_line<R: Threads + Sync, G: Ledger>(
    rt: &R,
    alloc: Global,
    seed: u64,
    count: u32,
    steps: &mut Steps<G>,
) -> Result<Text, Memory>
    ensures line { IfOk result (λ line. line ≡ as_line (summary_text (made_of seed count))) }
    ensures steps { steps.new ≤ steps.old + made_steps seed count }
{
    let summary = replay_report::make(rt, alloc, seed, count, steps)?;
    let mut line = summary_line(alloc, &summary)?;
    line.push(b'\n')?;
    Ok(line)
}
