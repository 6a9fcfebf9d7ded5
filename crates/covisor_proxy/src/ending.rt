//! The last line of a report.
ghost use Rattle.std.specs.Prelude.{◌≡◌, ◌≢◌, ◌+◌, ◌++◌, Err, IfOk, IsOk, List, OnErr, OnOk, Option, ℕ};
ghost use Rattle.outside.specs.Outside.{Rose};
ghost use Rattle.policies.specs.Policies.{PolicyOf};
ghost use Rattle.replay_report.specs.Players.{progress_of, reported};
ghost use Rattle.replay_report.specs.Reports.{end_text, refusal_text};
ghost use Rattle.replay_report.specs.Takings.{as_line};
ghost use Rattle.script_text.specs.declared.form.Form.{Form};
ghost use Rattle.covisor_proxy.specs.Asked.{cut_given_of, given_of};
ghost use Rattle.covisor_proxy.specs.Following.{EndsWith, Reaches, StopsWith};
ghost use Rattle.covisor_proxy.specs.Noted.{IsEnd};
ghost use Rattle.covisor_proxy.specs.Outcomes.{Moment, Replayed, moment};
ghost use Rattle.covisor_proxy.specs.Written.{Appends, AppendsShort, Writes};

use crate::status::Status;
use crate::stop::Stop;
use crate::writing::{flush, write_all};
use cv_io::{Memory, Text};
use outside::{Failed, Sink};
use replay_report::{Kind, Player};
use script_text::{say, say_number};
use std::alloc::Global;

/// Writes the last line of a fault. The status stays where that fails.
pub(crate) fn write_fault<K: Sink>(out: &mut K, line: &[u8], status: Status) -> Status
    ensures status { result ≡ status }
    ensures writes { Writes (K.held out.old) (K.held out.new) (K.faults out.old) (K.faults out.new) line.now }
{
    let _written = write_all(out, line);
    status
}

/// Writes what still waits of the report of a replay that ended so, and its last line.
pub(crate) fn conclude<K: Sink>(
    alloc: Global,
    player: &mut Player,
    outcome: Result<(), Stop>,
    out: &mut K,
) -> Status
    ensures ends { (form : Form) (p : PolicyOf) (old : Moment) (left : Option (List ℕ)) (reads steps : ℕ)
        → Reaches outcome form p (progress_of player.old) (reported player.old) old
        (moment left reads (K.held out.old) (K.faults out.old) steps)
        → Replayed result (given_of form p) (cut_given_of form p) old
        (moment left reads (K.held out.new) (K.faults out.new) steps) }
    ensures form { result ≢ Status.Usage }
    ensures done { result ≡ Status.Done → IsOk outcome }
    ensures end { IsEnd result outcome }
{
    match outcome {
        Ok(()) => end(alloc, player, out),
        Err(stop) => stopped(alloc, player, stop, out),
    }
}

/// A script that was read to its end.
fn end<K: Sink>(alloc: Global, player: &mut Player, out: &mut K) -> Status
    ensures { EndsWith result (K.held out.old) (K.held out.new) (K.faults out.old) (K.faults out.new)
        (reported player.old) (as_line (end_text (progress_of player.old).number)) }
{
    let Ok(last) = end_line(alloc, player.number()) else {
        return Status::Memory;
    };
    match write_rest(player, out, last.as_bytes()) {
        Ok(()) => Status::Done,
        Err(_) => Status::Write,
    }
}

/// A script that wasn't read to its end.
fn stopped<K: Sink>(alloc: Global, player: &mut Player, stop: Stop, out: &mut K) -> Status
    ensures ends { (form : Form) (p : PolicyOf) (old : Moment) (left : Option (List ℕ)) (reads steps : ℕ)
        → Reaches (Err stop) form p (progress_of player.old) (reported player.old) old
        (moment left reads (K.held out.old) (K.faults out.old) steps)
        → Replayed result (given_of form p) (cut_given_of form p) old
        (moment left reads (K.held out.new) (K.faults out.new) steps) }
    ensures form { result ≢ Status.Usage }
    ensures done { result ≢ Status.Done }
    ensures end { IsEnd result (Err stop) }
{
    match stop {
        Stop::Refused { kind } => refuse(alloc, player, kind, out),
        Stop::Read => write_fault(out, b"fault read\n", Status::Read),
        Stop::Write => Status::Write,
        Stop::Memory => Status::Memory,
    }
}

/// A script that stops at a line.
fn refuse<K: Sink>(alloc: Global, player: &mut Player, kind: Kind, out: &mut K) -> Status
    ensures { StopsWith result (K.held out.old) (K.held out.new) (K.faults out.old) (K.faults out.new)
        (reported player.old) (as_line (refusal_text ((progress_of player.old).number + 1) kind)) }
{
    match refusal_line(alloc, player.number() + 1, kind) {
        Ok(last) => write_stop(player, out, last.as_bytes()),
        Err(_) => Status::Memory,
    }
}

/// Writes what waits, and a last line.
#[tactic(auto, using(crate::proofs::Appending::appends_both, crate::proofs::Appending::short_after, crate::proofs::Appending::short_more))]
fn write_rest<K: Sink>(player: &mut Player, out: &mut K, last: &[u8]) -> Result<(), Failed>
    ensures written { OnOk result (Appends (K.held out.old) (K.held out.new) (reported player.old ++ last.now)) }
    ensures short { OnErr result (AppendsShort (K.held out.old) (K.held out.new) (reported player.old ++ last.now)) }
    ensures quiet { OnOk result (K.faults out.new ≡ K.faults out.old) }
    ensures fault { OnErr result (Rose (K.faults out.old) (K.faults out.new)) }
{
    flush(player, out)?;
    write_all(out, last)
}

/// Writes what waits, and the last line of a script that stops at a line.
#[tactic(auto, using(crate::proofs::Appending::appends_both))]
fn write_stop<K: Sink>(player: &mut Player, out: &mut K, last: &[u8]) -> Status
    ensures { StopsWith result (K.held out.old) (K.held out.new) (K.faults out.old) (K.faults out.new)
        (reported player.old) last.now }
{
    match flush(player, out) {
        Ok(()) => write_fault(out, last, Status::Line),
        Err(_) => Status::Write,
    }
}

fn end_line(alloc: Global, lines: u64) -> Result<Text, Memory>
    ensures { IfOk result (λ line. line ≡ as_line (end_text lines)) }
{
    let mut line = Text::new(alloc);
    say(&mut line, "end lines=")?;
    say_number(alloc, &mut line, lines)?;
    line.push(b'\n')?;
    Ok(line)
}

fn refusal_line(alloc: Global, number: u64, kind: Kind) -> Result<Text, Memory>
    ensures { IfOk result (λ line. line ≡ as_line (refusal_text number kind)) }
{
    let mut line = Text::new(alloc);
    say(&mut line, "fault line=")?;
    say_number(alloc, &mut line, number)?;
    say(&mut line, " kind=")?;
    say(&mut line, kind.word())?;
    line.push(b'\n')?;
    Ok(line)
}
