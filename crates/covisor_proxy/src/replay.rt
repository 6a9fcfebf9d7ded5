//! A replay: a script is read line by line, and its report is written as it comes.
ghost use Rattle.std.specs.Prelude.{◌≡◌, ◌≤◌, ◌+◌, [], IfErr, IfOk, None, OnOk, length, ℕ};
ghost use Rattle.replay_report.specs.Players.{Takes, form_of, is_ready, plan_of, progress_of, reported};
ghost use Rattle.replay_report.specs.Reports.{steps_in, steps_of_last, taken};
ghost use Rattle.covisor_proxy.specs.Following.{Closes, ClosesNot, Does, Halts, IsBegun, Leaves, Reaches, Reads};
ghost use Rattle.covisor_proxy.specs.Following.{ReadsNot};
ghost use Rattle.covisor_proxy.specs.Outcomes.{moment};

use crate::lines::{Lines, Taken};
use crate::stop::Stop;
use crate::writing::flush;
use cv_io::Steps;
use outside::{Sink, Source};
use replay_report::{Kind, LINE, Player};
use std::sync::ledger::Ledger;
use std::thread::Threads;

/// How many bytes of the report wait before they are written, though more of the script is there.
const FULL: usize = 65_536;

/// Replays a script up to its end. What is reported of it last waits.
pub(crate) fn replay_over<R: Threads + Sync, S: Source, K: Sink, G: Ledger>(
    rt: &R,
    player: &mut Player,
    lines: &mut Lines,
    input: &mut S,
    out: &mut K,
    steps: &mut Steps<G>,
) -> Result<(), Stop>
    requires begins { IsBegun (progress_of player.old) (plan_of player.old) }
    requires silent { reported player.old ≡ [] }
    requires ready { is_ready player.old }
    requires unread { lines.old ≡ record { line = []; unread = [] } }
    ensures reaches { Reaches result (form_of player.old) (plan_of player.old) (progress_of player.new)
        (reported player.new)
        (moment (S.remaining input.old) (S.faults input.old) (K.held out.old) (K.faults out.old) steps.old)
        (moment (S.remaining input.new) (S.faults input.new) (K.held out.new) (K.faults out.new) steps.new) }
{
    // Each round reads or does a byte at least, and a script has at most 2^32: no run gets to the end of this range.
    for _ in 0..u64::MAX {
        match lines.take()? {
            Taken::Whole => whole_line(rt, player, lines, out, steps)?,
            Taken::Part => {
                if !more(player, lines, input, out)? {
                    return last_line(rt, player, lines.line(), steps);
                }
            }
        }
    }
    Err(Stop::Memory)
}

/// Does a line that takes so many bytes of the script.
fn do_line<R: Threads + Sync, G: Ledger>(
    rt: &R,
    player: &mut Player,
    line: &[u8],
    used: usize,
    steps: &mut Steps<G>,
) -> Result<(), Stop>
    requires ready { is_ready player.old }
    requires some { 1 ≤ used }
    requires short { used ≤ length line.now + 1 }
    ensures takes { OnOk result (Takes None
        (taken (form_of player.old) (plan_of player.old) (progress_of player.old) line.now used)
        used (progress_of player.old) (progress_of player.new) (reported player.old) (reported player.new)) }
    ensures leaves { IfErr result (λ stop. Leaves stop
        (taken (form_of player.old) (plan_of player.old) (progress_of player.old) line.now used)
        used (progress_of player.old) (progress_of player.new) (reported player.old) (reported player.new)) }
    ensures form { form_of player.new ≡ form_of player.old }
    ensures plan { plan_of player.new ≡ plan_of player.old }
    ensures ready { OnOk result (is_ready player.new) }
    ensures steps { steps.new ≤ steps.old
        + steps_in (taken (form_of player.old) (plan_of player.old) (progress_of player.old) line.now used) }
{
    match player.line(rt, line, used, steps)? {
        None => Ok(()),
        Some(kind) => Err(Stop::Refused { kind }),
    }
}

/// Does a line whose line feed was read.
fn whole_line<R: Threads + Sync, K: Sink, G: Ledger>(
    rt: &R,
    player: &mut Player,
    lines: &mut Lines,
    out: &mut K,
    steps: &mut Steps<G>,
) -> Result<(), Stop>
    requires ready { is_ready player.old }
    ensures does { OnOk result (Does
        (taken (form_of player.old) (plan_of player.old) (progress_of player.old) lines.old.line
        (length lines.old.line + 1))
        (length lines.old.line + 1) (progress_of player.old) (progress_of player.new)
        (K.held out.old) (K.held out.new) (reported player.old) (reported player.new)) }
    ensures halts { IfErr result (λ stop. Halts stop
        (taken (form_of player.old) (plan_of player.old) (progress_of player.old) lines.old.line
        (length lines.old.line + 1))
        (progress_of player.old) (progress_of player.new)
        (K.held out.old) (K.held out.new) (K.faults out.old) (K.faults out.new)
        (reported player.old) (reported player.new)) }
    ensures next { OnOk result (lines.new ≡ record lines.old { line = [] }) }
    ensures quiet { OnOk result (K.faults out.new ≡ K.faults out.old) }
    ensures form { form_of player.new ≡ form_of player.old }
    ensures plan { plan_of player.new ≡ plan_of player.old }
    ensures ready { OnOk result (is_ready player.new) }
    ensures steps { steps.new ≤ steps.old + steps_in (taken (form_of player.old) (plan_of player.old)
        (progress_of player.old) lines.old.line (length lines.old.line + 1)) }
{
    do_line(rt, player, lines.line(), lines.line().len() + 1, steps)?;
    lines.clear();
    if player.report().len() < FULL {
        return Ok(());
    }
    flush(player, out).map_err(|_| Stop::Write)
}

/// Does what stands behind the last line feed, unless it is empty.
fn last_line<R: Threads + Sync, G: Ledger>(
    rt: &R,
    player: &mut Player,
    line: &[u8],
    steps: &mut Steps<G>,
) -> Result<(), Stop>
    requires ready { is_ready player.old }
    ensures closes { OnOk result (Closes (form_of player.old) (plan_of player.old) line.now
        (progress_of player.old) (progress_of player.new) (reported player.old) (reported player.new)) }
    ensures refused { IfErr result (λ stop. ClosesNot stop (form_of player.old) (plan_of player.old) line.now
        (progress_of player.old) (progress_of player.new) (reported player.old) (reported player.new)) }
    ensures steps { steps.new ≤ steps.old
        + steps_of_last (form_of player.old) (plan_of player.old) line.now (progress_of player.old) }
{
    if line.is_empty() {
        return Ok(());
    }
    do_line(rt, player, line, line.len(), steps)
}

/// Reads on in a line, once all that was reported is written; false at the end of the script.
fn more<S: Source, K: Sink>(
    player: &mut Player,
    lines: &mut Lines,
    input: &mut S,
    out: &mut K,
) -> Result<bool, Stop>
    ensures reads { (steps : ℕ) → IfOk result (λ going. Reads going
        (moment (S.remaining input.old) (S.faults input.old) (K.held out.old) (K.faults out.old) steps)
        (moment (S.remaining input.new) (S.faults input.new) (K.held out.new) (K.faults out.new) steps)
        lines.old lines.new (reported player.old) (reported player.new)) }
    ensures stops { (steps : ℕ) → IfErr result (λ stop. ReadsNot stop
        (moment (S.remaining input.old) (S.faults input.old) (K.held out.old) (K.faults out.old) steps)
        (moment (S.remaining input.new) (S.faults input.new) (K.held out.new) (K.faults out.new) steps)
        lines.old.line (reported player.old) (reported player.new)) }
    ensures progress { progress_of player.new ≡ progress_of player.old }
    ensures form { form_of player.new ≡ form_of player.old }
    ensures plan { plan_of player.new ≡ plan_of player.old }
    ensures ready { is_ready player.old → is_ready player.new }
{
    if lines.line().len() > LINE {
        return Err(Stop::Refused { kind: Kind::Long });
    }
    flush(player, out).map_err(|_| Stop::Write)?;
    lines.fill(input).map_err(|_| Stop::Read)
}
