//! A made script, line by line. What is to be shown of a replay is answered goal by goal, since a search would compute
//! the definitions of the machine.
ghost use Rattle.std.specs.Prelude.{◌≡◌, ◌≤◌, ◌+◌, [], IfOk, OnOk, length};
ghost use Rattle.script_text.specs.declared.form.Form.TheVariants.{Replay};
ghost use Rattle.replay_report.specs.Players.{form_of, is_ready, plan_of, progress_of, reported};
ghost use Rattle.replay_report.specs.MadeCounts.{counted_unless, nothing};
ghost use Rattle.replay_report.specs.Making.{Stepped, after_line, after_lines, first, line_steps, lines_steps, made_of};
ghost use Rattle.replay_report.specs.Making.{made_steps, script_steps, summary_in, tally_of};

use crate::bench_policy::policy;
use crate::kind::Kind;
use crate::made_counts::Counts;
use crate::player::Player;
use cv_io::{Memory, Steps};
use made_script::{Made, Summary};
use policies::Policy;
use script_text::Form;
use std::alloc::Global;
use std::sync::ledger::Ledger;
use std::thread::Threads;

/// How many bytes of a script a line takes with its line feed.
fn used(line: &[u8]) -> usize
    ensures { result ≡ length line.now + 1 }
{
    line.len() + 1
}

/// A replay of which nothing is done yet.
#[tactic(none)]
fn begin<R: Threads + Sync>(rt: &R, alloc: Global, policy: Policy) -> Result<Player, Memory>
    ensures form { IfOk result (λ player. form_of player ≡ Replay) }
    ensures plan { IfOk result (λ player. plan_of player ≡ policy) }
    ensures first { IfOk result (λ player. tally_of player nothing ≡ first policy) }
    ensures report { IfOk result (λ player. reported player ≡ []) }
    ensures ready { IfOk result is_ready }
{
    Player::open(rt, alloc, Form::Replay, policy)
}

/// Does a line, or tells why it isn't done.
#[tactic(none)]
fn do_line<R: Threads + Sync, G: Ledger>(
    rt: &R,
    player: &mut Player,
    line: &[u8],
    steps: &mut Steps<G>,
) -> Result<Option<Kind>, Memory>
    requires form { form_of player.old ≡ Replay }
    requires report { reported player.old ≡ [] }
    requires ready { is_ready player.old }
    ensures stepped { IfOk result (λ refused. Stepped refused player.old player.new line.now) }
    ensures form { form_of player.new ≡ form_of player.old }
    ensures plan { plan_of player.new ≡ plan_of player.old }
    ensures ready { OnOk result (is_ready player.new) }
    ensures steps { steps.new ≤ steps.old + line_steps (plan_of player.old) (progress_of player.old) line.now }
{
    player.line(rt, line, used(line), steps)
}

/// Counts a line and what was reported of it, unless it wasn't done.
fn count_line(
    counts: &mut Counts,
    line: &[u8],
    refused: Option<Kind>,
    report: &[u8],
) -> Result<(), Memory>
    ensures { OnOk result (counts.new ≡ counted_unless refused counts.old line.now report.now) }
{
    match refused {
        None => {
            *counts = counts.count(line, report)?;
            Ok(())
        }
        Some(_) => Ok(()),
    }
}

/// Does a line, counts what is reported of it, and forgets the report.
#[tactic(none)]
fn play_line<R: Threads + Sync, G: Ledger>(
    rt: &R,
    player: &mut Player,
    counts: &mut Counts,
    line: &[u8],
    steps: &mut Steps<G>,
) -> Result<(), Memory>
    requires form { form_of player.old ≡ Replay }
    requires report { reported player.old ≡ [] }
    requires ready { is_ready player.old }
    ensures tally { OnOk result (tally_of player.new counts.new
        ≡ after_line (plan_of player.old) (tally_of player.old counts.old) line.now) }
    ensures form { OnOk result (form_of player.new ≡ Replay) }
    ensures plan { OnOk result (plan_of player.new ≡ plan_of player.old) }
    ensures report { OnOk result (reported player.new ≡ []) }
    ensures ready { OnOk result (is_ready player.new) }
    ensures steps { steps.new ≤ steps.old + line_steps (plan_of player.old) (progress_of player.old) line.now }
{
    let refused = do_line(rt, player, line, steps)?;
    count_line(counts, line, refused, player.report())?;
    player.clear();
    Ok(())
}

/// Does the lines that are left of a script, one after the other.
#[tactic(none)]
fn play_lines<R: Threads + Sync, G: Ledger>(
    rt: &R,
    player: &mut Player,
    counts: &mut Counts,
    script: &mut Made,
    steps: &mut Steps<G>,
) -> Result<(), Memory>
    requires form { form_of player.old ≡ Replay }
    requires report { reported player.old ≡ [] }
    requires ready { is_ready player.old }
    ensures tally { OnOk result (tally_of player.new counts.new
        ≡ after_lines (plan_of player.old) (tally_of player.old counts.old) script.old) }
    ensures plan { OnOk result (plan_of player.new ≡ plan_of player.old) }
    ensures steps { steps.new
        ≤ steps.old + lines_steps (plan_of player.old) (tally_of player.old counts.old) script.old }
{
    loop {
        let Some(line) = script.next()? else {
            return Ok(());
        };
        play_line(rt, player, counts, line.as_bytes(), steps)?;
    }
}

/// Does a script of so many lines, and tells what it gave.
#[tactic(none)]
fn tell<R: Threads + Sync, G: Ledger>(
    rt: &R,
    player: &mut Player,
    script: &mut Made,
    lines: u64,
    steps: &mut Steps<G>,
) -> Result<Summary, Memory>
    requires form { form_of player.old ≡ Replay }
    requires first { tally_of player.old nothing ≡ first (plan_of player.old) }
    requires report { reported player.old ≡ [] }
    requires lines { lines ≡ length script.old }
    requires ready { is_ready player.old }
    ensures summary { IfOk result (λ summary. summary ≡ summary_in (plan_of player.old) script.old) }
    ensures steps { steps.new ≤ steps.old + script_steps (plan_of player.old) script.old }
{
    let mut counts = Counts::new();
    play_lines(rt, player, &mut counts, script, steps)?;
    let rules = player.rules()?;
    Ok(Summary {
        lines,
        accepted: counts.accepted,
        rules,
        sent: counts.sent,
    })
}

/// What a script of so many lines gives over a policy.
#[tactic(none)]
fn summary<R: Threads + Sync, G: Ledger>(
    rt: &R,
    alloc: Global,
    policy: Policy,
    mut script: Made,
    lines: u64,
    steps: &mut Steps<G>,
) -> Result<Summary, Memory>
    requires { lines ≡ length script }
    ensures summary { IfOk result (λ summary. summary ≡ summary_in policy script) }
    ensures steps { steps.new ≤ steps.old + script_steps policy script }
{
    let mut player = begin(rt, alloc, policy)?;
    let told = tell(rt, &mut player, &mut script, lines, steps);
    player.close();
    told
}

/// What the script of a seed with so many messages gives over the policy of benchmarks. The steps of composition that
/// it takes are counted.
pub fn make<R: Threads + Sync, G: Ledger>(
    rt: &R,
    alloc: Global,
    seed: u64,
    count: u32,
    steps: &mut Steps<G>,
) -> Result<Summary, Memory>
    ensures summary { IfOk result (λ summary. summary ≡ made_of seed count) }
    ensures lines { IfOk result (λ summary. summary.lines ≡ count + 3) }
    ensures steps { steps.new ≤ steps.old + made_steps seed count }
{
    let script = Made::new(alloc, seed, count);
    summary(
        rt,
        alloc,
        policy(alloc)?,
        script,
        u64::from(count) + 3,
        steps,
    )
}
