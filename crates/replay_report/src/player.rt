//! A replay, line by line.
ghost use Rattle.std.specs.Prelude.{◌≡◌, ◌≤◌, ◌<◌, ◌+◌, ◌^◌, [], IfOk, OnOk, length, map};
ghost use Rattle.replay_report.specs.Kinds.{Reads};
ghost use Rattle.replay_report.specs.Reports.{fresh_for};
ghost use Rattle.script_text.specs.Reading.{line_in};

use crate::kind::{Kind, kind_of};
use crate::lines::play;
use crate::sessions::{Named, sessions};
use crate::streams::Stream;
use crate::telling::Stage;
use cv_io::{List, Memory, Steps};
use policies::Policy;
use script_text::{Form, Line, read_line};
use std::alloc::Global;
use std::sync::ledger::Ledger;
use std::thread::Threads;

/// The most bytes of a line, without its line feed.
pub const LINE: usize = 140_000;

/// The most bytes of a script.
pub const SCRIPT: u64 = 0xffff_ffff;

/// A stream for each session.
fn streams(alloc: Global, names: &[Named]) -> Result<List<Stream>, Memory>
    ensures { IfOk result (λ streams. streams ≡ map fresh_for names.now) }
{
    let mut streams = List::new(alloc);
    for _name in names {
        streams.push(Stream::new(alloc))?;
    }
    Ok(streams)
}

/// What a line says, or why it says nothing.
fn read(alloc: Global, form: Form, line: &[u8]) -> Result<Result<Line, Kind>, Memory>
    ensures { IfOk result (Reads (line_in form line.now)) }
{
    match read_line(alloc, form, line) {
        Ok(line) => Ok(Ok(line)),
        Err(fault) => match kind_of(fault) {
            Some(kind) => Ok(Err(kind)),
            None => Err(Memory),
        },
    }
}

/// A replay of a policy.
#[derive(Drop)]
pub struct Player {
    form: Form,
    stage: Stage,
    streams: List<Stream>,
    /// How many lines were done.
    number: u64,
    /// How many bytes of the script they took.
    size: u64,
    ghost paired: { length streams ≡ length stage.names },
    ghost counted: { number ≤ size },
    ghost short: { size < 2 ^ 32 },
}

impl Player {
    ghost use Rattle.replay_report.specs.Players.{Takes, form_of, is_ready, plan_of, progress_of, reported, rules_at};
    ghost use Rattle.replay_report.specs.Reports.{start, steps_in, taken};

    /// A replay that begins.
    #[tactic(auto, unfolding(crate::specs::Players::form_of, crate::specs::Players::plan_of, crate::specs::Players::reported, crate::specs::Players::progress_of, crate::specs::Players::is_ready))]
    pub fn open<R: Threads + Sync>(
        rt: &R,
        alloc: Global,
        form: Form,
        policy: Policy,
    ) -> Result<Player, Memory>
        ensures form { IfOk result (λ player. form_of player ≡ form) }
        ensures plan { IfOk result (λ player. plan_of player ≡ policy) }
        ensures begins { IfOk result (λ player. progress_of player ≡ start policy) }
        ensures report { IfOk result (λ player. reported player ≡ []) }
        ensures ready { IfOk result is_ready }
    {
        let names = sessions(alloc, &policy)?;
        let streams = streams(alloc, names.as_slice())?;
        let stage = Stage::open(rt, alloc, policy, names)?;
        Ok(Player {
            form,
            stage,
            streams,
            number: 0,
            size: 0,
        })
    }

    /// Lets go of it. Who ends a replay by this need not show again that each of its parts can be let go.
    pub fn close(self) {
        self.stage.close();
    }

    /// How many lines were done.
    #[tactic(auto, unfolding(crate::specs::Players::form_of, crate::specs::Players::plan_of, crate::specs::Players::reported, crate::specs::Players::progress_of))]
    pub fn number(&self) -> u64
        ensures number { result ≡ (progress_of self.now).number }
        ensures short { result < 2 ^ 32 }
    {
        self.number
    }

    /// What was reported and not yet cleared.
    #[tactic(auto, unfolding(crate::specs::Players::form_of, crate::specs::Players::plan_of, crate::specs::Players::reported, crate::specs::Players::progress_of))]
    pub fn report(&self) -> &[u8]
        ensures { result.now ≡ reported self.now }
    {
        self.stage.report.as_slice()
    }

    /// What was reported is written.
    #[tactic(auto, unfolding(crate::specs::Players::form_of, crate::specs::Players::plan_of, crate::specs::Players::reported, crate::specs::Players::progress_of, crate::specs::Players::is_ready))]
    pub fn clear(&mut self)
        ensures report { reported self.new ≡ [] }
        ensures progress { progress_of self.new ≡ progress_of self.old }
        ensures form { form_of self.new ≡ form_of self.old }
        ensures plan { plan_of self.new ≡ plan_of self.old }
        ensures ready { is_ready self.old → is_ready self.new }
    {
        self.stage.report.clear();
    }

    /// How many composed rules the expression of the first virtual switch has.
    #[tactic(auto, unfolding(crate::specs::Players::form_of, crate::specs::Players::plan_of, crate::specs::Players::reported, crate::specs::Players::progress_of, crate::specs::Players::rules_at))]
    pub fn rules(&self) -> Result<u64, Memory>
        ensures { IfOk result (λ count. count ≡ rules_at (plan_of self.now) (progress_of self.now)) }
    {
        self.stage.machine.rules(0)
    }

    /// Does a line, which takes so many bytes of the script, and reports what it does; or tells why it isn't done. The
    /// steps of composition that it takes are counted.
    #[tactic(auto, unfolding(crate::specs::Players::form_of, crate::specs::Players::plan_of, crate::specs::Players::reported, crate::specs::Players::progress_of, crate::specs::Players::is_ready))]
    pub fn line<R: Threads + Sync, G: Ledger>(
        &mut self,
        rt: &R,
        line: &[u8],
        used: usize,
        steps: &mut Steps<G>,
    ) -> Result<Option<Kind>, Memory>
        requires some { 1 ≤ used }
        requires short { used ≤ length line.now + 1 }
        requires ready { is_ready self.old }
        ensures takes { IfOk result (λ refused. Takes refused (taken (form_of self.old) (plan_of self.old)
            (progress_of self.old) line.now used)
            used (progress_of self.old) (progress_of self.new) (reported self.old) (reported self.new)) }
        ensures form { form_of self.new ≡ form_of self.old }
        ensures plan { plan_of self.new ≡ plan_of self.old }
        ensures ready { OnOk result (is_ready self.new) }
        ensures steps { steps.new ≤ steps.old + steps_in (taken (form_of self.old) (plan_of self.old)
            (progress_of self.old) line.now used) }
    {
        if line.len() > LINE {
            return Ok(Some(Kind::Long));
        }
        let size = self.size + used as u64;
        if size > SCRIPT {
            return Ok(Some(Kind::Size));
        }
        let said = match read(self.stage.alloc, self.form, line)? {
            Ok(said) => said,
            Err(kind) => return Ok(Some(kind)),
        };
        if !play(rt, &mut self.stage, &mut self.streams, &said, steps)? {
            return Ok(Some(Kind::Unknown));
        }
        self.number += 1;
        self.size = size;
        Ok(None)
    }
}
