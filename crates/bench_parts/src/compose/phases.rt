//! What is done, and what came of it. Tables and composed rules are let go of by `drop`: at the end of a scope, each
//! way out of it would have to show again that all their parts can be let go.
ghost use Rattle.std.specs.Prelude.{◌≡◌, ◌<◌};
ghost use Rattle.std.specs.List.{AllByRecursion};
ghost use Rattle.policy_meaning.specs.LeafFact.{IsSoundTable};

use super::asked::{Asked, Phase};
use super::members::SIZE;
use cv_io::{List, Memory, Steps};
use fitting_changes::Composer;
use policy_meaning::LeafTable;
use std::alloc::Global;
use std::sync::ledger::{Blank, Ledger};
use std::thread::Threads;

/// How many rules there are, where they are counted, or came, and how many went.
#[derive(Clone, Copy)]
pub struct Tally {
    pub came: usize,
    pub went: usize,
}

/// The rules of the members' tables, composed if they can be.
fn composed_of<R: Threads + Sync, G: Ledger>(
    rt: &R,
    alloc: Global,
    asked: &Asked,
    tables: List<LeafTable>,
    ports: &List<u16>,
    steps: &mut Steps<G>,
) -> Result<Option<Composer>, Memory>
    requires { AllByRecursion IsSoundTable tables }
{
    let made = Composer::build(rt, alloc, asked.shape, SIZE, &tables, ports, steps);
    drop(tables);
    made
}

/// The members' rules, composed.
fn composed<R: Threads + Sync, G: Ledger>(
    rt: &R,
    alloc: Global,
    asked: &Asked,
    steps: &mut Steps<G>,
) -> Result<Composer, Memory> {
    let ports = List::from_slice(alloc, &[1, 2, 3, 4])?;
    let tables = asked.tables(alloc)?;
    let made = composed_of(rt, alloc, asked, tables, &ports, steps)?;
    made.ok_or(Memory)
}

impl Tally {
    /// The entry of a number comes or goes.
    fn change<G: Ledger>(
        &mut self,
        alloc: Global,
        asked: &Asked,
        composer: &mut Composer,
        number: u16,
        comes: bool,
        steps: &mut Steps<G>,
    ) -> Result<(), Memory> {
        let delta = asked.delta(alloc, number, comes)?;
        if composer.can_take(&delta) {
            let told = composer.apply(delta, steps)?;
            self.came = self.came.wrapping_add(told.come.len());
            self.went = self.went.wrapping_add(told.gone.len());
        }
        Ok(())
    }

    /// An entry comes in each turn, or each of these goes.
    fn turn<G: Ledger>(
        &mut self,
        alloc: Global,
        asked: &Asked,
        composer: &mut Composer,
        comes: bool,
        steps: &mut Steps<G>,
    ) -> Result<(), Memory> {
        for turn in 0..asked.turns {
            let number = asked.rules.wrapping_add(turn);
            self.change(alloc, asked, composer, number, comes, steps)?;
        }
        Ok(())
    }
}

/// All is composed in each turn.
fn anew<R: Threads + Sync, G: Ledger>(
    rt: &R,
    alloc: Global,
    asked: &Asked,
    steps: &mut Steps<G>,
) -> Result<(), Memory> {
    for _turn in 0..asked.turns {
        drop(composed(rt, alloc, asked, steps)?);
    }
    Ok(())
}

/// Does what is asked for.
fn done<R: Threads + Sync, G: Ledger>(
    rt: &R,
    alloc: Global,
    asked: &Asked,
    composer: &mut Composer,
    steps: &mut Steps<G>,
) -> Result<Tally, Memory> {
    let mut tally = Tally { came: 0, went: 0 };
    match asked.phase {
        Phase::Count => tally.came = composer.rules()?.len(),
        Phase::Adds => tally.turn(alloc, asked, composer, true, steps)?,
        Phase::Both => {
            tally.turn(alloc, asked, composer, true, steps)?;
            tally.turn(alloc, asked, composer, false, steps)?;
        }
        Phase::Anew => anew(rt, alloc, asked, steps)?,
    }
    Ok(tally)
}

/// Composes the members' rules, and does what is asked for.
fn run<R: Threads + Sync, G: Ledger>(
    rt: &R,
    alloc: Global,
    asked: &Asked,
    steps: &mut Steps<G>,
) -> Result<Tally, Memory> {
    let mut composer = composed(rt, alloc, asked, steps)?;
    let tally = done(rt, alloc, asked, &mut composer, steps);
    drop(composer);
    tally
}

/// Does what is asked for, with a counter of its own.
pub fn counted<R: Threads + Sync, G: Ledger>(
    rt: &R,
    alloc: Global,
    asked: &Asked,
    blank: Blank,
) -> Result<Tally, Memory>
    requires { (blank.name ≡ G.name) × (blank.parts ≡ G.parts) × (0 < blank.parts) }
{
    let mut steps = Steps::<G>::new(blank);
    run(rt, alloc, asked, &mut steps)
}
