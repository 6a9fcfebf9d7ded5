//! Entries are added, changed and taken out.
ghost use Rattle.std.specs.Prelude.{◌<◌};
ghost use Rattle.of10_actions.specs.Actions.{AreInRange};

use super::asked::{Asked, Phases};
use super::counts::{Counts, NOTHING};
use super::messages::{to_all, to_one};
use member_table::{Table, TableFault};
use of10_msgs::{Command, FlowMod};
use std::alloc::Global;

/// How many entries the table may have.
const LIMIT: u32 = 4096;

/// A table and what was done to it.
#[derive(Drop)]
struct Bench {
    table: Table,
    counts: Counts,
}

impl Bench {
    /// Plans what a message changes, and makes the change.
    fn apply(&mut self, m: &FlowMod) -> Result<(), TableFault>
        requires { AreInRange m.now.actions }
    {
        let change = self.table.plan(m, 0)?;
        self.counts.add(&change);
        self.table.commit(change);
        Ok(())
    }

    /// Sends a command for each entry, from the first by steps.
    fn send(
        &mut self,
        alloc: Global,
        asked: &Asked,
        command: Command,
        first: u16,
        step: usize,
    ) -> Result<(), TableFault>
        requires { 0 < step }
    {
        for number in (first..asked.entries).step_by(step) {
            let m = to_one(alloc, command, number, asked.priorities)?;
            self.apply(&m)?;
        }
        Ok(())
    }

    /// Adds the entries; then, by the phases that are asked for, gives each other actions, takes each out, the odd ones
    /// first, or takes all out by one message.
    fn go(&mut self, alloc: Global, asked: &Asked) -> Result<(), TableFault> {
        self.send(alloc, asked, Command::Add, 0, 1)?;
        match asked.phases {
            Phases::Adds => Ok(()),
            Phases::AddsAndModifies => self.send(alloc, asked, Command::ModifyStrict, 0, 1),
            Phases::Each => {
                self.send(alloc, asked, Command::ModifyStrict, 0, 1)?;
                self.send(alloc, asked, Command::DeleteStrict, 1, 2)?;
                self.send(alloc, asked, Command::DeleteStrict, 0, 2)
            }
            Phases::All => self.apply(&to_all(alloc, Command::Delete)?),
        }
    }
}

/// Goes through the phases that are asked for. It gives the counts, and how many entries are left.
pub fn run(alloc: Global, asked: &Asked) -> Result<(Counts, usize), TableFault> {
    let mut bench = Bench {
        table: Table::new(alloc, LIMIT),
        counts: NOTHING,
    };
    let gone = bench.go(alloc, asked);
    let told = (bench.counts, bench.table.len());
    drop(bench);
    gone?;
    Ok(told)
}
