//! Entries are put on a switch, and something is done with them in rounds.
use super::asked::{Asked, Phase};
use super::entries::{entries, header};
use super::tally::Tally;
use cv_io::{List, Memory};
use install_plan::{Batch, Installed};
use stats_map::{Counts, Known};
use std::alloc::Global;

/// A switch, its counts, the next cookie, and what was done.
#[derive(Drop)]
struct Bench {
    table: Installed,
    counts: Counts,
    next: u64,
    made: Tally,
}

impl Bench {
    /// Takes note of a batch.
    fn note(&mut self, batch: &Batch) {
        let added = self.made.note(batch);
        self.next = self.next.saturating_add(added);
    }

    /// So many entries in the middle get the actions of the other kind.
    fn change(
        &mut self,
        alloc: Global,
        asked: &Asked,
        width: u32,
        ports: (u16, u16),
    ) -> Result<(), Memory> {
        let from = asked.entries / 2;
        let gone = entries(alloc, from, width, asked.priorities, ports.0)?;
        let come = entries(alloc, from, width, asked.priorities, ports.1)?;
        let batch = self.table.change(&gone, &come, self.next)?;
        self.note(&batch);
        Ok(())
    }

    /// All is installed anew.
    fn install(&mut self) -> Result<(), Memory> {
        let batch = self.table.whole(self.next)?;
        self.note(&batch);
        self.table.keep();
        Ok(())
    }

    /// A switch reports on an entry.
    fn report(&mut self, asked: &Asked, round: u32) {
        let number = u64::from(round) * 7919 % u64::from(asked.entries);
        let packets = u64::from(round);
        let known = self
            .counts
            .report(0, number + 1, packets, 64 * packets, false);
        if known == Known::Live {
            self.made.reported = self.made.reported.wrapping_add(1);
        }
    }

    /// The entry of a packet is asked for.
    fn ask(&mut self, asked: &Asked, round: u32) -> Result<(), Memory> {
        let number = round.wrapping_mul(7919) % asked.entries;
        if let Some(best) = self.table.best(&header(number))? {
            self.made.reported = self.made.reported.wrapping_add(best.cookie);
        }
        Ok(())
    }

    /// What is done in a round.
    fn turn(&mut self, alloc: Global, asked: &Asked, round: u32) -> Result<(), Memory> {
        let ports = if round % 2 == 0 { (1, 2) } else { (2, 1) };
        match asked.phase {
            Phase::Nothing => Ok(()),
            Phase::Changes(width) => self.change(alloc, asked, width, ports),
            Phase::Undone => {
                self.change(alloc, asked, 1, (1, 2))?;
                self.table.undo();
                Ok(())
            }
            Phase::Whole => self.install(),
            Phase::Report => {
                self.report(asked, round);
                Ok(())
            }
            Phase::Best => self.ask(asked, round),
        }
    }

    /// The entries are put on the switch.
    fn fill(&mut self, alloc: Global, asked: &Asked) -> Result<(), Memory> {
        let all = entries(alloc, 0, asked.entries, asked.priorities, 1)?;
        let first = self.table.change(&List::new(alloc), &all, 1)?;
        self.note(&first);
        if matches!(asked.phase, Phase::Report) {
            install_all(&mut self.counts, &first)?;
        }
        Ok(())
    }

    /// The same, and then what is asked for is done in each round.
    fn go(&mut self, alloc: Global, asked: &Asked) -> Result<(), Memory> {
        self.fill(alloc, asked)?;
        for round in 0..asked.rounds {
            self.turn(alloc, asked, round)?;
        }
        Ok(())
    }
}

/// Counts the cookies of a batch.
fn install_all(counts: &mut Counts, batch: &Batch) -> Result<(), Memory> {
    for row in batch.adds.as_slice() {
        counts.install(0, row)?;
    }
    Ok(())
}

/// Puts the entries on the switch, and does in each round what is asked for.
pub fn run(alloc: Global, asked: &Asked) -> Result<Tally, Memory> {
    let mut bench = Bench {
        table: Installed::new(alloc),
        counts: Counts::new(alloc),
        next: 1,
        made: Tally::new(),
    };
    let gone = bench.go(alloc, asked);
    let made = bench.made;
    drop(bench);
    gone?;
    Ok(made)
}
