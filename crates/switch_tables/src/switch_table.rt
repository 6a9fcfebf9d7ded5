//! What is to stand on a switch: a gate with all entries that are put there, and the table of those that pass.
ghost use Rattle.std.specs.Prelude.{◌≡◌, [], List, OnErr, IfOk, length};
ghost use Rattle.agreement.specs.FreeOrder.{HaveMatches};
ghost use Rattle.install_plan.specs.Tables.{IsTable};
ghost use Rattle.of10_match.specs.Ranges.{IsMatch};
ghost use Rattle.switch_meaning.specs.declared.entry.PhysEntry.{PhysEntry as PhysEntryOf};
ghost use Rattle.switch_tables.specs.Tables.{HasHad, HasNow, IsKept, IsTurned, IsUndone};

use cv_io::{Duplicate, List, Memory};
use exact_gate::Gate;
use install_plan::{Batch, Installed, Written};
use std::alloc::Global;
use std::marker::Model;
use switch_meaning::PhysEntry;

/// The gate before a switch, and the entries that stand there.
#[derive(Drop)]
pub struct SwitchTable {
    gate: Gate,
    installed: Installed,
}

impl Model for SwitchTable {
    ghost use Rattle.switch_tables.specs.Tables.{SwitchTableOf};

    ghost Value = { SwitchTableOf };

    ghost view = { λ a. record { gate = a.gate; installed = a.installed } };
}

/// The match of an entry has its numbers in range: their types say so.
fn is_in_range(entry: &PhysEntry)
    ensures { IsMatch entry.now.m }
{
    // The proof learns that the match is in range.
    let _ = &entry.m.in_port;
}

/// So have those of all entries.
fn are_in_range(entries: &List<PhysEntry>)
    ensures { HaveMatches entries.now }
{
    for entry in entries.as_slice() {
        is_in_range(entry);
    }
}

impl SwitchTable {
    /// No entries. It takes no memory.
    pub fn new(alloc: Global) -> SwitchTable
        ensures { HasNow [] result }
    {
        SwitchTable {
            gate: Gate::new(alloc),
            installed: Installed::new(alloc),
        }
    }

    /// What stands is a table. It counts nothing.
    pub fn is_table(&self)
        ensures { IsTable self.now.installed.now }
    {
        self.installed.is_table();
    }

    /// How many entries stand.
    pub fn count(&self) -> usize
        ensures { result ≡ length self.now.installed.now.standing }
    {
        self.installed.len()
    }

    /// What stands, by rising key.
    pub fn standing(&self) -> Result<List<Written>, Memory>
        ensures standing { IfOk result (λ list. list ≡ self.now.installed.now.standing) }
        ensures table { IsTable self.now.installed.now }
    {
        self.is_table();
        self.installed.standing()
    }

    /// Takes entries out that are put on the switch, puts others in, and gives the batch that makes what
    /// stands of what stood, with cookies from a number on. Where memory is wanting, all is as before.
    pub fn change(
        &mut self,
        gone: &List<PhysEntry>,
        come: &List<PhysEntry>,
        next: u64,
    ) -> Result<Batch, Memory>
        ensures turned { IfOk result (IsTurned gone.now come.now next self.old self.new) }
        ensures memory { OnErr result (IsKept self.old self.new) }
    {
        let delta = self.gate.change(gone, come)?;
        are_in_range(&delta.come);
        match self.installed.change(&delta.gone, &delta.come, next) {
            Ok(batch) => Ok(batch),
            Err(wanted) => {
                self.gate.undo();
                Err(wanted)
            }
        }
    }

    /// The installation: all that stands, with new cookies from a number on.
    pub fn whole(&mut self, next: u64) -> Result<Batch, Memory>
        ensures now { (entries : List PhysEntryOf) → HasNow entries self.old → HasNow entries self.new }
        ensures before { (entries : List PhysEntryOf) → HasHad entries self.old → HasHad entries self.new }
        ensures deletes { IfOk result (λ batch. batch.deletes ≡ []) }
        ensures standing { IfOk result (λ batch. self.new.installed.now.standing ≡ batch.adds) }
        ensures table { IsTable self.new.installed.now }
        ensures memory { OnErr result (self.new ≡ self.old) }
    {
        let batch = self.installed.whole(next);
        self.is_table();
        batch
    }

    /// Makes it what it was before the last change, and before what was installed since. It takes no memory.
    pub fn undo(&mut self)
        ensures { IsUndone self.old self.new }
    {
        self.gate.undo();
        self.installed.undo();
    }
}

impl Duplicate for SwitchTable {
    fn copy(&self) -> Result<SwitchTable, Memory> {
        Ok(SwitchTable {
            gate: self.gate.copy()?,
            installed: self.installed.copy()?,
        })
    }
}
