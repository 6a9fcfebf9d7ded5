//! Where a packet gets to over cables.
ghost use Rattle.std.specs.Prelude.{◌≡◌, ℕ, List, [], IfOk, OnOk};
ghost use Rattle.switch_meaning.specs.Choosing.{chosen, chosen_entry};
ghost use Rattle.switch_meaning.specs.Firing.{copied, fire_entry};
ghost use Rattle.switch_meaning.specs.Following.{both_seen, copies_at, follow as follow_of, goes_out};
ghost use Rattle.switch_meaning.specs.Tables.{AreTablesInRange, IsTableInRange};
ghost use Rattle.switch_meaning.specs.Wirings.{far_end};

use crate::choosing::{Reading, usable};
use crate::entry::FlowEntry;
use crate::fired::{Copied, Fired, Left, Seen};
use crate::firing::fire;
use crate::wiring::{SwitchPort, Wiring};
use cv_io::{List, Memory};
use of10_match::Header;
use std::alloc::Global;

/// A network of switches: the cables, the table of each switch by its number, and how they rank
/// entries.
#[derive(Debug, Drop)]
pub struct Switches {
    pub wiring: Wiring,
    pub tables: List<List<FlowEntry>>,
    pub reading: Reading,
}

impl Switches {
    /// What is seen of a packet that comes to a switch, and that at most so many switches take up in
    /// turn.
    pub fn follow(
        &self,
        alloc: Global,
        turns: usize,
        switch: u32,
        header: &Header,
    ) -> Result<Seen, Memory>
        requires { AreTablesInRange self.now.tables }
        ensures { IfOk result (λ seen. (way : List ℕ)
            → seen ≡ follow_of self.now.wiring (chosen self.now.tables self.now.reading) turns way switch header.now) }
    {
        let mut seen = Seen {
            outs: List::new(alloc),
            copies: List::new(alloc),
        };
        self.take_up(&mut seen, alloc, turns, switch, header)?;
        Ok(seen)
    }

    /// Appends what is seen of a packet that comes to a switch.
    #[cycle(following)]
    fn take_up(
        &self,
        seen: &mut Seen,
        alloc: Global,
        turns: usize,
        switch: u32,
        header: &Header,
    ) -> Result<(), Memory>
        requires { AreTablesInRange self.now.tables }
        ensures { OnOk result ((way : List ℕ)
            → seen.new ≡ both_seen seen.old
            (follow_of self.now.wiring (chosen self.now.tables self.now.reading) turns way switch header.now)) }
    {
        if turns == 0 {
            return Ok(());
        }
        let fired = self.fire_at(alloc, switch, header)?;
        copy_all(seen, switch, &fired.copies)?;
        for out in fired.outs.as_slice() {
            let at = SwitchPort {
                switch,
                port: out.port,
            };
            self.go(seen, alloc, turns - 1, at, &out.header)?;
        }
        Ok(())
    }

    /// Appends what is seen of a packet that goes out at a spot.
    #[cycle(following)]
    fn go(
        &self,
        seen: &mut Seen,
        alloc: Global,
        turns: usize,
        at: SwitchPort,
        header: &Header,
    ) -> Result<(), Memory>
        requires { AreTablesInRange self.now.tables }
        ensures { OnOk result ((way : List ℕ)
            → seen.new ≡ both_seen seen.old
            (goes_out (far_end self.now.wiring at) at header.now
            (follow_of self.now.wiring (chosen self.now.tables self.now.reading) turns way))) }
    {
        match self.wiring.far_end(at) {
            None => seen.outs.push(Left {
                at,
                header: *header,
            }),
            Some(end) => {
                let arriving = Header {
                    in_port: end.port,
                    ..*header
                };
                self.take_up(seen, alloc, turns, end.switch, &arriving)
            }
        }
    }

    /// What a switch makes of a packet.
    fn fire_at(&self, alloc: Global, switch: u32, header: &Header) -> Result<Fired, Memory>
        requires { AreTablesInRange self.now.tables }
        ensures { IfOk result
            (λ fired. fired ≡ fire_entry (chosen self.now.tables self.now.reading [] switch header.now) header.now) }
    {
        match self.tables.get(switch as usize) {
            Some(table) => fire_by(alloc, table, header, self.reading),
            None => missed(alloc, header),
        }
    }
}

/// What a switch with this table makes of a packet.
fn fire_by(
    alloc: Global,
    table: &List<FlowEntry>,
    header: &Header,
    reading: Reading,
) -> Result<Fired, Memory>
    requires { IsTableInRange table.now }
    ensures { IfOk result (λ fired. fired ≡ fire_entry (chosen_entry reading table.now header.now) header.now) }
{
    match usable(table, header, reading) {
        Some(entry) => fire(alloc, &entry.actions, header),
        None => missed(alloc, header),
    }
}

/// What a switch makes of a packet that no entry holds.
fn missed(alloc: Global, header: &Header) -> Result<Fired, Memory>
    ensures { IfOk result (λ fired. fired ≡ copied header.now) }
{
    let mut copies = List::new(alloc);
    copies.push(*header)?;
    Ok(Fired {
        outs: List::new(alloc),
        copies,
    })
}

/// Appends the copies that a switch makes.
fn copy_all(seen: &mut Seen, switch: u32, copies: &List<Header>) -> Result<(), Memory>
    ensures { OnOk result (seen.new ≡ both_seen seen.old (copies_at switch copies.now)) }
{
    for header in copies.as_slice() {
        seen.copies.push(Copied {
            switch,
            header: *header,
        })?;
    }
    Ok(())
}
