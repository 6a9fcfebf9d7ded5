//! Members' tables, and the changes of their entries.
ghost use Rattle.std.specs.Prelude.{◌<◌, IfOk, IfSome, length};
ghost use Rattle.std.specs.List.{AllByRecursion};
ghost use Rattle.policy_meaning.specs.LeafFact.{IsSoundTable};

use crate::draws::Placed;
use cv_io::{Duplicate, Leaf, List, Memory};
use of10_actions::{Effects, Out, Rewrite};
use of10_match::Match;
use op_compose::leaf;
use policy_meaning::{LeafEntry, LeafTable, Rule};
use std::alloc::Global;

/// The ports of a virtual switch, all of which members see.
pub const PORTS: [u16; 4] = [1, 2, 8, 9];

/// How many levels a member has.
pub const SIZE: u64 = 8;

/// A table without entries, of a member that may act on all headers and isn't told of misses.
fn empty_table(alloc: Global, member: u32) -> Result<LeafTable, Memory>
    ensures { IfOk result IsSoundTable }
{
    let region = List::from_slice(alloc, &[Match::everything()])?;
    let visible = List::from_slice(alloc, &[1, 2, 8, 9])?;
    let entries = List::new(alloc);
    Ok(LeafTable {
        member,
        size: SIZE,
        region,
        visible,
        misses: false,
        entries,
    })
}

/// So many tables without entries.
pub fn empty_tables(alloc: Global, members: u32) -> Result<List<LeafTable>, Memory>
    ensures { IfOk result (AllByRecursion IsSoundTable) }
{
    let mut tables = List::new(alloc);
    for member in 0..members {
        let table = empty_table(alloc, member)?;
        tables.push(table)?;
    }
    Ok(tables)
}

/// What is done with the packets of an entry.
fn effects(alloc: Global, placed: &Placed) -> Result<Effects, Memory> {
    let mut outs = List::new(alloc);
    if let Some(dest) = placed.dest {
        let rewrite = Rewrite::new();
        outs.push(Out { rewrite, dest })?;
    }
    Ok(Effects {
        outs,
        tail: placed.tail,
    })
}

/// The leaf of a member's entry.
pub fn leaf_of(placed: &Placed) -> Leaf {
    Leaf {
        member: placed.member,
        kind: placed.serial.wrapping_add(2),
    }
}

/// The rule of an entry.
fn rule_of(alloc: Global, placed: &Placed) -> Result<Rule, Memory> {
    let effects = effects(alloc, placed)?;
    leaf(
        alloc,
        placed.m,
        placed.level,
        true,
        effects,
        leaf_of(placed),
    )
}

/// An entry.
fn entry_of(alloc: Global, placed: &Placed) -> Result<LeafEntry, Memory> {
    let effects = effects(alloc, placed)?;
    Ok(LeafEntry {
        serial: placed.serial,
        rank: 100,
        m: placed.m,
        level: placed.level,
        effects,
    })
}

/// What happens to a member's rules: one goes, one comes, or one stands in the place of another.
#[derive(Drop)]
pub struct Change {
    /// The place of the rule that goes among the member's, the first of which is the miss.
    pub goes: Option<usize>,
    pub comes: Option<Rule>,
}

/// The place of the entry of a number.
fn place_of(entries: &List<LeafEntry>, serial: u64) -> Option<usize>
    ensures { IfSome result (λ place. place < length entries.now) }
{
    let held = entries.as_slice();
    for place in 0..held.len() {
        if held[place].serial == serial {
            return Some(place);
        }
    }
    None
}

/// Makes a change in a table.
fn place_in(
    alloc: Global,
    entries: &mut List<LeafEntry>,
    placed: &Placed,
) -> Result<Change, Memory> {
    let mut goes = None;
    if let Some(place) = place_of(entries, placed.serial) {
        drop(entries.remove(place));
        goes = Some(place.wrapping_add(1));
        if placed.goes {
            return Ok(Change { goes, comes: None });
        }
    }
    entries.push(entry_of(alloc, placed)?)?;
    let comes = Some(rule_of(alloc, placed)?);
    Ok(Change { goes, comes })
}

/// Makes a change in the table of its member.
pub fn place(
    alloc: Global,
    tables: &mut List<LeafTable>,
    placed: &Placed,
) -> Result<Change, Memory> {
    match tables.as_mut_slice().get_mut(placed.member as usize) {
        Some(table) => place_in(alloc, &mut table.entries, placed),
        None => Err(Memory),
    }
}
