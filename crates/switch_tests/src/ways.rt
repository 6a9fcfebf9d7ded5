//! What stands on a switch for a rule, and the ways of packets.
use crate::samples::{by_port, by_tag, entry, in_a_row, one, output, ping};
use cv_io::{List, Memory};
use of10_actions::{Action, Dest, Out, Rewrite};
use of10_match::{Match, UNTAGGED};
use std::alloc::Global;
use std::test::*;
use switch_meaning::{
    Change, FlatRule, FlowEntry, PhysEntry, Reading, Site, Switches, Wiring, are_tables_in_range,
    place, table_after,
};

fn flooded(port: u16) -> Out {
    Out {
        rewrite: Rewrite::new(),
        dest: Dest::Flood { v: 0, port },
    }
}

/// The actions of FLOOD at the first switch, for what comes by port 1.
const FLOODED: [Action; 6] = [
    Action::SetVlanVid { vid: 2 },
    Action::Output {
        port: 3,
        max_len: 0,
    },
    Action::StripVlan,
    Action::Output {
        port: 2,
        max_len: 0,
    },
    Action::SetVlanVid { vid: 4 },
    Action::Output {
        port: 3,
        max_len: 0,
    },
];

const SPREAD: Site = Site {
    v: 0,
    switch: 0,
    spread: true,
    whole: false,
};

/// The entry of FLOOD at the first switch.
fn placed_in(alloc: Global, wiring: &Wiring) -> Result<Option<PhysEntry>, Memory> {
    let outs = [flooded(2), flooded(3), flooded(4)];
    let rule = FlatRule {
        m: by_port(1),
        level: 128,
        outs: List::from_slice(alloc, &outs)?,
        ancestry: List::new(alloc),
    };
    place(alloc, wiring, SPREAD, &rule)
}

fn placed(alloc: Global) -> Result<Option<PhysEntry>, Memory> {
    let wiring = in_a_row(alloc)?;
    placed_in(alloc, &wiring)
}

/// What it is to be.
fn wanted(alloc: Global) -> Result<PhysEntry, Memory> {
    Ok(PhysEntry {
        m: by_tag(1, UNTAGGED),
        priority: 129,
        actions: List::from_slice(alloc, &FLOODED)?,
        ancestry: List::new(alloc),
    })
}

fn is_placed(alloc: Global) -> Result<bool, Memory> {
    let want = wanted(alloc)?;
    let found = placed(alloc)?;
    Ok(found == Some(want))
}

#[test]
fn flood_is_placed(rt: HostRuntime) -> Result<(), Fail> {
    let same = is_placed(rt.alloc())?;
    assert!(rt; same);
    Ok(())
}

/// A table of one entry.
fn table(
    alloc: Global,
    m: Match,
    priority: u16,
    actions: &[Action],
) -> Result<List<FlowEntry>, Memory> {
    one(alloc, entry(alloc, m, priority, actions)?)
}

/// The tables of the first two switches; the second takes what is for its own port alone.
fn tables(alloc: Global) -> Result<List<List<FlowEntry>>, Memory> {
    let out = [Action::StripVlan, output(1)];
    let first = table(alloc, by_tag(1, UNTAGGED), 129, &FLOODED)?;
    let mut tables = one(alloc, first)?;
    tables.push(table(alloc, by_tag(3, 2), 65535, &out)?)?;
    Ok(tables)
}

fn switches(alloc: Global) -> Result<Switches, Memory> {
    let wiring = in_a_row(alloc)?;
    Ok(Switches {
        tables: tables(alloc)?,
        wiring,
        reading: Reading::ExactFirst,
    })
}

/// By how many ports a ping leaves that comes to the first switch by port 1.
fn followed(alloc: Global, switches: &Switches, turns: usize) -> Result<usize, Memory> {
    if !are_tables_in_range(&switches.tables) {
        return Ok(0);
    }
    Ok(switches.follow(alloc, turns, 0, &ping(1))?.outs.len())
}

fn leaves_by(alloc: Global, turns: usize) -> Result<usize, Memory> {
    let switches = switches(alloc)?;
    let count = followed(alloc, &switches, turns);
    drop(switches);
    count
}

#[test]
fn flood_is_followed(rt: HostRuntime) -> Result<(), Fail> {
    for (turns, want) in [(4, 2), (1, 1)] {
        let outs = leaves_by(rt.alloc(), turns)?;
        assert_eq!(rt; outs, want, "{turns} turns");
    }
    Ok(())
}

/// A table of three entries.
fn three(alloc: Global) -> Result<List<FlowEntry>, Memory> {
    let mut table = List::new(alloc);
    for (port, priority) in [(1, 7), (1, 8), (2, 7)] {
        table.push(entry(alloc, by_port(port), priority, &[])?)?;
    }
    Ok(table)
}

/// How many entries a table of three has after a change.
fn left_after(alloc: Global, change: Change) -> Result<usize, Memory> {
    let table = three(alloc)?;
    Ok(table_after(table, change)?.len())
}

/// How many it has after an entry with the key of one was added.
fn left_after_add(alloc: Global) -> Result<usize, Memory> {
    let again = entry(alloc, by_port(1), 8, &[output(2)])?;
    left_after(alloc, Change::Add(again))
}

/// How many it has after these entries were removed.
fn left_after_delete(alloc: Global, m: Match) -> Result<usize, Memory> {
    left_after(alloc, Change::Delete { m })
}

#[test]
fn a_table_after_changes(rt: HostRuntime) -> Result<(), Fail> {
    let (m, priority) = (by_port(1), 8);
    let added = left_after_add(rt.alloc())?;
    let strict = left_after(rt.alloc(), Change::DeleteStrict { m, priority })?;
    let of_port = left_after_delete(rt.alloc(), m)?;
    let of_all = left_after_delete(rt.alloc(), Match::everything())?;
    assert_eq!(rt; (added, strict, of_port, of_all), (3, 2, 1, 0));
    Ok(())
}
