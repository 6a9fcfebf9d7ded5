//! A switch that goes in the midst of a batch, and comes up again.
use crate::installed::{full, go_net};
use cv_io::{List, Memory};
use install_plan::{Batch, Installed, Written};
use of10_actions::Action;
use of10_match::Match;
use std::alloc::Global;
use std::test::Fail;
use switch_meaning::{Change, FlowEntry, table_after};

/// Appends the messages of the first phase.
fn push_deletes(changes: &mut List<Change>, deletes: List<Written>) -> Result<(), Memory> {
    for written in deletes.into_vec() {
        let Written { entry, .. } = written;
        changes.push(Change::DeleteStrict {
            m: entry.m,
            priority: entry.priority,
        })?;
    }
    Ok(())
}

/// Appends those of the second phase.
fn push_adds(changes: &mut List<Change>, adds: List<Written>) -> Result<(), Memory> {
    for written in adds.into_vec() {
        let Written { entry, .. } = written;
        changes.push(Change::Add(entry.into_flow()))?;
    }
    Ok(())
}

/// What a batch is to a switch, message for message.
fn push_batch(changes: &mut List<Change>, batch: Batch) -> Result<(), Memory> {
    let Batch { deletes, adds } = batch;
    push_deletes(changes, deletes)?;
    push_adds(changes, adds)
}

/// The messages of a batch.
fn messages_of(alloc: Global, batch: Batch) -> Result<List<Change>, Memory> {
    let mut changes = List::new(alloc);
    push_batch(&mut changes, batch)?;
    Ok(changes)
}

/// The messages that put all that stands on a switch that comes up.
fn installation(alloc: Global, batch: Batch) -> Result<List<Change>, Memory> {
    let mut changes = List::new(alloc);
    changes.push(Change::Delete {
        m: Match::everything(),
    })?;
    push_batch(&mut changes, batch)?;
    Ok(changes)
}

/// What a switch has after messages.
fn after(table: List<FlowEntry>, changes: List<Change>) -> Result<List<FlowEntry>, Memory> {
    let mut table = table;
    for change in changes.into_vec() {
        table = table_after(table, change)?;
    }
    Ok(table)
}

/// The messages that put all that stands in a table.
fn whole(alloc: Global, table: &mut Installed, next: u64) -> Result<List<Change>, Fail> {
    let batch = table.whole(next)?;
    Ok(installation(alloc, batch)?)
}

/// The first messages of the batch by which the pairs of the net go, so many.
fn first_messages(
    alloc: Global,
    table: &mut Installed,
    count: usize,
) -> Result<List<Change>, Fail> {
    let batch = go_net(alloc, table)?;
    let mut changes = messages_of(alloc, batch)?;
    changes.truncate(count);
    Ok(changes)
}

/// How many entries a switch has after so many messages of the batch, and its table once it came up again.
fn cut_in(
    alloc: Global,
    table: &mut Installed,
    count: usize,
) -> Result<(usize, List<FlowEntry>), Fail> {
    let begun = after(List::new(alloc), whole(alloc, table, 100)?)?;
    let cut = after(begun, first_messages(alloc, table, count)?)?;
    let left = cut.len();
    Ok((left, after(cut, whole(alloc, table, 200)?)?))
}

/// The same, of a table of all pairs.
fn cut(alloc: Global, count: usize) -> Result<(usize, List<FlowEntry>), Fail> {
    let mut table = full(alloc)?;
    let found = cut_in(alloc, &mut table, count);
    drop(table);
    found
}

/// Priority, port, and where it sends.
type Row = (u16, u16, u16);

/// The port of an entry's one action.
fn sends_to(entry: &FlowEntry) -> u16 {
    match entry.actions.get(0) {
        Some(Action::Output { port, .. }) => *port,
        _ => 0,
    }
}

fn rows(alloc: Global, table: &List<FlowEntry>) -> Result<List<Row>, Memory> {
    let mut rows = List::new(alloc);
    for entry in table.as_slice() {
        let port = entry.m.in_port.unwrap_or(0);
        rows.push((entry.priority, port, sends_to(entry)))?;
    }
    Ok(rows)
}

/// The pairs of the host, in the order in which they are put on a switch.
const OF_HOST: [Row; 12] = [
    (6, 1, 5),
    (6, 2, 5),
    (6, 3, 5),
    (6, 4, 5),
    (11, 1, 5),
    (11, 2, 5),
    (11, 3, 5),
    (11, 4, 5),
    (13, 1, 6),
    (13, 2, 6),
    (13, 3, 6),
    (13, 4, 6),
];

/// How many entries a switch has after so many messages, and whether it has the host's pairs at last.
fn comes_back(alloc: Global, count: usize) -> Result<(usize, bool), Fail> {
    let (left, table) = cut(alloc, count)?;
    let found = rows(alloc, &table);
    drop(table);
    let rows = found?;
    let same = rows.as_slice() == OF_HOST.as_slice();
    drop(rows);
    Ok((left, same))
}

/// Of sixteen entries eight are deleted, a message each, and four are added. Wherever the switch goes, its table is that
/// of the installation once it came up again.
#[test]
fn a_switch_goes_in_the_midst_of_a_batch(rt: HostRuntime) -> Result<(), Fail> {
    let left = [16, 15, 14, 13, 12, 11, 10, 9, 8, 9, 10, 11, 12];
    for (messages, left) in left.iter().enumerate() {
        let found = comes_back(rt.alloc(), messages)?;
        assert_eq!(rt; found, (*left, true), "after {messages} messages");
    }
    Ok(())
}
