//! What stands on a switch behind its gate.
ghost use Rattle.std.specs.Prelude.{◌≡◌, length};

use cv_io::{Leaf, List};
use exact_gate::GateDelta;
use install_plan::Batch;
use of10_actions::Action;
use of10_match::Match;
use std::alloc::Global;
use std::test::Fail;
use switch_meaning::PhysEntry;
use switch_tables::{SwitchTable, change_all, undo_all};

/// An entry for all packets, of one leaf.
fn entry(alloc: Global, priority: u16, kind: u64) -> Result<PhysEntry, Fail> {
    let output = Action::Output {
        port: 1,
        max_len: 0,
    };
    let actions = List::from_slice(alloc, &[output])?;
    Ok(PhysEntry {
        m: Match::everything(),
        priority,
        actions,
        ancestry: List::from_slice(alloc, &[Leaf { member: 0, kind }])?,
    })
}

/// One entry comes.
fn comes(alloc: Global, priority: u16) -> Result<GateDelta, Fail> {
    let mut come = List::new(alloc);
    come.push(entry(alloc, priority, 2)?)?;
    Ok(GateDelta {
        gone: List::new(alloc),
        come,
    })
}

/// The cookie of the first entry that a batch adds.
fn first_cookie(batch: &Batch) -> Option<u64> {
    match batch.adds.get(0) {
        Some(written) => Some(written.cookie),
        None => None,
    }
}

/// The cookie of the entry that comes to the one switch.
fn change(alloc: Global, tables: &mut [SwitchTable]) -> Result<Option<u64>, Fail>
    requires { length tables.old ≡ 1 }
    ensures { length tables.new ≡ 1 }
{
    let deltas = [comes(alloc, 7)?];
    let batches = change_all(alloc, tables, &deltas, &[true], 5)?;
    Ok(first_cookie(&batches.as_slice()[0].batch))
}

#[test]
fn an_entry_comes_and_is_taken_back(rt: HostRuntime) -> Result<(), Fail> {
    let mut tables = [SwitchTable::new(rt.alloc())];
    let cookie = change(rt.alloc(), &mut tables)?;
    undo_all(&mut tables);
    let left = tables[0].standing()?.len();
    assert_eq!(rt; (cookie, left), (Some(5), 0));
    Ok(())
}
