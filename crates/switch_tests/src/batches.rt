//! What is installed, and the change from one table to the next.
use crate::samples::{by_port, in_a_row};
use cv_io::{Leaf, List, Memory};
use of10_match::{Match, Prefix};
use std::alloc::Global;
use std::test::*;
use switch_meaning::{
    Difference, PhysEntry, Wiring, are_tags_in_range, difference, drops, fixed_entries, guards,
    installed, one_per_key,
};

/// nw_dst 10.0.0.0/24, by port 1.
fn net() -> Match {
    Match {
        dl_type: Some(0x0800),
        nw_dst: Some(Prefix {
            addr: 0x0a00_0000,
            len: 24,
        }),
        ..by_port(1)
    }
}

/// The entry of a pair of leaves of these kinds.
fn pair(alloc: Global, m: Match, priority: u16, kinds: (u64, u64)) -> Result<PhysEntry, Memory> {
    let (first, second) = kinds;
    let ancestry = [
        Leaf {
            member: 0,
            kind: first,
        },
        Leaf {
            member: 1,
            kind: second,
        },
    ];
    Ok(PhysEntry {
        m,
        priority,
        actions: List::new(alloc),
        ancestry: List::from_slice(alloc, &ancestry)?,
    })
}

/// Another pair of leaves.
fn add(
    alloc: Global,
    entries: &mut List<PhysEntry>,
    m: Match,
    priority: u16,
    kinds: (u64, u64),
) -> Result<(), Memory> {
    entries.push(pair(alloc, m, priority, kinds)?)
}

/// The entries of a monitor and a router at port 1, two of which have one key.
fn add_pairs(alloc: Global, entries: &mut List<PhysEntry>) -> Result<(), Memory> {
    add(alloc, entries, net(), 9, (3, 3))?;
    add(alloc, entries, net(), 6, (3, 1))?;
    add(alloc, entries, net(), 6, (1, 3))?;
    add(alloc, entries, by_port(1), 3, (1, 1))
}

fn pairs(alloc: Global) -> Result<List<PhysEntry>, Memory> {
    let mut entries = List::new(alloc);
    add_pairs(alloc, &mut entries)?;
    Ok(entries)
}

/// The kind of an entry's first leaf.
fn first_kind(entry: &PhysEntry) -> u64 {
    match entry.ancestry.get(0) {
        Some(leaf) => leaf.kind,
        None => 0,
    }
}

/// The kinds of the first leaves of entries.
fn kinds(alloc: Global, entries: &List<PhysEntry>) -> Result<List<u64>, Memory> {
    let mut kinds = List::new(alloc);
    for entry in entries.as_slice() {
        kinds.push(first_kind(entry))?;
    }
    Ok(kinds)
}

fn installed_kinds(alloc: Global) -> Result<List<u64>, Memory> {
    let entries = pairs(alloc)?;
    kinds(alloc, &installed(alloc, &entries)?)
}

#[test]
fn the_smaller_ancestry_is_installed(rt: HostRuntime) -> Result<(), Fail> {
    let kept = installed_kinds(rt.alloc())?;
    assert_eq!(rt; kept.as_slice(), [3, 1, 1].as_slice());
    Ok(())
}

fn kinds_of_keys(alloc: Global) -> Result<List<u64>, Memory> {
    let entries = pairs(alloc)?;
    kinds(alloc, &one_per_key(alloc, &entries)?)
}

#[test]
fn one_has_each_key(rt: HostRuntime) -> Result<(), Fail> {
    let kept = kinds_of_keys(rt.alloc())?;
    assert_eq!(rt; kept.as_slice(), [3, 1, 1].as_slice());
    Ok(())
}

/// Entries of port 1, at these levels.
fn at_levels(alloc: Global, levels: &[u16]) -> Result<List<PhysEntry>, Memory> {
    let mut entries = List::new(alloc);
    for priority in levels {
        add(alloc, &mut entries, by_port(1), *priority, (3, 3))?;
    }
    Ok(entries)
}

/// The priorities of entries.
fn priorities(alloc: Global, entries: &List<PhysEntry>) -> Result<List<u16>, Memory> {
    let mut found = List::new(alloc);
    for entry in entries.as_slice() {
        found.push(entry.priority)?;
    }
    Ok(found)
}

/// What a table at levels 5, 7 and 8 becomes, at levels 7 and 9.
fn moved(alloc: Global) -> Result<Difference, Memory> {
    let before = at_levels(alloc, &[5, 7, 8])?;
    difference(alloc, &before, &at_levels(alloc, &[7, 9])?)
}

/// The levels that go and those that come.
fn levels_of(alloc: Global, difference: &Difference) -> Result<(List<u16>, List<u16>), Memory> {
    let deleted = priorities(alloc, &difference.deletes)?;
    Ok((deleted, priorities(alloc, &difference.adds)?))
}

fn moved_levels(alloc: Global) -> Result<(List<u16>, List<u16>), Memory> {
    let moved = moved(alloc)?;
    let levels = levels_of(alloc, &moved);
    drop(moved);
    levels
}

/// Whether these levels go, and those come.
fn are_levels(levels: &(List<u16>, List<u16>), deleted: &[u16], added: &[u16]) -> (bool, bool) {
    (levels.0.as_slice() == deleted, levels.1.as_slice() == added)
}

fn are_moved(alloc: Global) -> Result<(bool, bool), Memory> {
    let levels = moved_levels(alloc)?;
    let same = are_levels(&levels, &[5, 8], &[9]);
    drop(levels);
    Ok(same)
}

#[test]
fn levels_move(rt: HostRuntime) -> Result<(), Fail> {
    let same = are_moved(rt.alloc())?;
    assert_eq!(rt; same, (true, true));
    Ok(())
}

/// The fixed entries of a switch in the row.
fn fixed(alloc: Global, switch: u32) -> Result<List<PhysEntry>, Memory> {
    let wiring = in_a_row(alloc)?;
    if are_tags_in_range(&wiring) {
        fixed_entries(alloc, &wiring, switch)
    } else {
        Ok(List::new(alloc))
    }
}

/// The tags of entries, or 0 where one holds every tag.
fn tags_of(alloc: Global, entries: &List<PhysEntry>) -> Result<List<u16>, Memory> {
    let mut tags = List::new(alloc);
    for entry in entries.as_slice() {
        tags.push(entry.m.dl_vlan.unwrap_or(0))?;
    }
    Ok(tags)
}

/// The tags of the fixed entries of a switch in the row.
fn tags(alloc: Global, switch: u32) -> Result<List<u16>, Memory> {
    let entries = fixed(alloc, switch)?;
    tags_of(alloc, &entries)
}

#[test]
fn tags_are_carried(rt: HostRuntime) -> Result<(), Fail> {
    for (switch, want) in [
        (0, [0, 0, 1, 3].as_slice()),
        (1, [0, 1, 2, 2, 3, 4].as_slice()),
        (2, [0, 4].as_slice()),
    ] {
        let found = tags(rt.alloc(), switch)?;
        assert_eq!(rt; found.as_slice(), want, "switch {switch}");
    }
    Ok(())
}

/// How many entries drop what comes to the first switch, whose ports are these four.
fn count_drops(alloc: Global, wiring: &Wiring) -> Result<usize, Memory> {
    let ports = List::from_slice(alloc, &[1, 2, 3, 4])?;
    Ok(drops(alloc, wiring, 0, &ports)?.len())
}

fn count_guards(alloc: Global, wiring: &Wiring) -> Result<usize, Memory> {
    Ok(guards(alloc, wiring, 0)?.len())
}

fn count_both(alloc: Global, wiring: &Wiring) -> Result<(usize, usize), Memory> {
    let guards = count_guards(alloc, wiring)?;
    Ok((guards, count_drops(alloc, wiring)?))
}

/// How many guards and drops the first switch has.
fn guards_and_drops(alloc: Global) -> Result<(usize, usize), Memory> {
    let wiring = in_a_row(alloc)?;
    count_both(alloc, &wiring)
}

#[test]
fn ports_are_guarded_or_dropped(rt: HostRuntime) -> Result<(), Fail> {
    let found = guards_and_drops(rt.alloc())?;
    assert_eq!(rt; found, (2, 2));
    Ok(())
}
