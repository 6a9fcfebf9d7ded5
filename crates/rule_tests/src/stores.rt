//! What is found by names.
use cv_io::{Duplicate, Leaf, List, Memory, Named};
use rule_ancestry::{ByLeaves, Filed, Store};
use std::alloc::Global;
use std::process::Abort;
use std::test::*;

/// A number that was made of leaves.
#[derive(PartialEq, Eq, Debug, Drop)]
struct Composed {
    number: u64,
    ancestry: List<Leaf>,
}

impl Duplicate for Composed {
    fn copy(&self) -> Result<Composed, Memory> {
        Ok(Composed {
            number: self.number,
            ancestry: self.ancestry.copy()?,
        })
    }
}

impl Named for Composed {
    ghost leaves = { λ composed. composed.ancestry };

    fn ancestry(&self) -> &List<Leaf> {
        &self.ancestry
    }
}

/// A number that is found by numbers.
#[derive(PartialEq, Eq, Debug, Drop)]
struct Multiple {
    number: u64,
    divisors: List<u64>,
}

impl Duplicate for Multiple {
    fn copy(&self) -> Result<Multiple, Memory> {
        Ok(Multiple {
            number: self.number,
            divisors: self.divisors.copy()?,
        })
    }
}

impl Filed for Multiple {
    type Name = u64;

    ghost borne = { λ multiple. multiple.divisors };

    fn names(&self) -> &[u64] {
        self.divisors.as_slice()
    }
}

fn leaf(member: u32, kind: u64) -> Leaf {
    Leaf { member, kind }
}

fn made_of(alloc: Global, number: u64, leaves: &[Leaf]) -> Result<ByLeaves<Composed>, Memory> {
    let ancestry = List::from_slice(alloc, leaves)?;
    Ok(ByLeaves {
        item: Composed { number, ancestry },
    })
}

fn divided(alloc: Global, number: u64, divisors: &[u64]) -> Result<Multiple, Memory> {
    Ok(Multiple {
        number,
        divisors: List::from_slice(alloc, divisors)?,
    })
}

/// Adds a number that is made of leaves.
fn add(
    alloc: Global,
    store: &mut Store<ByLeaves<Composed>>,
    number: u64,
    leaves: &[Leaf],
) -> Result<usize, Memory> {
    store.add(made_of(alloc, number, leaves)?)
}

/// The ids of the numbers that are made of a leaf.
fn descend(
    rt: &impl Abort,
    store: &Store<ByLeaves<Composed>>,
    name: Leaf,
    want: &[usize],
) -> Result<(), Memory> {
    let ids = store.descend(name)?;
    assert_eq!(rt; ids.as_slice(), want);
    Ok(())
}

/// The same, in a copy.
fn descend_in_copy(
    rt: &impl Abort,
    store: &Store<ByLeaves<Composed>>,
    name: Leaf,
    want: &[usize],
) -> Result<(), Memory> {
    let copied = store.copy()?;
    let descended = descend(rt, &copied, name, want);
    drop(copied);
    descended
}

/// The first number goes, and then those of leaf (0, 3): the last one stays.
fn take(
    rt: &impl Abort,
    store: &mut Store<ByLeaves<Composed>>,
    first: usize,
    last: usize,
) -> Result<(), Memory> {
    assert_eq!(rt; store.remove(first).is_some(), true);
    descend_in_copy(rt, store, leaf(1, 1), &[last])?;
    assert_eq!(rt; store.take(leaf(0, 3))?.len(), 1);
    assert_eq!(rt; store.ids()?.as_slice(), [last].as_slice());
    Ok(())
}

/// Three numbers of leaves come and go.
fn add_and_take(
    rt: &(impl Abort + AllocGlobal),
    store: &mut Store<ByLeaves<Composed>>,
) -> Result<(), Memory> {
    let first = add(rt.alloc(), store, 10, &[leaf(0, 3), leaf(1, 1)])?;
    let second = add(rt.alloc(), store, 20, &[leaf(0, 3)])?;
    let third = add(rt.alloc(), store, 30, &[leaf(0, 2), leaf(1, 1)])?;
    descend(rt, store, leaf(0, 3), &[first, second])?;
    descend(rt, store, leaf(1, 1), &[first, third])?;
    take(rt, store, first, third)
}

#[test]
fn by_leaves(rt: HostRuntime) -> Result<(), Fail> {
    let mut store = Store::new(rt.alloc());
    let taken = add_and_take(&rt, &mut store);
    drop(store);
    Ok(taken?)
}

/// A number that goes by the names of another.
fn add_renamed(alloc: Global, store: &mut Store<Multiple>) -> Result<(), Memory> {
    let first = store.add(divided(alloc, 6, &[2, 3])?)?;
    if store.get(first).is_some() {
        drop(store.rename(first, divided(alloc, 15, &[3, 5])?)?);
    }
    Ok(())
}

/// Numbers are found by their divisors.
fn add_and_rename(
    rt: &(impl Abort + AllocGlobal),
    store: &mut Store<Multiple>,
) -> Result<(), Fail> {
    let alloc = rt.alloc();
    add_renamed(alloc, store)?;
    assert_eq!(rt; store.descend(5)?, store.descend(3)?);
    let more = store.add_all(vec![in alloc; divided(alloc, 4, &[2])?]?)?;
    assert_eq!(rt; store.descend(2)?, more);
    assert_eq!(rt; store.len(), 2);
    Ok(())
}

#[test]
fn by_numbers(rt: HostRuntime) -> Result<(), Fail> {
    let mut store = Store::new(rt.alloc());
    let renamed = add_and_rename(&rt, &mut store);
    drop(store);
    renamed
}
