//! Counts of leaves, by the cookies that name them.
ghost use Rattle.std.specs.Prelude.{◌≡◌, IfOk};
ghost use Rattle.stats_map.specs.Changes.{CanMake};

use cv_io::{Duplicate, Leaf, List, Memory};
use install_plan::Written;
use of10_match::Match;
use stats_map::{Changes, Counts, Known, Pending};
use std::alloc::Global;
use std::process::Abort;
use std::test::*;
use switch_meaning::PhysEntry;

fn leaf(kind: u64) -> Leaf {
    Leaf { member: 0, kind }
}

/// An entry of leaves of these kinds, under a cookie.
fn written(alloc: Global, cookie: u64, kinds: &[u64]) -> Result<Written, Fail> {
    let mut ancestry = List::new(alloc);
    for kind in kinds {
        ancestry.push(leaf(*kind))?;
    }
    Ok(Written {
        entry: PhysEntry {
            m: Match::everything(),
            priority: 1,
            actions: List::new(alloc),
            ancestry,
        },
        cookie,
    })
}

/// A cookie is installed on a switch.
fn install(
    alloc: Global,
    counts: &mut Counts,
    switch: u32,
    cookie: u64,
    kinds: &[u64],
) -> Result<(), Fail> {
    counts.install(switch, &written(alloc, cookie, kinds)?)?;
    Ok(())
}

/// An entry's cookie is replaced: the old one reports its removal, the new one is polled.
fn replace(alloc: Global, counts: &mut Counts) -> Result<(), Fail> {
    install(alloc, counts, 0, 5, &[3, 3])?;
    install(alloc, counts, 0, 6, &[4, 3])?;
    counts.report(0, 5, 7, 700, true);
    counts.report(0, 6, 3, 300, false);
    Ok(())
}

/// The counts of a replaced cookie.
fn replaced(alloc: Global) -> Result<Counts, Fail> {
    let mut counts = Counts::new(alloc);
    replace(alloc, &mut counts)?;
    Ok(counts)
}

#[test]
fn both_cookies_are_counted(rt: HostRuntime) -> Result<(), Fail> {
    let counts = replaced(rt.alloc())?;
    let found = (counts.count(&leaf(3)), counts.count(&leaf(4)));
    drop(counts);
    assert_eq!(rt; found, ((10, 1000), (3, 300)));
    Ok(())
}

/// What is known of a removed cookie, of one of another switch, and of one that stands.
fn reports(counts: &mut Counts) -> (Known, Known, Known) {
    let removed = counts.report(0, 5, 9, 900, false);
    let other = counts.report(1, 6, 9, 900, false);
    (removed, other, counts.report(0, 6, 4, 400, false))
}

#[test]
fn a_reported_cookie_is_retired(rt: HostRuntime) -> Result<(), Fail> {
    let mut counts = replaced(rt.alloc())?;
    let (removed, other, standing) = reports(&mut counts);
    let count = counts.count(&leaf(3));
    drop(counts);
    assert_eq!(rt; removed, Known::Retired);
    assert_eq!(rt; other, Known::Retired);
    assert_eq!(rt; standing, Known::Live);
    assert_eq!(rt; count, (11, 1100));
    Ok(())
}

#[test]
fn a_leaf_goes_with_its_last_cookie(rt: HostRuntime) -> Result<(), Fail> {
    let mut counts = replaced(rt.alloc())?;
    counts.forget(&leaf(3));
    let before = counts.count(&leaf(3));
    counts.down(0);
    let after = (counts.count(&leaf(3)), counts.count(&leaf(4)));
    drop(counts);
    assert_eq!(rt; before, (10, 1000));
    assert_eq!(rt; after, ((0, 0), (3, 300)));
    Ok(())
}

/// Two cookies, of which one ends and another is written.
fn draft(pending: &mut Pending<'_>, new: &Written) -> Result<(), Memory>
    ensures { pending.new.base ≡ pending.old.base }
{
    pending.end(0, 6)?;
    pending.forget(&leaf(4))?;
    pending.write(0, new)?;
    pending.down(1)
}

/// What the draft changes of the counts.
fn changes(counts: &Counts, new: &Written) -> Result<Changes, Memory>
    ensures { IfOk result (λ changes. CanMake changes counts.now) }
{
    let mut pending = Pending::of(counts);
    draft(&mut pending, new)?;
    Ok(pending.into_changes())
}

/// The draft is made.
fn make(counts: &mut Counts, new: &Written) -> Result<(), Memory> {
    let changes = changes(counts, new)?;
    counts.make(changes)
}

fn drafted(alloc: Global, counts: &mut Counts) -> Result<(), Fail> {
    let new = written(alloc, 7, &[3])?;
    make(counts, &new)?;
    Ok(())
}

/// The numbers of a cookie, as a copy of the counts has them.
fn numbers_of_copy(counts: &Counts) -> Result<Option<(u64, u64)>, Memory> {
    let copied = counts.copy()?;
    Ok(copied.numbers(0, 6))
}

/// Another cookie is installed on the second switch. These are the numbers of the cookie that ends, in a copy.
fn prepare(alloc: Global, counts: &mut Counts) -> Result<Option<(u64, u64)>, Fail> {
    install(alloc, counts, 1, 8, &[5])?;
    Ok(numbers_of_copy(counts)?)
}

/// The numbers of the cookie that ends, the new one, and the other.
type Cookies = (Option<(u64, u64)>, Option<(u64, u64)>, Option<(u64, u64)>);

fn cookies(counts: &Counts) -> Cookies {
    (
        counts.numbers(0, 6),
        counts.numbers(0, 7),
        counts.numbers(1, 8),
    )
}

/// The cookies, and the counts of the third and the fourth leaf.
type Counted = (Cookies, (u64, u64), (u64, u64));

fn counted(counts: &Counts) -> Counted {
    (
        cookies(counts),
        counts.count(&leaf(3)),
        counts.count(&leaf(4)),
    )
}

/// The counts are as before.
fn are_kept(rt: &impl Abort, counted: &Counted, before: Option<(u64, u64)>) {
    let (cookies, _, fourth) = *counted;
    assert_eq!(rt; cookies, (before, None, Some((0, 0))));
    assert_eq!(rt; fourth, (3, 300));
}

/// Makes the draft; where that fails, the counts are as before.
fn draft_of(rt: &(impl Abort + AllocGlobal), counts: &mut Counts) -> Result<Counted, Fail> {
    let before = prepare(rt.alloc(), counts)?;
    let made = drafted(rt.alloc(), counts);
    let counted = counted(counts);
    match made {
        Ok(()) => Ok(counted),
        Err(fail) => {
            are_kept(rt, &counted, before);
            Err(fail)
        }
    }
}

/// The counts are those of the draft, or as before where it fails.
#[test]
fn a_draft_is_made(rt: HostRuntime) -> Result<(), Fail> {
    let mut counts = replaced(rt.alloc())?;
    let counted = draft_of(&rt, &mut counts);
    drop(counts);
    let (cookies, third, fourth) = counted?;
    assert_eq!(rt; cookies, (None, Some((0, 0)), None));
    assert_eq!(rt; (third, fourth), ((10, 1000), (0, 0)));
    Ok(())
}
