//! What is in both lists of a change.
ghost use Rattle.std.specs.Prelude.{◌≡◌, ◌+◌, ◌-◌, ◌<◌, List, OnOk, IfOk, get_or, length};
ghost use Rattle.list_change.specs.Netting.{IsNet, IsParted};

use cv_io::Memory;
use std::alloc::Global;
use std::cmp::Ordering;

/// An item, and a number under which it is known.
#[derive(Clone, Copy, PartialEq, Eq, Debug, Drop)]
pub struct Place<T> {
    pub item: T,
    pub place: usize,
}

/// An item that went and came: where it was and where it is.
#[derive(Clone, Copy, PartialEq, Eq, Debug, Drop)]
pub struct Both<T> {
    pub was: Place<T>,
    pub is: Place<T>,
}

/// A change without what is in both of its lists, and what that is.
#[derive(Debug, Drop)]
pub struct Netted<T> {
    pub gone: Vec<Place<T>>,
    pub come: Vec<Place<T>>,
    pub both: Vec<Both<T>>,
}

/// How the last items of two lists compare.
fn order_of_last<T: Ord>(gone: &[Place<T>], come: &[Place<T>]) -> Ordering
    requires gone { 0 < length gone.now }
    requires come { 0 < length come.now }
    ensures { (x y : _)
        → result ≡ T.cmp (get_or gone.now (length gone.now - 1) x).item (get_or come.now (length come.now - 1) y).item }
{
    gone[gone.len() - 1].item.cmp(&come[come.len() - 1].item)
}

/// Takes the greatest item of two rising lists, or both if they are equal.
fn part_one<T: Ord + Drop>(
    gone: &mut Vec<Place<T>>,
    come: &mut Vec<Place<T>>,
    net: &mut Netted<T>,
) -> Result<(), Memory>
    requires gone { 0 < length gone.old.items }
    requires come { 0 < length come.old.items }
    ensures parted { (all others : List _)
        → IsParted T.cmp all others gone.old.items come.old.items net.old.gone.items net.old.come.items
        net.old.both.items
        → OnOk result (IsParted T.cmp all others gone.new.items come.new.items net.new.gone.items net.new.come.items
        net.new.both.items) }
    ensures fewer { length gone.new.items + length come.new.items < length gone.old.items + length come.old.items }
{
    match order_of_last(gone, come) {
        Ordering::Greater => {
            if let Some(was) = gone.pop() {
                net.gone.push(was)?;
            }
        }
        Ordering::Less => {
            if let Some(is) = come.pop() {
                net.come.push(is)?;
            }
        }
        Ordering::Equal => {
            if let (Some(was), Some(is)) = (gone.pop(), come.pop()) {
                net.both.push(Both { was, is })?;
            }
        }
    }
    Ok(())
}

/// What is in only one of two lists of places, and what is in both, each item as often as it stands there.
pub fn net<T: Ord + Drop>(
    alloc: Global,
    gone: Vec<Place<T>>,
    come: Vec<Place<T>>,
) -> Result<Netted<T>, Memory>
    ensures { IfOk result (λ net. IsNet T.cmp gone.items come.items net.gone.items net.come.items net.both.items) }
{
    let mut gone = gone;
    let mut come = come;
    gone.sort_by(|a, b| a.item.cmp(&b.item))?;
    come.sort_by(|a, b| a.item.cmp(&b.item))?;
    let mut net = Netted {
        gone: Vec::new(alloc),
        come: Vec::new(alloc),
        both: Vec::new(alloc),
    };
    while !gone.is_empty() && !come.is_empty() {
        part_one(&mut gone, &mut come, &mut net)?;
    }
    net.gone.append(&mut gone)?;
    net.come.append(&mut come)?;
    Ok(net)
}
