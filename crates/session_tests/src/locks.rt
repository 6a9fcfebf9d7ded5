//! A lock over small machines, and threads that post beside each other.
ghost use Rattle.std.specs.Prelude.{◌≡◌, ◌∷◌, [], IfOk};
ghost use Rattle.policy_lock.specs.Seat.{IsSeatOf, IsSameSeat};

use counting_machine::{Counter, Note, Notebook, post, post_ones};
use cv_io::{Bytes, List, Memory};
use policy_lock::{After, Open, PolicyLock, Seat, open};
use std::alloc::Global;
use std::collections::VecDeque;
use std::sync::Wait;
use std::test::Fail;
use std::thread;
use std::thread::Threads;

// A lock over a machine that was told nothing, with two seats.
fn pair(alloc: Global) -> Result<(PolicyLock<Counter>, Seat<Counter>, Seat<Counter>), Memory>
    ensures { IfOk result (λ opened. IsSeatOf opened.0 opened.1 × IsSeatOf opened.0 opened.2) }
{
    let (lock, seats) = open(alloc, Counter { sum: 0 }, 2)?;
    let mut seats = VecDeque::from(seats.into_vec());
    let (Some(first), Some(second)) = (seats.pop_front(), seats.pop_front()) else {
        unreachable!()
    };
    Ok((lock, first, second))
}

// The place and the sum that a post answers.
fn told<R: Wait + Threads + Sync>(
    rt: &R,
    lock: &PolicyLock<Counter>,
    seat: &mut Seat<Counter>,
    number: u64,
) -> Option<(u64, u64)>
    requires { IsSeatOf lock.now seat.old }
    ensures { IsSameSeat seat.old seat.new }
{
    let receipt = post(rt, lock, seat, number).ok()?;
    Some((receipt.place, receipt.reply))
}

// How many events there are from the beginning, and the first; or 0, and after how many entries there
// are some.
fn from_the_beginning<R: Wait>(
    rt: &R,
    lock: &PolicyLock<Counter>,
    seat: &mut Seat<Counter>,
) -> Option<(usize, u64)>
    requires { IsSeatOf lock.now seat.old }
    ensures { IsSameSeat seat.old seat.new }
{
    match lock.after(rt, seat, 0).ok()? {
        After::Events { list } => Some((list.len(), list.as_slice().first().copied()?)),
        After::Waiting { at } => Some((0, at)),
        After::Past { first } => Some((0, first)),
    }
}

// The number that a first note is answered with.
fn first_note<R: Wait + Threads + Sync>(rt: &R, alloc: Global) -> Option<u64> {
    let book = Notebook {
        notes: List::new(alloc),
        last: 0,
    };
    let (lock, seats) = open(alloc, book, 1).ok()?;
    let mut seats = VecDeque::from(seats.into_vec());
    let mut seat = seats.pop_front()?;
    let note = Note {
        author: 7,
        bytes: Bytes::from_slice(alloc, b"abc").ok()?,
    };
    Some(post(rt, &lock, &mut seat, note).ok()?.reply)
}

#[test]
fn notes(rt: HostRuntime) -> Result<(), Fail> {
    assert!(rt; first_note(&rt, rt.alloc()) == Some(1));
    Ok(())
}

fn seats_of(
    alloc: Global,
    one: Seat<Counter>,
    two: Seat<Counter>,
) -> Result<List<Seat<Counter>>, Memory>
    ensures { IfOk result (λ seats. seats ≡ one ∷ two ∷ []) }
{
    let mut seats = List::new(alloc);
    seats.push(one)?;
    seats.push(two)?;
    Ok(seats)
}

// What the machine has added up, once each of two threads has posted so many ones.
fn sum_of_two<R: Wait + Threads + Sync>(rt: &R, alloc: Global, count: u64) -> Option<u64> {
    let (lock, mut one, mut two) = pair(alloc).ok()?;
    let shared = &lock;
    let (one, two) = thread::join(
        rt,
        move || -> Seat<Counter>
            requires { IsSeatOf shared.now one }
            ensures { IsSameSeat one result }
        {
            let _ = post_ones(rt, shared, &mut one, count);
            one
        },
        move || -> Seat<Counter>
            requires { IsSeatOf shared.now two }
            ensures { IsSameSeat two result }
        {
            let _ = post_ones(rt, shared, &mut two, count);
            two
        },
    );
    let seats = seats_of(alloc, one, two).ok()?;
    let machine = lock.close(seats).ok()?;
    Some(machine.sum)
}

#[test]
fn two_threads(rt: HostRuntime) -> Result<(), Fail> {
    assert!(rt; sum_of_two(&rt, rt.alloc(), 5000) == Some(10_000));
    Ok(())
}

// 16,384 events are stored, and the next post makes a checkpoint first.
#[test]
fn past_the_checkpoint(rt: HostRuntime) -> Result<(), Fail> {
    let alloc = rt.alloc();
    let Ok((lock, mut one, two)) = pair(alloc) else {
        panic!(rt; "memory")
    };
    let all = post_ones(&rt, &lock, &mut one, 16_384).is_ok();
    assert!(rt; all && told(&rt, &lock, &mut one, 2) == Some((16_385, 16_386)));
    assert!(rt; from_the_beginning(&rt, &lock, &mut one) == Some((0, 16_384)));
    let Ok(seats) = seats_of(alloc, one, two) else {
        panic!(rt; "memory")
    };
    let Ok(machine) = lock.close(seats) else {
        panic!(rt; "all seats were given")
    };
    assert!(rt; machine.sum == 16_386);
    Ok(())
}

#[test]
fn one_history(rt: HostRuntime) -> Result<(), Fail> {
    let alloc = rt.alloc();
    let Ok((lock, mut one, mut two)) = pair(alloc) else {
        panic!(rt; "memory")
    };
    assert!(rt; told(&rt, &lock, &mut one, 5) == Some((1, 5)));
    assert!(rt; told(&rt, &lock, &mut two, 6) == Some((2, 11)));
    assert!(rt; told(&rt, &lock, &mut one, 7) == Some((3, 18)));
    assert!(rt; told(&rt, &lock, &mut two, 0) == Some((3, 18)));
    assert!(rt; lock.look(&mut one) == 3);
    assert!(rt; from_the_beginning(&rt, &lock, &mut one) == Some((3, 5)));
    let Ok(three) = lock.split(alloc, &mut two) else {
        panic!(rt; "memory")
    };
    lock.meet(&mut one, &mut two);
    let Ok(seats) = seats_of(alloc, one, two) else {
        panic!(rt; "memory")
    };
    let Err(
        Open {
            lock,
            mut seats,
            missing,
        },
    ) = lock.close(seats)
    else {
        panic!(rt; "a seat was missing")
    };
    assert!(rt; missing == 1);
    let Ok(()) = seats.push(three) else {
        panic!(rt; "memory")
    };
    let Ok(machine) = lock.close(seats) else {
        panic!(rt; "all seats were given")
    };
    assert!(rt; machine.sum == 18);
    Ok(())
}
