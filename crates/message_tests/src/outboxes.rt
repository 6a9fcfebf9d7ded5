//! What waits for a session.
use cv_io::{Bytes, Duplicate, Memory};
use outbox::{Letters, Outbox, Taking};
use std::alloc::Global;
use std::test::Fail;

fn add(alloc: Global, letters: &mut Letters, text: &[u8]) -> Result<(), Memory> {
    letters.push(Bytes::from_slice(alloc, text)?)
}

fn letters(alloc: Global, texts: &[&[u8]]) -> Result<Letters, Memory> {
    let mut made = Letters::new(alloc);
    for text in texts {
        add(alloc, &mut made, text)?;
    }
    Ok(made)
}

/// The outbox of a first round in which two messages wait.
fn with_two(alloc: Global) -> Result<Outbox, Memory> {
    let mut outbox = Outbox::new(alloc);
    let mut turn = outbox.stay();
    turn.open();
    outbox.turn(turn);
    let more = letters(alloc, &[b"one", b"two"])?;
    if outbox.has_place(&more) {
        outbox.put(more);
    }
    Ok(outbox)
}

/// A copy of it.
fn copied(alloc: Global) -> Result<Outbox, Memory> {
    let outbox = with_two(alloc)?;
    let copied = outbox.copy();
    drop(outbox);
    copied
}

#[test]
fn a_copy_is_taken_from_alone(rt: HostRuntime) -> Result<(), Fail> {
    let one = Bytes::from_slice(rt.alloc(), b"one")?;
    let mut outbox = copied(rt.alloc())?;
    let (first, second) = (outbox.take(1), outbox.take(2));
    drop(outbox);
    assert_eq!(rt; first, Taking::Taken(one));
    assert_eq!(rt; second, Taking::Empty);
    Ok(())
}

#[test]
fn bytes_that_wait_are_counted(rt: HostRuntime) -> Result<(), Fail> {
    let mut first = letters(rt.alloc(), &[b"one", b"three"])?;
    let more = letters(rt.alloc(), &[b"four"])?;
    assert_eq!(rt; first.bytes(), 8);
    if first.len() <= 2 && more.len() <= 1 {
        first.join(more);
    }
    assert_eq!(rt; first.bytes(), 12);
    drop(first.pop());
    assert_eq!(rt; first.bytes(), 9);
    Ok(())
}
