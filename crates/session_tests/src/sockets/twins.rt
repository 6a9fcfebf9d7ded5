//! A switch that comes twice, and one that takes nothing.
use super::peers::{GREETING, QUESTION, REPLY, ends, free_address, limits, switch, switch_dial};
use outside::{Dial, Failed, Sink, Source};
use std::io::{Read, Write};
use std::net::TcpStream;
use std::process::Abort;
use std::test::Fail;
use std::time::Duration;
use tcp_links::TcpLinks;

/// Reads a switch's greeting, and writes what was sent for it, which is passed over.
fn open<S: Source, K: Sink>(source: &mut S, sink: &mut K) -> Result<bool, Failed> {
    let mut greeting = [0; 40];
    let taken = source.read(&mut greeting)?;
    let passed = sink.write(&[0; 16])?;
    Ok(taken == GREETING.len() && greeting == GREETING && passed == 16)
}

/// Whether the peer is asked, in five seconds, where it reads for a hundredth of a second at a time.
fn is_asked<K: Sink>(sink: &mut K, mut socket: &TcpStream) -> Result<bool, Failed> {
    let mut place = [0; 8];
    for _ in 0..500 {
        sink.flush()?;
        if let Ok(taken) = socket.read(&mut place) {
            return Ok(taken == QUESTION.len() && place == QUESTION);
        }
    }
    Ok(false)
}

/// Whether the next bytes of a source are the reply.
fn is_answered<S: Source>(source: &mut S) -> Result<bool, Failed> {
    let mut place = [0; 8];
    Ok(source.read(&mut place)? == REPLY.len() && place == REPLY)
}

#[test]
fn a_twin(rt: HostRuntime) -> Result<(), Fail> {
    let address = free_address(&rt)?;
    let mut links = TcpLinks::open(&rt, rt.alloc(), limits(5));
    let mut dial = switch_dial(rt.alloc(), &mut links, address)?;
    let first = switch(&rt, address)?;
    let (mut source, mut sink) = dial.next()?.ok_or(Failed)?;
    assert_eq!(rt; open(&mut source, &mut sink), Ok(true));
    let mut sent = [0; 16];
    (&first).read_exact(&mut sent)?;
    let second = switch(&rt, address)?;
    first.set_read_timeout(Some(Duration::from_millis(10)))?;
    assert_eq!(rt; is_asked(&mut sink, &first), Ok(true));
    (&first).write_all(&REPLY)?;
    assert_eq!(rt; is_answered(&mut source), Ok(true));
    // the first is up, so the second goes
    assert!(rt; ends(&second));
    links.close();
    Ok(())
}

/// Whether writing fails, before 80 MB were taken.
fn gets_stuck<K: Sink>(sink: &mut K) -> bool {
    let piece = [0; 4096];
    for _ in 0..20_000 {
        if sink.write(&piece).is_err() {
            return true;
        }
    }
    false
}

#[test]
fn a_switch_that_takes_nothing(rt: HostRuntime) -> Result<(), Fail> {
    let address = free_address(&rt)?;
    let mut links = TcpLinks::open(&rt, rt.alloc(), limits(5));
    let mut dial = switch_dial(rt.alloc(), &mut links, address)?;
    let switch = switch(&rt, address)?;
    let (mut source, mut sink) = dial.next()?.ok_or(Failed)?;
    assert_eq!(rt; open(&mut source, &mut sink), Ok(true));
    // three seconds
    assert!(rt; gets_stuck(&mut sink));
    // both ways
    let mut place = [0; 8];
    assert_eq!(rt; source.read(&mut place), Ok(0));
    drop(switch);
    links.close();
    Ok(())
}
