//! The calls that want memory, once each with ample memory; the forms in memory; the real things.
use cv_io::{Bytes, Duplicate, List, Memory, Steps, Text};
use outside::{
    Clock, Dial, DiskFiles, Endpoint, Failed, FileFault, Files, Links, MemSink, MemSource, Sink,
    Source, SystemClock,
};
use std::alloc::Global;
use std::fs;
use std::process::Abort;
use std::sync::ledger::Ledger;
use std::test::Fail;
use tcp_links::{Settings, TcpLinks};

fn crosses_threads<T: Send>(_value: &T) {}

fn lists_cross_threads<T: Send>(list: &List<T>) {
    crosses_threads(list);
}

fn texts_cross_threads(text: &Text, source: &MemSource, sink: &MemSink) {
    crosses_threads(text);
    crosses_threads(source);
    crosses_threads(sink);
}

fn steps_cross_threads<L: Ledger>(steps: &Steps<L>) {
    crosses_threads(steps);
}

#[test]
fn calls_that_want_memory(rt: HostRuntime) -> Result<(), Fail> {
    let alloc = rt.alloc();
    let mut list: Bytes = List::with_capacity(alloc, 4)?;
    list.push(b'x')?;
    list.push_some(Some(b'b'))?;
    list.insert(0, b'a')?;
    list.append(Bytes::from_slice(alloc, b"cd")?)?;
    list.set(1, b'y');
    list.remove(1);
    list.reserve(2)?;
    list.as_mut_slice()[2] = b'e';
    list.extend_from_slice(b"f")?;
    assert!(rt; list.copy()?.as_slice() == b"abedf".as_slice());
    Ok(())
}

/// Adds a letter to a text, and then the text itself.
fn add(text: &mut Text) -> Result<(), Memory> {
    text.push(b'c')?;
    let more = text.copy()?;
    text.push_text(&more)
}

#[test]
fn texts(rt: HostRuntime) -> Result<(), Fail> {
    let mut text = Text::from_slice(rt.alloc(), b"ab")?;
    add(&mut text)?;
    let printed = format!(in rt.alloc(); "{text}")?;
    assert_eq!(rt; printed.as_str(), "abcabc");
    Ok(())
}

/// A source of three bytes whose second call fails.
fn source_of_three(alloc: Global) -> Result<MemSource, Memory> {
    let bytes = Bytes::from_slice(alloc, b"abc")?;
    let fails = List::from_slice(alloc, &[2])?;
    Ok(MemSource::new(bytes, fails))
}

/// Two bytes go from a source of three to a sink whose first call fails.
fn pass_on(rt: &impl Abort, source: &mut MemSource, sink: &mut MemSink) {
    let mut place = [0u8; 2];
    assert_eq!(rt; source.read(&mut place), Ok(2));
    assert_eq!(rt; source.read(&mut place), Err(Failed));
    assert_eq!(rt; sink.write(&place), Err(Failed));
    assert_eq!(rt; sink.write(&place), Ok(2));
    assert_eq!(rt; source.read(&mut place), Ok(1));
    assert_eq!(rt; source.read(&mut place), Ok(0));
}

#[test]
fn the_outside_in_memory(rt: HostRuntime) -> Result<(), Fail> {
    let mut source = source_of_three(rt.alloc())?;
    let fails = List::from_slice(rt.alloc(), &[1])?;
    let mut sink = MemSink::new(Bytes::new(rt.alloc()), fails);
    pass_on(&rt, &mut source, &mut sink);
    assert!(rt; sink.held.as_slice() == b"ab".as_slice());
    Ok(())
}

#[test]
fn a_file(rt: HostRuntime) -> Result<(), Fail> {
    fs::write(&rt, "read_by_a_test", b"abc".as_slice())?;
    let name = Text::from_slice(rt.alloc(), b"read_by_a_test")?;
    let mut files = DiskFiles::new(&rt);
    assert!(rt; files.read(&name)?.as_slice() == b"abc".as_slice());
    fs::remove_file(&rt, "read_by_a_test")?;
    assert!(rt; files.read(&name).err() == Some(FileFault::Absent));
    Ok(())
}

#[test]
fn the_clock(rt: HostRuntime) {
    let mut clock = SystemClock::new(&rt);
    let begun = clock.now();
    clock.rest(0);
    // 2020 has begun, and the clock wasn't set back meanwhile
    assert!(rt; 1_577_836_800 < begun && begun <= clock.now());
}

fn linked<L: Links>(links: &mut L, end: &Endpoint) -> Result<L::Dial, Failed> {
    links.dial(end)
}

fn sent<D: Dial + Drop, E: Dial + Drop>(mut from: D, mut to: E) -> Result<u8, Failed>
where
    D::In: Drop,
    D::Out: Drop,
    E::In: Drop,
    E::Out: Drop,
{
    // a side that is dropped ends its connection
    let (_kept_source, mut sink) = from.next()?.ok_or(Failed)?;
    let (mut source, _kept_sink) = to.next()?.ok_or(Failed)?;
    sink.write(b"x")?;
    sink.flush()?;
    let mut place = [0u8; 1];
    source.read(&mut place)?;
    Ok(place[0])
}

const ADDRESS: &[u8] = b"127.0.0.1:46633";

fn lead_end(alloc: Global) -> Result<Endpoint, Memory> {
    Ok(Endpoint::Lead {
        listen: Text::from_slice(alloc, ADDRESS)?,
    })
}

fn standby_end(alloc: Global) -> Result<Endpoint, Memory> {
    Ok(Endpoint::Standby {
        address: Text::from_slice(alloc, ADDRESS)?,
        rounds: 1,
    })
}

#[test]
fn a_connection(rt: HostRuntime) -> Result<(), Fail> {
    let lead = lead_end(rt.alloc())?;
    let standby = standby_end(rt.alloc())?;
    let mut links = TcpLinks::new(&rt, rt.alloc(), Settings::usual());
    let to = linked(&mut links, &lead)?;
    let from = linked(&mut links, &standby)?;
    assert_eq!(rt; sent(from, to), Ok(b'x'));
    Ok(())
}
