//! A run over connections in memory, of which a line of the audit is read before it ends.
ghost use Rattle.std.specs.Prelude.{◌≡◌, ◌∷◌, [], IfOk};
ghost use Rattle.endpoint_works.specs.declared.side.Side.TheVariants.{Member};

use crate::diary::{Diaries, Diary};
use counting_machine::Lines;
use cv_io::{Bytes, List, Memory, Text};
use endpoint_works::Side;
use outside::{Dial, Endpoint, Failed, Links, MemSink, MemSource, ScopeSpawner, SystemClock};
use serving::{Place, Served, serve};
use std::alloc::Global;
use std::sync::Wait;
use std::sync::atomic::{AtomicU64, Ordering};
use std::test::Fail;
use std::thread;
use std::thread::Threads;
use std::time::{self, Duration};

// A HELLO, and a VENDOR message, of which the audit has a line.
const SENT: &[u8] = &[1, 0, 0, 8, 0, 0, 0, 0, 1, 4, 0, 12, 0, 0, 0, 9, 0, 0, 0, 0];

/// Links by which each member has one connection, and no switch has any. After its connection was read to its end a
/// member's dial waits for a line to be written, for ten seconds at most, and notes whether it was.
#[derive(Drop)]
struct Watched<'a, R> {
    rt: &'a R,
    alloc: Global,
    written: &'a AtomicU64,
    seen: &'a AtomicU64,
}

/// One of their dials.
#[derive(Drop)]
struct Watching<'a, R> {
    rt: &'a R,
    alloc: Global,
    written: &'a AtomicU64,
    seen: &'a AtomicU64,
    /// It is a member's that has given no connection yet.
    fresh: bool,
    /// It is a member's.
    waits: bool,
}

impl<'a, R: time::Clock + Sync> Links for Watched<'a, R> {
    ghost use Rattle.std.specs.Prelude.{None, false};

    type Dial = Watching<'a, R>;

    ghost told = { λ _ _. None };

    ghost is_reliable = { λ _ _. false };

    ghost faults = { λ _. 0 };

    fn dial(&mut self, end: &Endpoint) -> Result<Watching<'a, R>, Failed> {
        let waits = matches!(end, Endpoint::Member { .. });
        Ok(Watching {
            rt: self.rt,
            alloc: self.alloc,
            written: self.written,
            seen: self.seen,
            fresh: waits,
            waits,
        })
    }
}

impl<R: time::Clock + Sync> Dial for Watching<'_, R> {
    ghost use Rattle.std.specs.Prelude.{None, false};

    type In = MemSource;

    type Out = MemSink;

    ghost left = { λ _. None };

    ghost is_reliable = { λ _. false };

    ghost faults = { λ _. 0 };

    fn next(&mut self) -> Result<Option<(MemSource, MemSink)>, Failed> {
        if self.fresh {
            self.fresh = false;
            let bytes = sent(self.alloc).unwrap_or(Bytes::new(self.alloc));
            let source = MemSource::new(bytes, List::new(self.alloc));
            let sink = MemSink::new(Bytes::new(self.alloc), List::new(self.alloc));
            return Ok(Some((source, sink)));
        }
        if self.waits {
            self.wait_for_a_line();
        }
        Ok(None)
    }
}

fn sent(alloc: Global) -> Result<Bytes, Memory> {
    Bytes::from_slice(alloc, SENT)
}

impl<R: time::Clock> Watching<'_, R> {
    fn wait_for_a_line(&self) {
        for _ in 0..10_000 {
            if self.written.load(Ordering::SeqCst) > 0 {
                self.seen.fetch_add(1, Ordering::SeqCst);
                return;
            }
            thread::sleep(self.rt, Duration::from_millis(1));
        }
    }
}

/// The endpoint of one member, by which it has one connection.
fn member(alloc: Global) -> Result<Place, Memory>
    ensures { IfOk result (λ place. place.side ≡ Member 0) }
{
    Ok(Place {
        end: Endpoint::Member {
            index: 0,
            address: Text::from_slice(alloc, b"10.0.0.1:6633")?,
            rounds: 1,
        },
        side: Side::Member { index: 0 },
    })
}

fn lone(alloc: Global, place: Place) -> Result<List<Place>, Memory>
    ensures { IfOk result (λ places. places ≡ place ∷ []) }
{
    let mut places = List::new(alloc);
    places.push(place)?;
    Ok(places)
}

/// How a run ends, how many members saw a line before it did, and how many were written.
fn served<R: Wait + Threads + time::Clock + Sync>(
    rt: &R,
    alloc: Global,
) -> Result<(Served, u64, u64), Memory> {
    let places = lone(alloc, member(alloc)?)?;
    let line = Bytes::from_slice(alloc, b"heard")?;
    let (written, seen) = (AtomicU64::new(0), AtomicU64::new(0));
    let mut out = Lines { written: &written };
    let mut links = Watched {
        rt,
        alloc,
        written: &written,
        seen: &seen,
    };
    let mut spawner = ScopeSpawner::new();
    let clock = SystemClock::new(rt);
    let end = serve::<Diaries, _, _, _, _, _>(
        rt,
        alloc,
        Diary {
            line,
            waits: false,
            up: false,
        },
        places,
        &mut out,
        &mut links,
        &mut spawner,
        &clock,
    );
    Ok((
        end,
        seen.load(Ordering::SeqCst),
        written.load(Ordering::SeqCst),
    ))
}

#[test]
fn a_line_is_written_before_the_end(rt: HostRuntime) -> Result<(), Fail> {
    assert!(rt; served(&rt, rt.alloc())? == (Served::Done, 1, 1));
    Ok(())
}
