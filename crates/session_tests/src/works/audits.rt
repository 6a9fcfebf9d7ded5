//! The work that writes the audit.
use super::desks::{Book, Log, letters};
use counting_machine::Lines;
use cv_io::{Bytes, List, Memory};
use endpoint_works::{AuditEnd, Others, write_audit};
use outside::{Clock, MemClock, MemSink};
use std::alloc::Global;
use std::sync::Wait;
use std::sync::atomic::{AtomicU64, Ordering};
use std::test::*;

fn two_lines(alloc: Global) -> Result<List<Bytes>, Memory> {
    let mut lines = List::new(alloc);
    lines.push(Bytes::from_slice(alloc, b"up app")?)?;
    lines.push(Bytes::from_slice(alloc, b"down s1")?)?;
    Ok(lines)
}

/// The audit over a sink whose calls fail so: how its writing ends, and what is written.
fn written<R: Wait>(
    rt: &R,
    alloc: Global,
    pass: &mut Log,
    fails: &[u64],
) -> Result<(AuditEnd, Bytes), Memory> {
    let fails = List::from_slice(alloc, fails)?;
    let others = Others::new(1);
    others.end_one();
    let mut clock = MemClock::new(List::new(alloc));
    let mut out = MemSink::new(Bytes::new(alloc), fails);
    let end = write_audit(rt, &Book {}, pass, &mut out, &others, &mut clock)?;
    Ok((end, out.held))
}

/// The same where two lines wait, and what is posted.
fn audit<R: Wait>(
    rt: &R,
    alloc: Global,
    fails: &[u64],
) -> Result<(AuditEnd, Bytes, Bytes), Memory> {
    let mut pass = Log::waiting(alloc, two_lines(alloc)?, 1);
    let written = written(rt, alloc, &mut pass, fails);
    let posts = letters(alloc, &pass.posts);
    drop(pass);
    let (end, held) = written?;
    Ok((end, held, posts?))
}

#[test]
fn lines_are_written(rt: HostRuntime) -> Result<(), Fail> {
    let (end, held, posts) = audit(&rt, rt.alloc(), &[])?;
    assert_eq!(rt; end, AuditEnd::Ended);
    assert!(rt; held.as_slice() == b"up app\ndown s1\n".as_slice());
    assert!(rt; posts.as_slice() == b"kk".as_slice());
    let (end, held, _posts) = audit(&rt, rt.alloc(), &[4])?;
    assert_eq!(rt; end, AuditEnd::WriteFault);
    assert!(rt; held.as_slice() == b"up app\ndown s1".as_slice());
    Ok(())
}

#[test]
fn lines_are_taken_behind_a_fault(rt: HostRuntime) -> Result<(), Fail> {
    let (end, held, posts) = audit(&rt, rt.alloc(), &[1])?;
    assert_eq!(rt; end, AuditEnd::WriteFault);
    assert!(rt; held.is_empty());
    assert!(rt; posts.as_slice() == b"kk".as_slice());
    Ok(())
}

/// A clock at whose first rest the other works end. It notes how many lines had been written by then.
#[derive(Drop)]
struct Ending<'a> {
    others: &'a Others,
    written: &'a AtomicU64,
    seen: Option<u64>,
}

impl Clock for Ending<'_> {
    ghost use Rattle.std.specs.Prelude.{◌≡◌};

    ghost greatest = { λ _. 0 };

    ghost may = { λ _ moment. moment ≡ 0 };

    fn now(&mut self) -> u64 {
        0
    }

    fn rest(&mut self, _turns: u32) {
        if self.seen.is_none() {
            self.seen = Some(self.written.load(Ordering::SeqCst));
            self.others.end_one();
        }
    }
}

#[test]
fn lines_are_written_as_they_come(rt: HostRuntime) -> Result<(), Fail> {
    let mut pass = Log::waiting(rt.alloc(), two_lines(rt.alloc())?, 2);
    let written = AtomicU64::new(0);
    let others = Others::new(1);
    let mut out = Lines { written: &written };
    let mut clock = Ending {
        others: &others,
        written: &written,
        seen: None,
    };
    let end = write_audit(&rt, &Book {}, &mut pass, &mut out, &others, &mut clock);
    drop(pass);
    assert_eq!(rt; end?, AuditEnd::Ended);
    assert!(rt; clock.seen == Some(2));
    Ok(())
}
