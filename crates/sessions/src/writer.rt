//! The loop that writes to a peer.
ghost use Rattle.std.specs.Prelude.{◌≡◌, ◌≤◌, ℕ, IfOk, Ok, OnOk, OnErr};
ghost use Rattle.sessions.specs.Posts.{ShowsUpTo, StillShows};
ghost use Rattle.sessions.specs.Streams.{SinkFailed};
ghost use Rattle.sessions.specs.Writing.{HasNoMemory, HasSent, HasWritten, IsReached, IsWriteEnd, MayTell, WriterPosts};

use crate::desk::{Desk, Taken};
use crate::ends::WriteEnd;
use crate::leaving::leave;
use crate::writing::write_all;
use cv_io::{Memory, Session};
use outside::{Clock, Sink, has_risen};
use std::sync::Wait;

/// Takes what waits for a session and writes it, until the session has ended. Where nothing waits the sink sends what
/// it has collected; then it posts the second, where the desk says that it may, and if it is above the last that it
/// posted, and rests. A sink that fails for want of memory is want of memory.
///
/// It may wait for the sink, for the clock and for the desk.
pub fn run_writer<R: Wait, D: Desk, K: Sink, C: Clock>(
    rt: &R,
    desk: &D,
    pass: &mut D::Pass,
    session: &Session,
    sink: &mut K,
    clock: &mut C,
) -> Result<WriteEnd, Memory>
    requires { D.admits desk.now pass.old }
    ensures pass { D.admits desk.now pass.new }
    ensures posted { IfOk result (WriterPosts session.now (IsReached (C.may clock.old) (C.greatest clock.new))
        (D.posts pass.old) (K.held sink.old) (K.held sink.new)
        (D.ended pass.new session.now) (D.posts pass.new)) }
    ensures end { IfOk result (IsWriteEnd (K.faults sink.old) (K.faults sink.new)
        (K.wants sink.old) (K.wants sink.new) (K.is_reliable sink.old)) }
    ensures memory { OnErr result (HasNoMemory session.now (IsReached (C.may clock.old) (C.greatest clock.new))
        (D.posts pass.old) (K.held sink.old) (K.held sink.new)
        (SinkFailed (K.faults sink.old) (K.faults sink.new)
        (K.wants sink.old) (K.wants sink.new) (K.is_reliable sink.old)) (D.posts pass.new)) }
    ensures shown { OnOk result (ShowsUpTo (D.shows pass.new) (C.greatest clock.old) (C.greatest clock.new)) }
    ensures no_more { (moment : ℕ) → C.may clock.new moment → C.may clock.old moment }
    ensures reliable { K.is_reliable sink.new ≡ K.is_reliable sink.old }
{
    let wants = sink.wants();
    match send_all(rt, desk, pass, session, sink, clock) {
        Ok(WriteEnd::Closed { at }) => Ok(WriteEnd::Closed { at }),
        Ok(WriteEnd::WriteFault) => {
            leave(desk, pass, session)?;
            if has_risen(wants, sink.wants()) {
                return Err(Memory);
            }
            Ok(WriteEnd::WriteFault)
        }
        Err(memory) => {
            leave(desk, pass, session)?;
            Err(memory)
        }
    }
}

// Writes what waits, until the session has ended or the sink fails.
fn send_all<R: Wait, D: Desk, K: Sink, C: Clock>(
    rt: &R,
    desk: &D,
    pass: &mut D::Pass,
    session: &Session,
    sink: &mut K,
    clock: &mut C,
) -> Result<WriteEnd, Memory>
    requires { D.admits desk.now pass.old }
    ensures pass { D.admits desk.now pass.new }
    ensures sent { IfOk result (HasSent session.now (IsReached (C.may clock.old) (C.greatest clock.new))
        (D.posts pass.old) (K.held sink.old) (K.held sink.new)
        (D.ended pass.new session.now) (D.posts pass.new)) }
    ensures failed { result ≡ Ok WriteEnd.WriteFault → SinkFailed (K.faults sink.old) (K.faults sink.new)
        (K.wants sink.old) (K.wants sink.new) (K.is_reliable sink.old) }
    ensures memory { OnErr result (HasWritten session.now (IsReached (C.may clock.old) (C.greatest clock.new))
        (D.posts pass.old) (K.held sink.old) (K.held sink.new) (D.posts pass.new)) }
    ensures shown { OnOk result (ShowsUpTo (D.shows pass.new) (C.greatest clock.old) (C.greatest clock.new)) }
    ensures no_more { (moment : ℕ) → C.may clock.new moment → C.may clock.old moment }
    ensures reliable { K.is_reliable sink.new ≡ K.is_reliable sink.old }
{
    let mut last = 0;
    let mut turns = 0;
    for _ in rt.forever() {
        match desk.take(pass, session)? {
            Taken::Message(message) => {
                if write_all(sink, message.as_slice()).is_err() {
                    return Ok(WriteEnd::WriteFault);
                }
                turns = 0;
            }
            Taken::Empty { .. } => {
                if sink.flush().is_err() {
                    return Ok(WriteEnd::WriteFault);
                }
                last = rest(desk, pass, session, clock, last, turns)?;
                turns = turns.saturating_add(1);
            }
            Taken::Closed { at } => return Ok(WriteEnd::Closed { at }),
        }
    }
    unreachable!()
}

// Posts the second if it may and if that is above the last one, and rests, as many turns after a message. Answers the
// last one then.
fn rest<D: Desk, C: Clock>(
    desk: &D,
    pass: &mut D::Pass,
    session: &Session,
    clock: &mut C,
    last: u64,
    turns: u32,
) -> Result<u64, Memory>
    requires pass { D.admits desk.now pass.old }
    requires last { last ≤ C.greatest clock.old }
    ensures pass { D.admits desk.now pass.new }
    ensures last { IfOk result (λ last. last ≤ C.greatest clock.new) }
    ensures told { OnOk result (MayTell (IsReached (C.may clock.old) (C.greatest clock.new))
        (D.posts pass.old) (D.posts pass.new)) }
    ensures memory { OnErr result (D.posts pass.new ≡ D.posts pass.old) }
    ensures greatest { C.greatest clock.old ≤ C.greatest clock.new }
    ensures no_more { (moment : ℕ) → C.may clock.new moment → C.may clock.old moment }
    ensures shown { OnOk result (ShowsUpTo (D.shows pass.new) (C.greatest clock.old) (C.greatest clock.new)) }
    ensures still { StillShows (D.shows pass.old) (D.shows pass.new) }
{
    let mut last = last;
    if desk.may_tick() {
        let second = clock.now();
        if second > last {
            desk.tick(pass, second)?;
            last = second;
        }
    }
    desk.rest(session, clock, turns);
    Ok(last)
}
