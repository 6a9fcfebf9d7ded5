//! The lines of the audit.
ghost use Rattle.std.specs.Prelude.{◌≡◌, ◌≤◌, ◌∷◌, ◌++◌, [], IfOk, OnErr, OnOk};
ghost use Rattle.outside.specs.Outside.{Rose};
ghost use Rattle.sessions.specs.Streams.{Appends, AppendsSome};
ghost use Rattle.endpoint_works.specs.Audits.{AuditPosts, HasAudited, IsAuditEnd, IsDrained, TakesLines, audit};

use crate::others::Others;
use cv_io::{Memory, Session, Who};
use outside::{Clock, Failed, Sink};
use sessions::{Desk, Taken, write_all};
use std::sync::Wait;

/// The audit has one session, in round 0, which doesn't end.
pub const AUDIT: Session = Session {
    who: Who::Audit,
    round: 0,
};

/// How the writing of the audit ended.
#[derive(Clone, Copy, PartialEq, Eq, Debug)]
pub enum AuditEnd {
    /// All other works had ended, and then no line waited.
    Ended,
    /// A line could not be written. Those that came behind it were dropped.
    WriteFault,
}

/// Writes each line of the audit as it comes, until all other works have ended and no line waits. Behind a write that
/// failed it drops what comes.
pub fn write_audit<R: Wait, D: Desk, K: Sink, C: Clock>(
    rt: &R,
    desk: &D,
    pass: &mut D::Pass,
    out: &mut K,
    others: &Others,
    clock: &mut C,
) -> Result<AuditEnd, Memory>
    requires { D.admits desk.now pass.old }
    ensures pass { D.admits desk.now pass.new }
    ensures posted { IfOk result (AuditPosts (D.posts pass.old) (K.held out.old) (K.held out.new) (D.posts pass.new)) }
    ensures end { IfOk result (IsAuditEnd (K.faults out.old) (K.faults out.new)) }
    ensures drained { IfOk result (IsDrained (D.ended pass.new audit) (D.waits pass.new audit)) }
    ensures memory { OnErr result (HasAudited (D.posts pass.old) (K.held out.old) (K.held out.new) (D.posts pass.new)) }
    ensures quiet { OnErr result (K.faults out.new ≡ K.faults out.old) }
{
    let end = write_lines(rt, desk, pass, out, others, clock)?;
    match end {
        AuditEnd::Ended => Ok(AuditEnd::Ended),
        AuditEnd::WriteFault => {
            drop_lines(rt, desk, pass, out, others, clock);
            Ok(AuditEnd::WriteFault)
        }
    }
}

/// Writes each line as it comes, until all other works have ended and no line waits, or a write fails.
fn write_lines<R: Wait, D: Desk, K: Sink, C: Clock>(
    rt: &R,
    desk: &D,
    pass: &mut D::Pass,
    out: &mut K,
    others: &Others,
    clock: &mut C,
) -> Result<AuditEnd, Memory>
    requires { D.admits desk.now pass.old }
    ensures pass { D.admits desk.now pass.new }
    ensures posted { IfOk result (AuditPosts (D.posts pass.old) (K.held out.old) (K.held out.new) (D.posts pass.new)) }
    ensures end { IfOk result (IsAuditEnd (K.faults out.old) (K.faults out.new)) }
    ensures drained { IfOk result (IsDrained (D.ended pass.new audit) (D.waits pass.new audit)) }
    ensures memory { OnErr result (HasAudited (D.posts pass.old) (K.held out.old) (K.held out.new) (D.posts pass.new)) }
    ensures quiet { OnErr result (K.faults out.new ≡ K.faults out.old) }
    ensures never_falls { K.faults out.old ≤ K.faults out.new }
{
    let mut turns = 0;
    for _ in rt.forever() {
        let ended = others.have_ended();
        match desk.take(pass, &AUDIT)? {
            Taken::Message(line) => {
                if write_line(out, line.as_slice()).is_err() {
                    return Ok(AuditEnd::WriteFault);
                }
                turns = 0;
            }
            Taken::Empty { .. } => {
                if out.flush().is_err() {
                    return Ok(AuditEnd::WriteFault);
                }
                if ended {
                    return Ok(AuditEnd::Ended);
                }
                desk.rest(&AUDIT, clock, turns);
                turns = turns.saturating_add(1);
            }
            Taken::Closed { .. } => return Ok(AuditEnd::Ended),
        }
    }
    unreachable!()
}

/// Takes each line as it comes, and drops it, until all other works have ended and no line waits: else the lines that
/// wait would be more and more. A flush lets the sink tell that it is broken.
fn drop_lines<R: Wait, D: Desk, K: Sink, C: Clock>(
    rt: &R,
    desk: &D,
    pass: &mut D::Pass,
    out: &mut K,
    others: &Others,
    clock: &mut C,
)
    requires { D.admits desk.now pass.old }
    ensures pass { D.admits desk.now pass.new }
    ensures taken { TakesLines (D.posts pass.old) (D.posts pass.new) }
    ensures kept { K.held out.new ≡ K.held out.old }
    ensures never_falls { K.faults out.old ≤ K.faults out.new }
{
    let mut turns = 0;
    for _ in rt.forever() {
        let over = others.have_ended();
        match drop_line(desk, pass) {
            Dropped::Line => turns = 0,
            Dropped::Closed => return,
            Dropped::Nothing => {
                if over {
                    return;
                }
                let _ = out.flush();
                desk.rest(&AUDIT, clock, turns);
                turns = turns.saturating_add(1);
            }
        }
    }
    unreachable!()
}

/// What is dropped: a line; nothing, where none waits or memory is wanted for it; or nothing more, as the audit is
/// closed.
#[derive(Clone, Copy, PartialEq, Eq, Debug)]
enum Dropped {
    Line,
    Nothing,
    Closed,
}

/// Takes a line if one waits, and drops it.
fn drop_line<D: Desk>(desk: &D, pass: &mut D::Pass) -> Dropped
    requires { D.admits desk.now pass.old }
    ensures pass { D.admits desk.now pass.new }
    ensures taken { TakesLines (D.posts pass.old) (D.posts pass.new) }
{
    match desk.take(pass, &AUDIT) {
        Ok(Taken::Message(_)) => Dropped::Line,
        Ok(Taken::Closed { .. }) => Dropped::Closed,
        Ok(Taken::Empty { .. }) | Err(_) => Dropped::Nothing,
    }
}

/// Writes a line, and its end.
pub fn write_line<K: Sink>(out: &mut K, line: &[u8]) -> Result<(), Failed>
    ensures written { OnOk result (Appends (K.held out.old) (K.held out.new) (line.now ++ 10 ∷ [])) }
    ensures some { OnErr result (AppendsSome (K.held out.old) (K.held out.new) (line.now ++ 10 ∷ [])) }
    ensures quiet { OnOk result (K.faults out.new ≡ K.faults out.old) }
    ensures fault { OnErr result (Rose (K.faults out.old) (K.faults out.new)) }
    ensures never_falls { K.faults out.old ≤ K.faults out.new }
{
    write_all(out, line)?;
    write_all(out, b"\n")
}
