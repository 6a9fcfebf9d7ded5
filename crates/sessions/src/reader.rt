//! The loop that reads from a peer.
ghost use Rattle.std.specs.Prelude.{◌≡◌, IfOk, OnErr};
ghost use Rattle.sessions.specs.Reading.{HasPostedSome, IsReadEnd, ReaderPosts};

use crate::desk::Desk;
use crate::ends::ReadEnd;
use crate::hearing::hear_all;
use crate::leaving::leave;
use cv_io::{Memory, Session};
use of10_frames::Framer;
use outside::Source;
use std::alloc::Global;
use std::sync::Wait;

/// Reads a session's frames, those that the framer keeps first, and posts each as soon as it is whole, up to the first
/// that finds the session ended. Where none does, it posts at the end that the session went.
///
/// It may wait for the source and for the desk.
pub fn run_reader<R: Wait, D: Desk, S: Source>(
    rt: &R,
    alloc: Global,
    desk: &D,
    pass: &mut D::Pass,
    session: &Session,
    framer: &mut Framer,
    source: &mut S,
) -> Result<ReadEnd, Memory>
    requires { D.admits desk.now pass.old }
    ensures pass { D.admits desk.now pass.new }
    ensures posted { IfOk result (ReaderPosts (S.remaining source.old) (S.remaining source.new) framer.old session.now
        (D.posts pass.old) (D.ended pass.new session.now) (D.posts pass.new) framer.new) }
    ensures end { IfOk result (IsReadEnd (S.remaining source.new) framer.new
        (S.faults source.old) (S.faults source.new) (S.is_reliable source.old)) }
    ensures memory { OnErr result (HasPostedSome (S.remaining source.old) (S.remaining source.new)
        framer.old session.now
        (D.posts pass.old) (D.posts pass.new)) }
    ensures reliable { S.is_reliable source.new ≡ S.is_reliable source.old }
{
    match hear_all(rt, alloc, desk, pass, session, framer, source) {
        Ok(at) => Ok(ReadEnd::Closed { at }),
        Err(stop) => {
            leave(desk, pass, session)?;
            stop.end()
        }
    }
}
