//! The frames of a session, each posted as soon as it is whole.
ghost use Rattle.std.specs.Prelude.{◌≡◌, ◌<◌, IfErr, IfOk, length};
ghost use Rattle.sessions.specs.Reading.{HasFoundEnded, HasHeard};

use crate::desk::{Desk, Heard};
use crate::incoming::{Stop, chunk, next_frame};
use cv_io::Session;
use of10_frames::Framer;
use outside::Source;
use std::alloc::Global;
use std::sync::Wait;

/// Posts each frame, up to the first that finds the session ended, and tells after how many entries it had. An `Err`
/// says why no further frame comes.
pub(crate) fn hear_all<R: Wait, D: Desk, S: Source>(
    rt: &R,
    alloc: Global,
    desk: &D,
    pass: &mut D::Pass,
    session: &Session,
    framer: &mut Framer,
    source: &mut S,
) -> Result<u64, Stop>
    requires { D.admits desk.now pass.old }
    ensures pass { D.admits desk.now pass.new }
    ensures closed { IfOk result (λ at. HasFoundEnded (S.remaining source.old) (S.remaining source.new)
        framer.old session.now
        (D.posts pass.old) (D.posts pass.new) framer.new × D.ended pass.new session.now at) }
    ensures stop { IfErr result (HasHeard (S.remaining source.old) (S.remaining source.new) framer.old session.now
        (D.posts pass.old) (D.posts pass.new) framer.new
        (S.faults source.old) (S.faults source.new) (S.is_reliable source.old)) }
    ensures reliable { S.is_reliable source.new ≡ S.is_reliable source.old }
{
    let mut place = chunk(alloc)?;
    hear_frames(
        rt,
        desk,
        pass,
        session,
        framer,
        source,
        place.as_mut_slice(),
    )
}

fn hear_frames<R: Wait, D: Desk, S: Source>(
    rt: &R,
    desk: &D,
    pass: &mut D::Pass,
    session: &Session,
    framer: &mut Framer,
    source: &mut S,
    place: &mut [u8],
) -> Result<u64, Stop>
    requires pass { D.admits desk.now pass.old }
    requires place { 0 < length place.old }
    ensures pass { D.admits desk.now pass.new }
    ensures closed { IfOk result (λ at. HasFoundEnded (S.remaining source.old) (S.remaining source.new)
        framer.old session.now
        (D.posts pass.old) (D.posts pass.new) framer.new × D.ended pass.new session.now at) }
    ensures stop { IfErr result (HasHeard (S.remaining source.old) (S.remaining source.new) framer.old session.now
        (D.posts pass.old) (D.posts pass.new) framer.new
        (S.faults source.old) (S.faults source.new) (S.is_reliable source.old)) }
    ensures reliable { S.is_reliable source.new ≡ S.is_reliable source.old }
{
    for _ in rt.forever() {
        let frame = next_frame(rt, framer, source, place)?;
        if let Heard::Closed { at } = desk.hear(pass, session, frame)? {
            return Ok(at);
        }
    }
    unreachable!()
}
