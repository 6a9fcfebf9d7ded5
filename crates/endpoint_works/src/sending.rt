//! What is written to the connections of an endpoint.
ghost use Rattle.endpoint_works.specs.Sendings.{HasSent};

use crate::handover::Handover;
use outside::{Clock, Sink};
use sessions::{Desk, WriteEnd, run_writer};
use std::sync::Wait;

/// How the writing to the connections of an endpoint ended.
#[derive(Clone, Copy, PartialEq, Eq, Debug)]
pub struct Sent {
    /// To one the writing was cut off: its sink failed, or memory was wanted.
    pub cut: bool,
    /// Memory was wanted.
    pub wanted: bool,
}

/// Writes to each connection that is handed over what waits for its session, until no further one comes. It posts
/// takings and seconds of the clock alone, unless a writing is cut off.
pub fn send<R: Wait, D: Desk, K: Sink + Drop, C: Clock>(
    rt: &R,
    desk: &D,
    pass: &mut D::Pass,
    handover: &Handover<K>,
    clock: &mut C,
) -> Sent
    requires { D.admits desk.now pass.old }
    ensures pass { D.admits desk.now pass.new }
    ensures posted { HasSent (C.may clock.old) result.cut (D.posts pass.old) (D.posts pass.new) }
{
    let mut sent = Sent {
        cut: false,
        wanted: false,
    };
    for _ in rt.forever() {
        let Some(mut hand) = handover.take(rt) else {
            return sent;
        };
        let session = hand.session;
        match run_writer(rt, desk, pass, &session, &mut hand.sink, clock) {
            Ok(WriteEnd::Closed { .. }) => {}
            Ok(WriteEnd::WriteFault) => sent.cut = true,
            Err(_) => {
                sent.cut = true;
                sent.wanted = true;
            }
        }
    }
    unreachable!()
}
