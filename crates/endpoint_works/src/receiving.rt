//! All connections of an endpoint, one after the other.
ghost use Rattle.endpoint_works.specs.Sides.{IsServedSide};
ghost use Rattle.endpoint_works.specs.Tasks.{HasReceived};

use crate::arrivals::Arrivals;
use crate::handover::Handover;
use crate::later::LaterDesk;
use crate::round::serve_round;
use crate::side::Side;
use std::alloc::Global;
use std::sync::Wait;

/// How the connections of an endpoint ended.
#[derive(Clone, Copy, PartialEq, Eq, Debug)]
pub struct Received {
    /// The dial failed. Else it gave all its connections.
    pub failed: bool,
    /// A round ended for want of memory.
    pub wanted: bool,
}

/// Serves each connection that comes, and then no other: until there are no more, or none can be had. A round that
/// finds no memory ends, and the next one comes.
pub fn receive<R: Wait, D: LaterDesk, A: Arrivals>(
    rt: &R,
    alloc: Global,
    desk: &D,
    pass: &mut D::Pass,
    side: &Side,
    arrivals: &mut A,
    handover: &Handover<A::Out>,
) -> Received
where
    A::In: Drop,
    A::Out: Drop,
    requires pass { D.admits desk.now pass.old }
    requires side { IsServedSide (D.serves desk.now) side.now }
    ensures pass { D.admits desk.now pass.new }
    ensures received { HasReceived D.posts D.ended D.later side.now (A.is_reliable arrivals.old)
        (A.left arrivals.old) (A.left arrivals.new) pass.old pass.new result }
{
    let mut wanted = false;
    for _ in rt.forever() {
        match arrivals.next() {
            Ok(Some((mut source, sink))) => {
                let now = desk.from_here(pass);
                match serve_round(rt, alloc, &now, pass, side, &mut source, sink, handover) {
                    Ok(_) => {}
                    Err(_) => wanted = true,
                }
            }
            Ok(None) => {
                return Received {
                    failed: false,
                    wanted,
                };
            }
            Err(_) => {
                return Received {
                    failed: true,
                    wanted,
                };
            }
        }
    }
    unreachable!()
}
