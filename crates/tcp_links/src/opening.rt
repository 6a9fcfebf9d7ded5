//! What the bytes that a peer sent so far come to.
ghost use Rattle.std.specs.Prelude.{◌≡◌, ◌<◌, ◌^◌, IfOk, length};
ghost use Rattle.sessions.specs.Greetings.{hello_message};
ghost use Rattle.tcp_links.specs.Verdicts.{IsJudgedMember, IsJudgedSwitch, verdict_of};

use cv_io::{Bytes, Duplicate, List, Memory};
use of10_frames::Framer;
use outside::{MemSink, MemSource};
use sessions::{Greeted, OpenEnd, open_member, open_switch};
use std::alloc::Global;
use std::sync::Wait;

/// What the bytes come to.
#[derive(Clone, Copy, PartialEq, Eq, Debug)]
pub enum Verdict<T> {
    /// More has to come.
    More,
    /// The peer has greeted.
    Open { peer: T },
    /// It will not.
    Refused { end: OpenEnd },
}

/// What the bytes come to, and all that is to be sent for them.
#[derive(Drop, Debug)]
pub struct Judged<T> {
    pub verdict: Verdict<T>,
    pub answer: Bytes,
}

/// What the opening of a controller's connection says of the bytes that it sent so far.
pub fn judged_member<R: Wait>(rt: &R, alloc: Global, bytes: &Bytes) -> Result<Judged<()>, Memory>
    ensures verdict { IfOk result (λ judged. IsJudgedMember bytes.now judged.verdict) }
    ensures answer { IfOk result (λ judged. judged.answer ≡ hello_message) }
{
    let mut source = MemSource::new(bytes.copy()?, List::new(alloc));
    let mut sink = MemSink::new(Bytes::new(alloc), List::new(alloc));
    let mut framer = Framer::new(alloc);
    let opened = open_member(rt, alloc, &mut framer, &mut source, &mut sink);
    Ok(Judged {
        verdict: verdict_of(opened)?,
        answer: sink.held,
    })
}

/// What the opening of a switch's connection says of the bytes that it sent so far.
pub fn judged_switch<R: Wait>(
    rt: &R,
    alloc: Global,
    dpids: &List<u64>,
    bytes: &Bytes,
) -> Result<Judged<Greeted>, Memory>
    requires { length dpids.now < 2 ^ 32 }
    ensures { IfOk result (λ judged. IsJudgedSwitch dpids.now bytes.now judged.answer judged.verdict) }
{
    let mut source = MemSource::new(bytes.copy()?, List::new(alloc));
    let mut sink = MemSink::new(Bytes::new(alloc), List::new(alloc));
    let mut framer = Framer::new(alloc);
    let opened = open_switch(rt, alloc, dpids, &mut framer, &mut source, &mut sink);
    Ok(Judged {
        verdict: verdict_of(opened)?,
        answer: sink.held,
    })
}

/// What an opening over memory says by its end: one that came to the end of the bytes asks for more, and of a sink in
/// memory only want of memory is a fault.
fn verdict_of<T>(opened: Result<T, OpenEnd>) -> Result<Verdict<T>, Memory>
    ensures { result ≡ verdict_of opened }
{
    match opened {
        Ok(peer) => Ok(Verdict::Open { peer }),
        Err(OpenEnd::Ended) => Ok(Verdict::More),
        Err(OpenEnd::Memory | OpenEnd::WriteFault) => Err(Memory),
        Err(end) => Ok(Verdict::Refused { end }),
    }
}
