//! What a session sends, cut into frames.
ghost use Rattle.std.specs.Prelude.{◌≡◌, ◌<◌, ◌++◌, IfOk, OnOk, length};
ghost use Rattle.replay_report.specs.Streams.{Steps, fresh};

use cv_io::{Bytes, Memory};
use of10_frames::{FrameFault, Framer};
use std::alloc::Global;

/// What a session sent since it came up.
#[derive(Drop)]
pub struct Stream {
    /// What isn't a whole frame yet.
    pub framer: Framer,
    /// A header gave a length that is less than its own: what follows is dropped.
    pub is_short: bool,
}

/// What a stream gives next.
#[derive(Drop)]
pub(crate) enum Next {
    Frame(Bytes),
    /// A header of this length, which is less than its own.
    Short(u16),
    /// Nothing, before more bytes come.
    Nothing,
}

impl Stream {
    /// The stream of a session that comes up.
    pub(crate) fn new(alloc: Global) -> Stream
        ensures { result ≡ fresh }
    {
        Stream {
            framer: Framer::new(alloc),
            is_short: false,
        }
    }
}

/// Takes the next frame out of a framer.
pub(crate) fn next_frame(framer: &mut Framer) -> Result<Next, Memory>
    ensures { IfOk result (λ next. Steps next framer.old framer.new) }
{
    match framer.next() {
        Ok(Some(frame)) => Ok(Next::Frame(frame)),
        Ok(None) => Ok(Next::Nothing),
        Err(FrameFault::Short { length }) => Ok(Next::Short(length)),
        Err(FrameFault::Memory) => Err(Memory),
    }
}
