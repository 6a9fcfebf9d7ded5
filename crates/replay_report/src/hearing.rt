//! What a session sends: each frame of it is a message.
ghost use Rattle.std.specs.Prelude.{◌≡◌, ◌≤◌, ◌+◌, ◌++◌, ◌∷◌, [], IfOk, OnOk, true};
ghost use Rattle.machine_drafts.specs.Machines.{state_of};
ghost use Rattle.replay_report.specs.Playing.{hears, sends, short_line as short_line_of};
ghost use Rattle.replay_report.specs.Cuts.{Left, frames_of, rest_of};

use crate::streams::{Next, Stream, next_frame};
use crate::telling::{Stage, add_line};
use cv_io::{Bytes, Memory, Steps, Text, Who};
use events::Event;
use of10_frames::Framer;
use script_text::{say, say_number};
use std::alloc::Global;
use std::sync::ledger::Ledger;
use std::thread::Threads;

/// Each frame of what a session sent is a message, up to bytes that don't begin with one. The length that they give,
/// where it is less than a header's.
fn send_frames<R: Threads + Sync, G: Ledger>(
    rt: &R,
    stage: &mut Stage,
    who: Who,
    framer: &mut Framer,
    steps: &mut Steps<G>,
) -> Result<Option<u16>, Memory>
    requires compiled { stage.old.machine.compiled ≡ true }
    ensures report { OnOk result (stage.new.report ≡ stage.old.report
        ++ (sends stage.old.machine.plan who (frames_of framer.old) (state_of stage.old.machine)).text) }
    ensures state { OnOk result (state_of stage.new.machine
        ≡ (sends stage.old.machine.plan who (frames_of framer.old) (state_of stage.old.machine)).state) }
    ensures plan { stage.new.machine.plan ≡ stage.old.machine.plan }
    ensures names { stage.new.names ≡ stage.old.names }
    ensures rest { OnOk result (framer.new ≡ rest_of framer.old) }
    ensures left { IfOk result (λ short. Left short (rest_of framer.old)) }
    ensures compiled { OnOk result (stage.new.machine.compiled ≡ true) }
    ensures steps { steps.new ≤ steps.old
        + (sends stage.old.machine.plan who (frames_of framer.old) (state_of stage.old.machine)).steps }
{
    loop {
        match next_frame(framer)? {
            Next::Frame(frame) => {
                let session = stage.present(who);
                stage.happen(rt, &Event::Msg { session, frame }, steps)?;
            }
            Next::Short(length) => return Ok(Some(length)),
            Next::Nothing => return Ok(None),
        }
    }
}

/// Appends the line of a header that gives a length that is less than its own.
fn add_short_line(alloc: Global, report: &mut Bytes, name: &Text, length: u16) -> Result<(), Memory>
    ensures { OnOk result (report.new ≡ report.old ++ short_line_of name.now length) }
{
    let mut line = Text::new(alloc);
    say(&mut line, "short ")?;
    line.push_text(name)?;
    say(&mut line, " ")?;
    say_number(alloc, &mut line, u64::from(length))?;
    add_line(report, line.as_bytes())
}

/// A session sends bytes. Behind a header that gives a length that is less than its own they are dropped.
#[tactic(auto, unfolding(crate::specs::Playing::hears))]
pub(crate) fn hear<R: Threads + Sync, G: Ledger>(
    rt: &R,
    stage: &mut Stage,
    name: &Text,
    who: Who,
    stream: &mut Stream,
    bytes: &[u8],
    steps: &mut Steps<G>,
) -> Result<(), Memory>
    requires compiled { stage.old.machine.compiled ≡ true }
    ensures report { OnOk result (stage.new.report ≡ stage.old.report
        ++ (hears stage.old.machine.plan name.now who bytes.now stream.old (state_of stage.old.machine)).text) }
    ensures state { OnOk result (state_of stage.new.machine
        ≡ (hears stage.old.machine.plan name.now who bytes.now stream.old (state_of stage.old.machine)).state) }
    ensures stream { OnOk result (stream.new
        ≡ (hears stage.old.machine.plan name.now who bytes.now stream.old (state_of stage.old.machine)).stream) }
    ensures plan { stage.new.machine.plan ≡ stage.old.machine.plan }
    ensures names { stage.new.names ≡ stage.old.names }
    ensures compiled { OnOk result (stage.new.machine.compiled ≡ true) }
    ensures steps { steps.new ≤ steps.old
        + (hears stage.old.machine.plan name.now who bytes.now stream.old (state_of stage.old.machine)).steps }
{
    if stream.is_short {
        return Ok(());
    }
    stream.framer.feed(bytes)?;
    let Some(length) = send_frames(rt, stage, who, &mut stream.framer, steps)? else {
        return Ok(());
    };
    stream.is_short = true;
    add_short_line(stage.alloc, &mut stage.report, name, length)?;
    let session = stage.present(who);
    stage.happen(rt, &Event::Gone { session }, steps)
}
