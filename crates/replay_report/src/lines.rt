//! What a line of a script does.
ghost use Rattle.std.specs.Prelude.{◌≡◌, ◌≤◌, ◌<◌, ◌+◌, ◌++◌, IfOk, OnOk, length, true};
ghost use Rattle.machine_drafts.specs.Machines.{state_of};
ghost use Rattle.replay_report.specs.Playing.{comes_up as comes_up_of, goes, line_does, sent as sent_of};
ghost use Rattle.replay_report.specs.Playing.{tells_arp as tells_arp_of};
ghost use Rattle.replay_report.specs.Takings.{does};
ghost use Rattle.events.specs.declared.event.Event.TheVariants as Event;
ghost use Rattle.replay_report.specs.Plays.{HasPlayed, Plays, stand_in};
ghost use Rattle.replay_report.specs.Reports.{or_unknown, steps_in};

use crate::hearing::hear;
use crate::sessions::{Found, find};
use crate::streams::Stream;
use crate::telling::Stage;
use cv_io::{Bytes, Duplicate, List, Memory, Steps, Text, Who};
use events::Event;
use script_text::Line;
use std::sync::ledger::Ledger;
use std::thread::Threads;

/// A switch tells whether it matches ARP addresses, of a member nothing is told.
fn tells_arp(who: Who, noarp: bool) -> bool
    ensures { result ≡ tells_arp_of who noarp }
{
    match who {
        Who::Switch(_) => !noarp,
        _ => false,
    }
}

/// A session comes up, with an empty stream.
fn come_up<R: Threads + Sync, G: Ledger>(
    rt: &R,
    stage: &mut Stage,
    streams: &mut List<Stream>,
    found: Found,
    noarp: bool,
    steps: &mut Steps<G>,
) -> Result<(), Memory>
    requires within { found.at < length streams.old }
    requires compiled { stage.old.machine.compiled ≡ true }
    ensures played { OnOk result (HasPlayed (comes_up_of stage.old.machine.plan noarp
        (stand_in stage.old streams.old) found)
        stage.old stage.new streams.new) }
    ensures plan { stage.new.machine.plan ≡ stage.old.machine.plan }
    ensures names { stage.new.names ≡ stage.old.names }
    ensures paired { length streams.new ≡ length streams.old }
    ensures compiled { OnOk result (stage.new.machine.compiled ≡ true) }
    ensures steps { steps.new ≤ steps.old
        + (comes_up_of stage.old.machine.plan noarp (stand_in stage.old streams.old) found).steps }
{
    streams.set(found.at, Stream::new(stage.alloc));
    let arp = tells_arp(found.who, noarp);
    stage.happen(
        rt,
        &Event::Up {
            who: found.who,
            arp,
        },
        steps,
    )
}

/// A session sends bytes.
fn send<R: Threads + Sync, G: Ledger>(
    rt: &R,
    stage: &mut Stage,
    streams: &mut [Stream],
    name: &Text,
    found: Found,
    bytes: &Bytes,
    steps: &mut Steps<G>,
) -> Result<(), Memory>
    requires within { found.at < length streams.old }
    requires compiled { stage.old.machine.compiled ≡ true }
    ensures played { OnOk result (HasPlayed (sent_of stage.old.machine.plan name.now bytes.now
        (stand_in stage.old streams.old) found)
        stage.old stage.new streams.new) }
    ensures plan { stage.new.machine.plan ≡ stage.old.machine.plan }
    ensures names { stage.new.names ≡ stage.old.names }
    ensures compiled { OnOk result (stage.new.machine.compiled ≡ true) }
    ensures steps { steps.new ≤ steps.old
        + (sent_of stage.old.machine.plan name.now bytes.now (stand_in stage.old streams.old) found).steps }
{
    hear(
        rt,
        stage,
        name,
        found.who,
        &mut streams[found.at],
        bytes.as_slice(),
        steps,
    )
}

/// A session goes.
fn leave<R: Threads + Sync, G: Ledger>(
    rt: &R,
    stage: &mut Stage,
    found: Found,
    steps: &mut Steps<G>,
) -> Result<(), Memory>
    requires compiled { stage.old.machine.compiled ≡ true }
    ensures report { OnOk result (stage.new.report
        ≡ stage.old.report ++ (goes stage.old.machine.plan found.who (state_of stage.old.machine)).text) }
    ensures state { OnOk result (state_of stage.new.machine
        ≡ (goes stage.old.machine.plan found.who (state_of stage.old.machine)).state) }
    ensures plan { stage.new.machine.plan ≡ stage.old.machine.plan }
    ensures names { stage.new.names ≡ stage.old.names }
    ensures compiled { OnOk result (stage.new.machine.compiled ≡ true) }
    ensures steps { steps.new
        ≤ steps.old + (goes stage.old.machine.plan found.who (state_of stage.old.machine)).steps }
{
    let session = stage.present(found.who);
    stage.happen(rt, &Event::Gone { session }, steps)
}

/// A virtual switch gets another expression.
fn replace<R: Threads + Sync, G: Ledger>(
    rt: &R,
    stage: &mut Stage,
    v: u32,
    text: &Text,
    steps: &mut Steps<G>,
) -> Result<(), Memory>
    requires compiled { stage.old.machine.compiled ≡ true }
    ensures report { OnOk result (stage.new.report
        ≡ stage.old.report ++ (does stage.old.machine.plan (Event.Policy v text.now)
        (state_of stage.old.machine)).text) }
    ensures state { OnOk result (state_of stage.new.machine
        ≡ (does stage.old.machine.plan (Event.Policy v text.now) (state_of stage.old.machine)).state) }
    ensures plan { stage.new.machine.plan ≡ stage.old.machine.plan }
    ensures names { stage.new.names ≡ stage.old.names }
    ensures compiled { OnOk result (stage.new.machine.compiled ≡ true) }
    ensures steps { steps.new ≤ steps.old
        + (does stage.old.machine.plan (Event.Policy v text.now) (state_of stage.old.machine)).steps }
{
    stage.happen(
        rt,
        &Event::Policy {
            v,
            text: text.copy()?,
        },
        steps,
    )
}

/// Does a line; false where it names something that the policy hasn't.
pub(crate) fn play<R: Threads + Sync, G: Ledger>(
    rt: &R,
    stage: &mut Stage,
    streams: &mut List<Stream>,
    line: &Line,
    steps: &mut Steps<G>,
) -> Result<bool, Memory>
    requires paired { length streams.old ≡ length stage.old.names }
    requires compiled { stage.old.machine.compiled ≡ true }
    ensures plays { IfOk result (λ known. Plays known (line_does stage.old.machine.plan line.now
        (stand_in stage.old streams.old))
        stage.old stage.new streams.old streams.new) }
    ensures plan { stage.new.machine.plan ≡ stage.old.machine.plan }
    ensures names { stage.new.names ≡ stage.old.names }
    ensures paired { length streams.new ≡ length streams.old }
    ensures compiled { OnOk result (stage.new.machine.compiled ≡ true) }
    ensures steps { steps.new ≤ steps.old
        + steps_in (or_unknown (line_does stage.old.machine.plan line.now (stand_in stage.old streams.old))) }
{
    match line {
        Line::Blank => {}
        Line::Up { name, noarp } => {
            let Some(found) = find(stage.names.as_slice(), name) else {
                return Ok(false);
            };
            come_up(rt, stage, streams, found, *noarp, steps)?;
        }
        Line::From { name, bytes } => {
            let Some(found) = find(stage.names.as_slice(), name) else {
                return Ok(false);
            };
            send(rt, stage, streams.as_mut_slice(), name, found, bytes, steps)?;
        }
        Line::Gone { name } => {
            let Some(found) = find(stage.names.as_slice(), name) else {
                return Ok(false);
            };
            leave(rt, stage, found, steps)?;
        }
        Line::Tick { second } => stage.happen(rt, &Event::Tick { second: *second }, steps)?,
        Line::Expr { name, text } => {
            let Some(v) = stage.virtual_named(name) else {
                return Ok(false);
            };
            replace(rt, stage, v, text, steps)?;
        }
        Line::Ask {
            switch,
            port,
            bytes,
        } => return stage.explain(switch, *port, bytes.as_slice()),
        Line::Packet { .. } => return Ok(false),
    }
    Ok(true)
}
