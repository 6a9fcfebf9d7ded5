//! The events that bytes spell.
ghost use Rattle.std.specs.Prelude.{◌≡◌, ◌≤◌, Err, IfOk, None, Some, length};
ghost use Rattle.std.specs.List.{list_all};
ghost use Rattle.events.specs.Reading.{flag_of, frame_at, is_ascii, lone_session_at, policy_at};
ghost use Rattle.events.specs.Reading.{reading, tick_at, up_at};
ghost use Rattle.events.specs.Reading.{session_at as session_at_of, who_at as who_at_of};
ghost use Rattle.events.specs.Gives.{Gives};

use crate::event::Event;
use cv_io::{Bytes, Memory, Session, Text, Who};
use of10_actions::number::{u32_at, u64_at};
use std::alloc::Global;
use thiserror::Error;

/// How many members and switches a policy has at most.
const MEMBERS: u32 = 32;

const SWITCHES: u32 = 16;

/// How long a frame and the text of an expression are at most.
const FRAME: usize = 65_535;

const TEXT: usize = 1_024;

/// Why no event was read.
#[derive(Clone, Copy, PartialEq, Eq, Debug, Error)]
pub enum EventFault {
    /// The bytes spell no event.
    #[error("no event")]
    Bad,
    #[error("out of memory")]
    Memory,
}

impl From<Memory> for EventFault {
    ghost use Rattle.std.specs.Prelude.{◌≡◌};
    ghost use Rattle.events.specs.declared.reading.EventFault.TheVariants as faults;

    ghost from_gives = { λ _ fault. fault ≡ faults.Memory };

    fn from(_wanted: Memory) -> EventFault {
        EventFault::Memory
    }
}

/// Who is named at the front.
fn who_at(rest: &[u8]) -> Option<Who>
    requires { 5 ≤ length rest.now }
    ensures { result ≡ who_at_of rest.now }
{
    let number = u32_at(rest, 1);
    match rest[0] {
        0 if number < MEMBERS => Some(Who::Member(number)),
        1 if number < SWITCHES => Some(Who::Switch(number)),
        2 if number == 0 => Some(Who::Audit),
        _ => None,
    }
}

/// The session that is named at the front.
fn session_at(rest: &[u8]) -> Option<Session>
    requires { 13 ≤ length rest.now }
    ensures { result ≡ session_at_of rest.now }
{
    let who = who_at(rest)?;
    Some(Session {
        who,
        round: u64_at(rest, 5),
    })
}

fn flag_of_byte(byte: u8) -> Option<bool>
    ensures { result ≡ flag_of byte }
{
    match byte {
        0 => Some(false),
        1 => Some(true),
        _ => None,
    }
}

fn read_up(rest: &[u8]) -> Option<Event>
    ensures { result ≡ up_at rest.now }
{
    if rest.len() != 6 {
        return None;
    }
    let who = who_at(rest)?;
    let arp = flag_of_byte(rest[5])?;
    Some(Event::Up { who, arp })
}

fn read_frame(alloc: Global, rest: &[u8]) -> Result<Event, EventFault>
    ensures { Gives result (frame_at rest.now) }
{
    if rest.len() < 13 || rest.len() > 13 + FRAME {
        return Err(EventFault::Bad);
    }
    let Some(session) = session_at(rest) else {
        return Err(EventFault::Bad);
    };
    Ok(Event::Msg {
        session,
        frame: Bytes::from_slice(alloc, &rest[13..])?,
    })
}

fn read_session(rest: &[u8]) -> Option<Session>
    ensures { result ≡ lone_session_at rest.now }
{
    if rest.len() == 13 {
        session_at(rest)
    } else {
        None
    }
}

fn read_tick(rest: &[u8]) -> Option<Event>
    ensures { result ≡ tick_at rest.now }
{
    if rest.len() == 8 {
        Some(Event::Tick {
            second: u64_at(rest, 0),
        })
    } else {
        None
    }
}

/// All bytes are of ASCII.
fn are_ascii(text: &[u8]) -> bool
    ensures { result ≡ list_all is_ascii text.now }
{
    text.iter().all(|byte| *byte < 128)
}

fn read_policy(alloc: Global, rest: &[u8]) -> Result<Event, EventFault>
    ensures { Gives result (policy_at rest.now) }
{
    if rest.len() < 4 || rest.len() > 4 + TEXT {
        return Err(EventFault::Bad);
    }
    let v = u32_at(rest, 0);
    let (_, text) = rest.split_at(4);
    if !are_ascii(text) {
        return Err(EventFault::Bad);
    }
    Ok(Event::Policy {
        v,
        text: Text::from_slice(alloc, text)?,
    })
}

/// The event, or that there is none.
fn or_bad(event: Option<Event>) -> Result<Event, EventFault>
    ensures { Gives result event }
{
    match event {
        Some(event) => Ok(event),
        None => Err(EventFault::Bad),
    }
}

/// The event whose bytes these are.
pub fn read_event(alloc: Global, bytes: &[u8]) -> Result<Event, EventFault>
    ensures { Gives result (reading bytes.now) }
{
    let [kind, rest @ ..] = bytes else {
        return Err(EventFault::Bad);
    };
    match kind {
        1 => or_bad(read_up(rest)),
        2 => read_frame(alloc, rest),
        3 => or_bad(match read_session(rest) {
            Some(session) => Some(Event::Gone { session }),
            None => None,
        }),
        4 => or_bad(read_tick(rest)),
        5 => or_bad(match read_session(rest) {
            Some(session) => Some(Event::Take { session }),
            None => None,
        }),
        6 => read_policy(alloc, rest),
        _ => Err(EventFault::Bad),
    }
}
