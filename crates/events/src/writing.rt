//! Events as bytes.
ghost use Rattle.std.specs.Prelude.{◌≡◌, ◌∷◌, ◌++◌, IfOk, OnOk};
ghost use Rattle.byteorder.specs.Endian.{big_bytes};
ghost use Rattle.events.specs.Spelling.{flag as flag_of, session_bytes, spelling, who_bytes};

use crate::event::Event;
use byteorder::{BigEndian, ByteOrder};
use cv_io::{Bytes, Memory, Session, Who};
use std::alloc::Global;

fn put_u32(bytes: &mut Bytes, number: u32) -> Result<(), Memory>
    ensures { OnOk result (bytes.new ≡ bytes.old ++ big_bytes 4 number) }
{
    let mut field = [0; 4];
    BigEndian::write_u32(&mut field, number);
    bytes.extend_from_slice(&field)
}

fn put_u64(bytes: &mut Bytes, number: u64) -> Result<(), Memory>
    ensures { OnOk result (bytes.new ≡ bytes.old ++ big_bytes 8 number) }
{
    let mut field = [0; 8];
    BigEndian::write_u64(&mut field, number);
    bytes.extend_from_slice(&field)
}

fn put_who(bytes: &mut Bytes, who: Who) -> Result<(), Memory>
    ensures { OnOk result (bytes.new ≡ bytes.old ++ who_bytes who) }
{
    let (kind, number) = match who {
        Who::Member(n) => (0, n),
        Who::Switch(n) => (1, n),
        Who::Audit => (2, 0),
    };
    bytes.push(kind)?;
    put_u32(bytes, number)
}

fn put_session(bytes: &mut Bytes, session: &Session) -> Result<(), Memory>
    ensures { OnOk result (bytes.new ≡ bytes.old ++ session_bytes session.now) }
{
    put_who(bytes, session.who)?;
    put_u64(bytes, session.round)
}

/// The bytes of an event: its kind, and its fields.
pub fn write_event(alloc: Global, event: &Event) -> Result<Bytes, Memory>
    ensures { IfOk result (λ bytes. bytes ≡ spelling event.now) }
{
    let mut bytes = Bytes::new(alloc);
    match event {
        Event::Up { who, arp } => {
            bytes.push(1)?;
            put_who(&mut bytes, *who)?;
            bytes.push(u8::from(*arp))?;
        }
        Event::Msg { session, frame } => {
            bytes.push(2)?;
            put_session(&mut bytes, session)?;
            bytes.extend_from_slice(frame.as_slice())?;
        }
        Event::Gone { session } => {
            bytes.push(3)?;
            put_session(&mut bytes, session)?;
        }
        Event::Tick { second } => {
            bytes.push(4)?;
            put_u64(&mut bytes, *second)?;
        }
        Event::Take { session } => {
            bytes.push(5)?;
            put_session(&mut bytes, session)?;
        }
        Event::Policy { v, text } => {
            bytes.push(6)?;
            put_u32(&mut bytes, *v)?;
            bytes.extend_from_slice(text.as_bytes())?;
        }
    }
    Ok(bytes)
}
