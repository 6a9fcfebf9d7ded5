//! From actions to bytes.
ghost use Rattle.std.specs.Prelude.{◌≡◌, ◌-◌, ◌<◌, ◌^◌, ◌++◌, All, IfOk, OnErr, OnOk, length, min, replicate};
ghost use Rattle.std.specs.Prelude.{slice_set, take};
ghost use Rattle.of10_actions.specs.Actions.{AreInRange, FitsTypes, IsInRange};
ghost use Rattle.of10_actions.specs.Kinds.{length_of, type_of};
ghost use Rattle.of10_actions.specs.Reading.{reading};
ghost use Rattle.of10_actions.specs.Spelling.{arguments, padding, spelling, spellings};

use crate::action::Action;
use byteorder::{BigEndian, ByteOrder};
use cv_io::{Bytes, List, Memory};
use std::alloc::Global;

/// The bytes of an action of the longest type.
const LONGEST: usize = 16;

/// The bytes of a list of actions, with zero padding.
pub fn write_list(alloc: Global, list: &List<Action>) -> Result<Bytes, Memory>
    requires { AreInRange list.now }
    ensures written { IfOk result (λ bytes. bytes ≡ spellings list.now) }
    ensures reads_back { IfOk result (λ bytes. reading bytes ≡ Ok list.now) }
{
    let mut bytes = List::with_capacity(alloc, list.len().saturating_mul(LONGEST))?;
    write_actions(list, &mut bytes)?;
    Ok(bytes)
}

/// Appends the bytes of a list of actions, with zero padding.
pub fn write_actions(list: &List<Action>, into: &mut Bytes) -> Result<(), Memory>
    requires { AreInRange list.now }
    ensures written { OnOk result (into.new ≡ into.old ++ spellings list.now) }
    // True of every list of the type; the laws of the grammar ask for it.
    ensures types { OnOk result (All FitsTypes list.now) }
    ensures memory { OnErr result (into.new ≡ into.old) }
{
    let before = into.len();
    for action in list.as_slice() {
        if let Err(wanted) = write_action(action, into) {
            into.truncate(before);
            return Err(wanted);
        }
    }
    Ok(())
}

/// How many bytes a list of actions is written as, at most the greatest usize.
pub fn list_length(list: &List<Action>) -> usize
    ensures { result ≡ min (length (spellings list.now)) (2 ^ 64 - 1) }
{
    let mut total: usize = 0;
    for action in list.as_slice() {
        total = total.saturating_add(usize::from(action.kind().length()));
    }
    total
}

/// Appends the bytes of an action.
fn write_action(action: &Action, into: &mut Bytes) -> Result<(), Memory>
    requires { IsInRange action.now }
    ensures written { OnOk result (into.new ≡ into.old ++ spelling action.now) }
    ensures types { FitsTypes action.now }
    ensures memory { OnErr result (into.new ≡ into.old) }
{
    let kind = action.kind();
    let mut bytes = [0; LONGEST];
    BigEndian::write_u16(&mut bytes, kind.number());
    BigEndian::write_u16(&mut bytes[2..], kind.length());
    write_arguments(action, &mut bytes[4..]);
    into.extend_from_slice(&bytes[..usize::from(kind.length())])
}

/// Puts the arguments of an action into zeros.
fn write_arguments(action: &Action, bytes: &mut [u8])
    requires zeros { bytes.old ≡ replicate 12 0 }
    requires in_range { IsInRange action.now }
    ensures written { take (length_of (type_of action.now) - 4) bytes.new
        ≡ arguments action.now 0 (replicate (padding action.now) 0) }
    ensures types { FitsTypes action.now }
{
    match *action {
        Action::Output { port, max_len } => {
            BigEndian::write_u16(bytes, port);
            BigEndian::write_u16(&mut bytes[2..], max_len);
        }
        Action::SetVlanVid { vid } => BigEndian::write_u16(bytes, vid),
        Action::SetVlanPcp { pcp } => put_u8(bytes, pcp),
        Action::StripVlan => {}
        Action::SetDlSrc { address } | Action::SetDlDst { address } => {
            BigEndian::write_u48(bytes, address)
        }
        Action::SetNwSrc { address } | Action::SetNwDst { address } => {
            BigEndian::write_u32(bytes, address)
        }
        Action::SetNwTos { tos } => put_u8(bytes, tos),
        Action::SetTpSrc { port } | Action::SetTpDst { port } => BigEndian::write_u16(bytes, port),
        Action::Enqueue { port, queue } => {
            BigEndian::write_u16(bytes, port);
            BigEndian::write_u32(&mut bytes[8..], queue);
        }
    }
}

fn put_u8(bytes: &mut [u8], value: u8)
    requires { 0 < length bytes.old }
    ensures { bytes.new ≡ slice_set bytes.old 0 value }
{
    bytes[0] = value;
}
