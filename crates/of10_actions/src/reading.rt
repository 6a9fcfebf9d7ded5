//! From bytes to actions.
ghost use Rattle.std.specs.Prelude.{◌≡◌, ◌<◌, ◌≤◌, ◌^◌, IfOk, length, nat_lt};
ghost use Rattle.of10_actions.specs.Actions.{AreInRange};
ghost use Rattle.of10_actions.specs.Kinds.{length_of};
ghost use Rattle.of10_actions.specs.Reading.{Gives, action_at, action_of, reading, of_kind, unless};
ghost use Rattle.of10_actions.specs.Spelling.{SpellsList};

use crate::action::Action;
use crate::fault::ActionFault;
use crate::kind::{Kind, VENDOR};
use crate::number::{u16_at, u32_at, u48_at};
use byteorder::{BigEndian, ByteOrder};
use cv_io::List;
use std::alloc::Global;

/// The list of actions that the bytes spell, all of the bytes, or the first fault. The low two bits of
/// a tos are cleared, and padding isn't looked at.
pub fn read_list(alloc: Global, bytes: &[u8]) -> Result<List<Action>, ActionFault>
    requires { length bytes.now < 2 ^ 32 }
    ensures reading { Gives result (reading bytes.now) }
    ensures found { IfOk result (λ list. SpellsList list bytes.now × AreInRange list) }
{
    let mut list = List::with_capacity(alloc, bytes.len() / 8)?;
    let mut at = 0;
    while at < bytes.len() {
        let action = read_action(&bytes[at..], at as u32)?;
        list.push(action)?;
        at += usize::from(action.kind().length());
    }
    Ok(list)
}

/// The action at the front of bytes that begin at a place.
#[tactic(auto, unfolding(crate::specs::Reading::action_at))]
fn read_action(bytes: &[u8], at: u32) -> Result<Action, ActionFault>
    ensures { result ≡ action_at at bytes.now }
{
    if bytes.len() < 4 {
        return Err(ActionFault::BadLen { at });
    }
    let number = BigEndian::read_u16(bytes);
    if number == VENDOR {
        return Err(ActionFault::BadVendor { at });
    }
    match Kind::from_number(number) {
        None => Err(ActionFault::BadType { at }),
        Some(kind) => read_kind(kind, bytes, at),
    }
}

/// The action of a type at the front of bytes that begin at a place.
fn read_kind(kind: Kind, bytes: &[u8], at: u32) -> Result<Action, ActionFault>
    requires { 4 ≤ length bytes.now }
    ensures { result ≡ of_kind at (Some kind) bytes.now }
{
    let length = kind.length();
    if BigEndian::read_u16(&bytes[2..]) != length || bytes.len() < usize::from(length) {
        return Err(ActionFault::BadLen { at });
    }
    arguments(kind, bytes).ok_or(ActionFault::BadArgument { at })
}

/// The action of a type whose bytes are there, or none where an argument is out of its range.
fn arguments(kind: Kind, bytes: &[u8]) -> Option<Action>
    requires { length_of kind ≤ length bytes.now }
    ensures { result ≡ action_of kind bytes.now }
{
    let action = match kind {
        Kind::Output => Action::Output {
            port: u16_at(bytes, 4),
            max_len: u16_at(bytes, 6),
        },
        Kind::SetVlanVid => return vlan_vid(u16_at(bytes, 4)),
        Kind::SetVlanPcp => return vlan_pcp(bytes[4]),
        Kind::StripVlan => Action::StripVlan,
        Kind::SetDlSrc => Action::SetDlSrc {
            address: u48_at(bytes, 4),
        },
        Kind::SetDlDst => Action::SetDlDst {
            address: u48_at(bytes, 4),
        },
        Kind::SetNwSrc => Action::SetNwSrc {
            address: u32_at(bytes, 4),
        },
        Kind::SetNwDst => Action::SetNwDst {
            address: u32_at(bytes, 4),
        },
        Kind::SetNwTos => Action::SetNwTos {
            tos: bytes[4] - bytes[4] % 4,
        },
        Kind::SetTpSrc => Action::SetTpSrc {
            port: u16_at(bytes, 4),
        },
        Kind::SetTpDst => Action::SetTpDst {
            port: u16_at(bytes, 4),
        },
        Kind::Enqueue => Action::Enqueue {
            port: u16_at(bytes, 4),
            queue: u32_at(bytes, 12),
        },
    };
    Some(action)
}

fn vlan_vid(vid: u16) -> Option<Action>
    ensures { result ≡ unless (nat_lt 4095 vid) (Action.SetVlanVid vid) }
{
    if vid > 4095 {
        None
    } else {
        Some(Action::SetVlanVid { vid })
    }
}

fn vlan_pcp(pcp: u8) -> Option<Action>
    ensures { result ≡ unless (nat_lt 7 pcp) (Action.SetVlanPcp pcp) }
{
    if pcp > 7 {
        None
    } else {
        Some(Action::SetVlanPcp { pcp })
    }
}
