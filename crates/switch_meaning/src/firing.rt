//! What a switch makes of a packet with the actions of an entry.
ghost use Rattle.std.specs.Prelude.{◌≡◌, IfOk, OnOk};
ghost use Rattle.of10_actions.specs.Actions.{AreInRange, IsInRange};
ghost use Rattle.switch_meaning.specs.Firing.{fire as fire_of, both_fired, output as output_of, sent_by, set_in};

use crate::fired::{Fired, Sent};
use cv_io::{List, Memory};
use of10_actions::Action;
use of10_actions::port::{CONTROLLER, IN_PORT};
use of10_match::{Header, UNTAGGED};
use std::alloc::Global;

/// What a list of actions makes of a packet.
pub fn fire(alloc: Global, actions: &List<Action>, header: &Header) -> Result<Fired, Memory>
    requires { AreInRange actions.now }
    ensures { IfOk result (λ fired. fired ≡ fire_of actions.now header.now) }
{
    let mut fired = Fired {
        outs: List::new(alloc),
        copies: List::new(alloc),
    };
    let mut header = *header;
    for action in actions.as_slice() {
        send(&mut fired, action, &header)?;
        header = set_field(action, &header);
    }
    Ok(fired)
}

/// Appends what an action sends.
fn send(fired: &mut Fired, action: &Action, header: &Header) -> Result<(), Memory>
    ensures { OnOk result (fired.new ≡ both_fired fired.old (sent_by action.now header.now)) }
{
    match *action {
        Action::Output { port, .. } => output(fired, port, header),
        Action::Enqueue { port, .. } => output(fired, port, header),
        _ => Ok(()),
    }
}

/// Appends a packet that goes out at a port, or its copy to the controller.
fn output(fired: &mut Fired, port: u16, header: &Header) -> Result<(), Memory>
    ensures { OnOk result (fired.new ≡ both_fired fired.old (output_of port header.now)) }
{
    if port == CONTROLLER {
        fired.copies.push(*header)
    } else if port == IN_PORT {
        fired.outs.push(Sent {
            port: header.in_port,
            header: *header,
        })
    } else if port == header.in_port {
        Ok(())
    } else {
        fired.outs.push(Sent {
            port,
            header: *header,
        })
    }
}

/// The header after an action on its fields.
fn set_field(action: &Action, header: &Header) -> Header
    requires { IsInRange action.now }
    ensures { result ≡ set_in action.now header.now }
{
    match *action {
        Action::SetVlanVid { vid } => Header {
            dl_vlan: vid,
            ..*header
        },
        Action::SetVlanPcp { pcp } => Header {
            dl_vlan_pcp: pcp,
            ..*header
        },
        Action::StripVlan => Header {
            dl_vlan: UNTAGGED,
            ..*header
        },
        _ => action.rewrite().apply(header),
    }
}
