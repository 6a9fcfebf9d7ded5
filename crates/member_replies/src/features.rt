//! What a virtual switch can do, as a member may use it.
ghost use Rattle.std.specs.Prelude.{◌≡◌, ◌≤◌, All, IfOk, map, if◌then◌else◌};
ghost use Rattle.of10_msgs.specs.Ranges.{HasAddress};
ghost use Rattle.member_replies.specs.Ports.{visible as visible_of};
ghost use Rattle.member_replies.specs.Switches.{actions_of as actions_granted, may as may_do};
ghost use Rattle.member_replies.specs.Switches.{may_output as may_output_of, shown as shown_of};

use crate::ports::{is_one_of, port_of, visible};
use cv_io::{List, Memory};
use grants::{Grant, Kind};
use of10_msgs::PhyPort;
use std::alloc::Global;

/// Whether a kind of action is granted.
fn may(g: &Grant, kind: Kind) -> bool
    ensures { result ≡ may_do g.now kind }
{
    (g.actions >> kind.bit()) & 1 == 1
}

/// Whether a kind of output is granted.
fn may_output(g: &Grant) -> bool
    ensures { result ≡ may_output_of g.now }
{
    may(g, Kind::Output) || may(g, Kind::Controller) || may(g, Kind::Pass) || may(g, Kind::Link)
}

/// A bit, where it is granted.
fn bit_if(granted: bool, bit: u32) -> u32
    requires { bit ≤ 1024 }
    ensures bit { result ≡ (if granted then bit else 0) }
    ensures small { result ≤ 1024 }
{
    if granted { bit } else { 0 }
}

/// The actions of a grant, each by its type on the wire (`ofp_action_type`).
pub(crate) fn actions_of(g: &Grant) -> u32
    ensures { result ≡ actions_granted g.now }
{
    bit_if(may_output(g), 1)
        + (bit_if(may(g, Kind::SetDlSrc), 1 << 4)
            + (bit_if(may(g, Kind::SetDlDst), 1 << 5)
                + (bit_if(may(g, Kind::SetNwSrc), 1 << 6)
                    + (bit_if(may(g, Kind::SetNwDst), 1 << 7)
                        + (bit_if(may(g, Kind::SetNwTos), 1 << 8)
                            + (bit_if(may(g, Kind::SetTpSrc), 1 << 9)
                                + bit_if(may(g, Kind::SetTpDst), 1 << 10)))))))
}

/// The visible ports of the virtual switch of a number, of which these are dark.
pub(crate) fn shown_ports(
    alloc: Global,
    g: &Grant,
    v: u16,
    dark: &[u16],
) -> Result<List<PhyPort>, Memory>
    ensures ports { IfOk result (λ ports. ports ≡ map (shown_of g.now v dark.now) (visible_of g.now.ports)) }
    ensures addresses { IfOk result (All HasAddress) }
{
    let numbers = visible(alloc, &g.ports)?;
    let mut ports = List::with_capacity(alloc, numbers.len())?;
    for number in numbers.as_slice() {
        ports.push(shown(alloc, g, v, dark, *number)?)?;
    }
    Ok(ports)
}

/// One of them.
fn shown(alloc: Global, g: &Grant, v: u16, dark: &[u16], port: u16) -> Result<PhyPort, Memory>
    ensures port { IfOk result (λ made. made ≡ shown_of g.now v dark.now port) }
    ensures address { IfOk result HasAddress }
{
    let is_link = is_one_of(g.ports.links.as_slice(), port);
    port_of(alloc, v, port, is_link, is_one_of(dark, port))
}
