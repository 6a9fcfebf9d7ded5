//! What is to be seen of a packet, by its walk.
ghost use Rattle.std.specs.Prelude.{◌≡◌, ◌++◌, IfOk, OnOk, filter_map, option_to_list};
ghost use Rattle.agreement.specs.Seeing.{comes_by as comes_by_of, copy_at as copy_at_of, expected as expected_of};
ghost use Rattle.agreement.specs.Seeing.{left_at as left_at_of};

use cv_io::{List, Memory};
use of10_match::Header;
use policy_meaning::{PortOut, Told, Walked};
use std::alloc::Global;
use switch_meaning::{Copied, Left, Seen, SwitchPort, Wiring};

/// The header of a packet as it comes in at a port.
fn comes_by(port: u16, header: &Header) -> Header
    ensures { result ≡ comes_by_of port header.now }
{
    Header {
        in_port: port,
        ..*header
    }
}

/// The packet that a walk sends out at a port of a virtual switch, where that port lies.
fn left_at(wiring: &Wiring, header: &Header, out: &PortOut) -> Option<Left>
    ensures { result ≡ left_at_of wiring.now header.now out.now }
{
    let o = wiring.outside_at(out.v, out.port)?;
    Some(Left {
        at: o.at,
        header: out.rewrite.apply(header),
    })
}

/// Appends the packet that a walk sends out.
fn add_left(
    left: &mut List<Left>,
    wiring: &Wiring,
    header: &Header,
    out: &PortOut,
) -> Result<(), Memory>
    ensures { OnOk result (left.new ≡ left.old ++ option_to_list (left_at_of wiring.now header.now out.now)) }
{
    left.push_some(left_at(wiring, header, out))
}

/// The packets that a walk sends out, where their ports lie.
fn all_left(
    alloc: Global,
    wiring: &Wiring,
    header: &Header,
    outs: &List<PortOut>,
) -> Result<List<Left>, Memory>
    ensures { IfOk result (λ left. left ≡ filter_map (left_at_of wiring.now header.now) outs.now) }
{
    let mut left = List::new(alloc);
    for out in outs.as_slice() {
        add_left(&mut left, wiring, header, out)?;
    }
    Ok(left)
}

/// One copy of the packet as it came, where somebody is told.
fn copy_at(
    alloc: Global,
    at: SwitchPort,
    header: &Header,
    told: &List<Told>,
) -> Result<List<Copied>, Memory>
    ensures { IfOk result (λ copies. copies ≡ copy_at_of at header.now told.now) }
{
    let mut copies = List::new(alloc);
    if !told.as_slice().is_empty() {
        copies.push(Copied {
            switch: at.switch,
            header: comes_by(at.port, header),
        })?;
    }
    Ok(copies)
}

/// What is to be seen of a packet that comes in at a physical port, of which the walk is this: its
/// outs where their ports lie, in order, and one copy where the walk tells somebody.
pub fn expected(
    alloc: Global,
    wiring: &Wiring,
    at: SwitchPort,
    header: &Header,
    walked: &Walked,
) -> Result<Seen, Memory>
    ensures { IfOk result (λ seen. seen ≡ expected_of wiring.now at header.now walked.now) }
{
    Ok(Seen {
        outs: all_left(alloc, wiring, header, &walked.outs)?,
        copies: copy_at(alloc, at, header, &walked.told)?,
    })
}
