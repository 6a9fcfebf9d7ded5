//! Packets come from switches, and go from members.
ghost use Rattle.std.specs.Prelude.{◌≡◌, ◌==◌, ◌+◌, ◌<◌, ◌^◌, false, IfOk, OnOk, Some, length};
ghost use Rattle.of10_actions.specs.Actions.{AreInRange};
ghost use Rattle.of10_actions.specs.Ports.{AreRising};
ghost use Rattle.of10_msgs.specs.Ranges.{CanWrite};
ghost use Rattle.pkt_bytes.specs.Headers.{header_in};
ghost use Rattle.machine_drafts.specs.Outcomes.{bases, draft_in, state_in};
ghost use Rattle.machine_meaning.specs.Settings.{setting_of};
ghost use Rattle.machine_meaning.specs.Packets.{comes_by as comes_by_of, packet_comes as packet_comes_of};
ghost use Rattle.machine_meaning.specs.Packets.{packet_goes as packet_goes_of, sent_in as sent_in_of};
ghost use Rattle.machine_meaning.specs.Packets.{walk_in as walk_in_of};

use crate::giving::sent_in;
use crate::packet_parts::{leave_walked, tell_walked, walk_in};
use agreement::Setting;
use cv_io::Memory;
use machine_drafts::outcome::Outcome;
use machine_drafts::settings::setting;
use machine_drafts::setup::Setup;
use of10_actions::PortView;
use of10_msgs::{Body, PacketOut};
use pkt_bytes::header_of;
use policy_meaning::Walked;

/// The setting of the state as the event leaves it so far.
fn setting_in(setup: &Setup, draft: &Outcome<'_>) -> Result<Setting, Memory>
    ensures { IfOk result (λ s. s ≡ setting_of setup.now (state_in draft.now)) }
{
    setting(
        setup,
        &draft.exprs,
        draft.members.as_slice(),
        draft.switches.as_slice(),
    )
}

/// The walk of a packet that comes by an outside port of a virtual switch.
fn entered(
    setup: &Setup,
    draft: &Outcome<'_>,
    spot: (u32, u16),
    bytes: &[u8],
) -> Result<Walked, Memory>
    ensures { IfOk result (λ walked. walked
        ≡ walk_in_of (setting_of setup.now (state_in draft.now)) spot.0 (header_in spot.1 bytes.now)) }
{
    let setting = setting_in(setup, draft)?;
    let header = header_of(bytes, spot.1);
    walk_in(setup.alloc(), &setting, spot.0, &header)
}

/// A packet of so many bytes, of which these are there, came by an outside port of a virtual switch.
fn comes_by(
    setup: &Setup,
    draft: &mut Outcome<'_>,
    spot: (u32, u16),
    total_len: u16,
    bytes: &[u8],
) -> Result<(), Memory>
    requires { 18 + length bytes.now < 2 ^ 16 }
    ensures drafted { OnOk result (draft_in draft.new
        ≡ comes_by_of setup.now total_len bytes.now (Some spot) (draft_in draft.old)) }
    ensures bases { OnOk result (bases draft.new ≡ bases draft.old) }
{
    let walked = entered(setup, draft, spot, bytes)?;
    tell_walked(setup.alloc(), &mut draft.told, total_len, bytes, &walked)
}

/// A PACKET_IN of the switch of a number: a packet of so many bytes came by a port, of which these are there. Where
/// that is an outside port its walk says who is told; else it is ignored.
pub fn packet_comes(
    setup: &Setup,
    draft: &mut Outcome<'_>,
    n: u32,
    total_len: u16,
    in_port: u16,
    bytes: &[u8],
) -> Result<(), Memory>
    requires { 18 + length bytes.now < 2 ^ 16 }
    ensures drafted { OnOk result (draft_in draft.new
        ≡ packet_comes_of setup.now n total_len in_port bytes.now (draft_in draft.old)) }
    ensures bases { OnOk result (bases draft.new ≡ bases draft.old) }
{
    match setup.topology().entering(n, in_port) {
        Some(spot) => comes_by(setup, draft, spot, total_len, bytes),
        None => Ok(()),
    }
}

/// What a PACKET_OUT of the member of a number gives, which sees these ports.
fn given(
    setup: &Setup,
    draft: &Outcome<'_>,
    n: u32,
    view: &PortView,
    m: &PacketOut,
) -> Result<Walked, Memory>
    requires rising { AreRising view.now }
    requires in_range { AreInRange m.now.actions }
    ensures { IfOk result (λ walked. walked ≡ sent_in_of (setting_of setup.now (state_in draft.now)) n view.now m.now
        (header_in m.now.in_port m.now.bytes)) }
{
    let setting = setting_in(setup, draft)?;
    let header = header_of(m.bytes.as_slice(), m.in_port);
    sent_in(setup.alloc(), &setting, n, view, m, &header)
}

/// How long the data of a PACKET_OUT is that has an action.
fn data_length(m: &PacketOut) -> u16
    requires read { CanWrite (Body.PacketOut m.now) }
    requires some { (length m.now.actions == 0) ≡ false }
    ensures length { result ≡ length m.now.bytes }
    ensures short { length m.now.bytes < 65512 }
{
    m.bytes.len() as u16
}

/// A PACKET_OUT that has an action.
fn packet_leaves(
    setup: &Setup,
    draft: &mut Outcome<'_>,
    n: u32,
    view: &PortView,
    m: &PacketOut,
) -> Result<(), Memory>
    requires rising { AreRising view.now }
    requires read { CanWrite (Body.PacketOut m.now) }
    requires some { (length m.now.actions == 0) ≡ false }
    ensures drafted { OnOk result (draft_in draft.new
        ≡ packet_goes_of setup.now n view.now m.now (draft_in draft.old)) }
    ensures bases { OnOk result (bases draft.new ≡ bases draft.old) }
{
    let walked = given(setup, draft, n, view, m)?;
    let total_len = data_length(m);
    let bytes = m.bytes.as_slice();
    tell_walked(setup.alloc(), &mut draft.told, total_len, bytes, &walked)?;
    leave_walked(setup, &mut draft.sent, bytes, &walked)
}

/// A PACKET_OUT of the member of a number, which sees these ports. Without actions the packet is dropped.
pub fn packet_goes(
    setup: &Setup,
    draft: &mut Outcome<'_>,
    n: u32,
    view: &PortView,
    m: &PacketOut,
) -> Result<(), Memory>
    requires rising { AreRising view.now }
    requires read { CanWrite (Body.PacketOut m.now) }
    ensures drafted { OnOk result (draft_in draft.new
        ≡ packet_goes_of setup.now n view.now m.now (draft_in draft.old)) }
    ensures bases { OnOk result (bases draft.new ≡ bases draft.old) }
{
    if m.actions.is_empty() {
        return Ok(());
    }
    packet_leaves(setup, draft, n, view, m)
}
