//! What members are told of packets, and where packets leave.
ghost use Rattle.std.specs.Prelude.{◌≡◌, ◌<◌, ◌+◌, ◌^◌, ◌++◌, IfOk, OnOk, filter_map, length, map};
ghost use Rattle.event_acts.specs.InsidePackets.{leaving_over};
ghost use Rattle.machine_meaning.specs.Packets.{leaving as leaving_of, telling as telling_of, walk_in as walk_in_of};

use agreement::Setting;
use cv_io::{List, Memory};
use machine_drafts::setup::Setup;
use machine_meaning::{Letter, Sent};
use member_replies::packet_in;
use of10_match::Header;
use pkt_bytes::rewrite;
use policy_meaning::{PortOut, Told, Walked, walk};
use std::alloc::Global;
use virtual_topology::Topology;

/// The walk of a packet of a header that comes to a virtual switch.
pub fn walk_in(alloc: Global, setting: &Setting, v: u32, header: &Header) -> Result<Walked, Memory>
    ensures { IfOk result (λ walked. walked ≡ walk_in_of setting.now v header.now) }
{
    walk(alloc, &setting.network, setting.hops, v, header)
}

/// The PACKET_IN of a telling, about a packet of so many bytes of which these are there.
fn telling(alloc: Global, total_len: u16, bytes: &[u8], told: &Told) -> Result<Letter, Memory>
    requires { 18 + length bytes.now < 2 ^ 16 }
    ensures { IfOk result (λ letter. letter ≡ telling_of total_len bytes.now told.now) }
{
    let bytes = rewrite(alloc, bytes, &told.rewrite)?;
    Ok(Letter {
        to: told.member,
        bytes: packet_in(alloc, total_len, told.in_port, told.reason, bytes)?,
    })
}

/// Members are told of a packet.
fn tell_all(
    alloc: Global,
    letters: &mut List<Letter>,
    total_len: u16,
    bytes: &[u8],
    told: &[Told],
) -> Result<(), Memory>
    requires { 18 + length bytes.now < 2 ^ 16 }
    ensures { OnOk result (letters.new ≡ letters.old ++ map (telling_of total_len bytes.now) told.now) }
{
    for one in told {
        letters.push(telling(alloc, total_len, bytes, one)?)?;
    }
    Ok(())
}

/// A packet that leaves, at the physical port that its port is.
fn leaving(
    alloc: Global,
    topology: &Topology,
    bytes: &[u8],
    out: &PortOut,
) -> Result<Option<Sent>, Memory>
    ensures { IfOk result (λ sent. sent ≡ leaving_over topology.now bytes.now out.now) }
{
    let Some((switch, port)) = topology.outside(out.v, out.port) else {
        return Ok(None);
    };
    let bytes = rewrite(alloc, bytes, &out.rewrite)?;
    Ok(Some(Sent {
        switch,
        port,
        bytes,
    }))
}

/// Packets leave at switches.
fn leave_all(
    alloc: Global,
    sent: &mut List<Sent>,
    topology: &Topology,
    bytes: &[u8],
    outs: &[PortOut],
) -> Result<(), Memory>
    ensures { OnOk result (sent.new ≡ sent.old ++ filter_map (leaving_over topology.now bytes.now) outs.now) }
{
    for out in outs {
        sent.push_some(leaving(alloc, topology, bytes, out)?)?;
    }
    Ok(())
}

/// Members are told of a packet, as its walk says.
pub fn tell_walked(
    alloc: Global,
    letters: &mut List<Letter>,
    total_len: u16,
    bytes: &[u8],
    walked: &Walked,
) -> Result<(), Memory>
    requires { 18 + length bytes.now < 2 ^ 16 }
    ensures { OnOk result (letters.new ≡ letters.old ++ map (telling_of total_len bytes.now) walked.now.told) }
{
    tell_all(alloc, letters, total_len, bytes, walked.told.as_slice())
}

/// Packets leave at switches, as the walk of a packet says.
pub fn leave_walked(
    setup: &Setup,
    sent: &mut List<Sent>,
    bytes: &[u8],
    walked: &Walked,
) -> Result<(), Memory>
    ensures { OnOk result (sent.new ≡ sent.old ++ filter_map (leaving_of setup.now bytes.now) walked.now.outs) }
{
    let outs = walked.outs.as_slice();
    leave_all(setup.alloc(), sent, setup.topology(), bytes, outs)
}
