//! What there is to say of a packet.
ghost use Rattle.std.specs.Prelude.{◌≡◌, ◌++◌, IfOk, OnOk, filter_map, flat_map, map, option_map, option_to_list};
ghost use Rattle.std.specs.Option.{option_copied};
ghost use Rattle.packet_map.specs.Networks.{SeeRising, network_of};
ghost use Rattle.explain_text.specs.Answers.{explained};
ghost use Rattle.explain_text.specs.Findings.{of_entry, of_hop, of_out, of_switch, of_told};
ghost use Rattle.explain_text.specs.Using.{used_for};

use crate::entrance::Entrance;
use crate::finding::Finding;
use crate::using::used_for;
use cv_io::{List, Memory};
use explain_path::{HopTrace, Trace, World, explain};
use install_plan::Written;
use of10_match::Header;
use packet_map::{PortOut, Told};
use pkt_bytes::header_of;
use std::alloc::Global;
use virtual_topology::Topology;

/// Appends an evaluation, and the members that it asks.
fn add_hop(answer: &mut List<Finding>, hop: &HopTrace) -> Result<(), Memory>
    ensures { OnOk result (answer.new ≡ answer.old ++ of_hop hop.now) }
{
    answer.push(Finding::Hop {
        v: hop.v,
        port: hop.port,
    })?;
    for leaf in hop.leaves.as_slice() {
        answer.push(Finding::Leaf { leaf: *leaf })?;
    }
    Ok(())
}

/// Appends the evaluations.
fn add_hops(answer: &mut List<Finding>, hops: &[HopTrace]) -> Result<(), Memory>
    ensures { OnOk result (answer.new ≡ answer.old ++ flat_map of_hop hops.now) }
{
    for hop in hops {
        add_hop(answer, hop)?;
    }
    Ok(())
}

/// A packet that leaves, by the physical port that its port is.
fn leaving(topology: &Topology, out: &PortOut) -> Option<Finding>
    ensures { result ≡ of_out topology.now out.now }
{
    let (switch, port) = topology.outside(out.v, out.port)?;
    Some(Finding::Out {
        switch,
        port,
        rewrite: out.rewrite,
    })
}

/// Appends what leaves.
fn add_outs(answer: &mut List<Finding>, topology: &Topology, outs: &[PortOut]) -> Result<(), Memory>
    ensures { OnOk result (answer.new ≡ answer.old ++ filter_map (of_out topology.now) outs.now) }
{
    for out in outs {
        answer.push_some(leaving(topology, out))?;
    }
    Ok(())
}

/// Appends who is told.
fn add_told(answer: &mut List<Finding>, told: &[Told]) -> Result<(), Memory>
    ensures { OnOk result (answer.new ≡ answer.old ++ map of_told told.now) }
{
    for one in told {
        answer.push(Finding::Tell {
            member: one.member,
            reason: one.reason,
        })?;
    }
    Ok(())
}

/// What is said of the entry that a switch uses, if it uses one.
fn of_used(switch: u32, used: Option<&Written>) -> Option<Finding>
    ensures { option_to_list result ≡ of_entry switch (option_copied used.entry) }
{
    let written = used?;
    Some(Finding::Entry {
        switch,
        cookie: written.cookie,
        priority: written.entry.priority,
    })
}

/// What is said of the switch where a packet comes in, on which these entries stand; it is down where there
/// are none to speak of.
fn of_standing(switch: u32, standing: Option<&[Written]>, header: &Header) -> Option<Finding>
    ensures { option_to_list result ≡ of_switch switch
        (option_map (used_for header.now) (option_map (λ entries. entries.now) standing.entry)) }
{
    match standing {
        None => Some(Finding::Down { switch }),
        Some(entries) => of_used(switch, used_for(entries, header)),
    }
}

/// Why a packet goes where it goes that comes in at a switch on which these entries stand, which is down
/// where there are none to speak of. What is said of it stands in the order of the report.
pub fn answer(
    alloc: Global,
    world: &World,
    standing: Option<&[Written]>,
    at: &Entrance,
    bytes: &[u8],
) -> Result<List<Finding>, Memory>
    requires { SeeRising world.now }
    ensures { IfOk result (λ said. said ≡ explained world.now.topology.now (network_of world.now) world.now.hops
        (option_map (λ entries. entries.now) standing.entry) at.now bytes.now) }
{
    let header = header_of(bytes, at.by);
    let Trace { hops, walked } = explain(alloc, world, at.v, at.by, &header)?;
    let mut said = List::new(alloc);
    add_hops(&mut said, hops.as_slice())?;
    add_outs(&mut said, world.topology, walked.outs.as_slice())?;
    add_told(&mut said, walked.told.as_slice())?;
    let entry = of_standing(at.switch, standing, &header_of(bytes, at.port));
    said.push_some(entry)?;
    Ok(said)
}
