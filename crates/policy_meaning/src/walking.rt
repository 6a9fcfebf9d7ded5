//! The way of a packet over virtual switches.
ghost use Rattle.std.specs.Prelude.{◌≡◌, ◌++◌, IfOk, OnOk, filter_map, map};
ghost use Rattle.policy_meaning.specs.Networks.{ground_of};
ghost use Rattle.policy_meaning.specs.Walk.{arriving as arriving_of, both_walked as both_walked_of, here as here_of};
ghost use Rattle.policy_meaning.specs.Walk.{nowhere as nowhere_of, port_out as port_out_of, takes as takes_of};
ghost use Rattle.policy_meaning.specs.Walk.{telling as telling_of, walk as walk_of, walked_after as walked_after_of};
ghost use Rattle.of10_actions.specs.Rewriting.{and_then};

use crate::evaluation::evaluate;
use crate::network::{Network, Onward, leads};
use cv_io::{List, Memory};
use of10_actions::{Dest, Out, Rewrite};
use of10_match::{Header, UNTAGGED};
use std::alloc::Global;

/// A packet that leaves at a port of a virtual switch, with the rewrite in force.
#[derive(Clone, Copy, PartialEq, Eq, Debug)]
pub struct PortOut {
    pub v: u32,
    pub port: u16,
    pub rewrite: Rewrite,
}

/// What a member is told: the port by which the packet came to its virtual switch, the reason, and
/// the rewrite in force.
#[derive(Clone, Copy, PartialEq, Eq, Debug)]
pub struct Told {
    pub member: u32,
    pub in_port: u16,
    pub reason: u8,
    pub rewrite: Rewrite,
}

/// What a packet gives on its way.
#[derive(PartialEq, Eq, Debug, Drop)]
pub struct Walked {
    pub outs: List<PortOut>,
    pub told: List<Told>,
}

fn leaving(v: u32, port: u16, rewrite: &Rewrite) -> PortOut
    ensures { result ≡ record { v = v; port = port; rewrite = rewrite.now } }
{
    PortOut {
        v,
        port,
        rewrite: *rewrite,
    }
}

/// The packet that leaves by an out, where it came in by a port: not by that port, unless to the
/// ingress.
fn port_out(v: u32, in_port: u16, out: &Out) -> Option<PortOut>
    ensures { result ≡ port_out_of v in_port out.now.rewrite out.now.dest }
{
    match out.dest {
        Dest::Port { v: at, port } | Dest::Flood { v: at, port } => {
            if at == v && port == in_port {
                None
            } else {
                Some(leaving(at, port, &out.rewrite))
            }
        }
        Dest::Ingress => Some(leaving(v, in_port, &out.rewrite)),
        Dest::Tell { .. } => None,
    }
}

/// What a member is told by an out, where the packet came in by a port.
fn telling(in_port: u16, out: &Out) -> Option<Told>
    ensures { result ≡ telling_of in_port out.now.rewrite out.now.dest }
{
    match out.dest {
        Dest::Tell { member, reason } => Some(Told {
            member,
            in_port,
            reason,
            rewrite: out.rewrite,
        }),
        _ => None,
    }
}

/// Nothing leaves, and nobody is told.
fn nowhere(alloc: Global) -> Walked
    ensures { result ≡ nowhere_of }
{
    Walked {
        outs: List::new(alloc),
        told: List::new(alloc),
    }
}

/// The packets that leave by outs of a virtual switch, where the packet came in by a port.
fn outs_here(alloc: Global, v: u32, in_port: u16, outs: &List<Out>) -> Result<List<PortOut>, Memory>
    ensures { IfOk result (λ left. left ≡ filter_map (λ (out : Out). port_out_of v in_port out.rewrite out.dest)
        outs.now) }
{
    let mut left = List::new(alloc);
    for out in outs.as_slice() {
        left.push_some(port_out(v, in_port, out))?;
    }
    Ok(left)
}

/// What members are told by outs of a virtual switch, where the packet came in by a port.
fn told_here(alloc: Global, in_port: u16, outs: &List<Out>) -> Result<List<Told>, Memory>
    ensures { IfOk result (λ told. told ≡ filter_map (λ (out : Out). telling_of in_port out.rewrite out.dest)
        outs.now) }
{
    let mut told = List::new(alloc);
    for out in outs.as_slice() {
        told.push_some(telling(in_port, out))?;
    }
    Ok(told)
}

/// What the outs of a virtual switch give, where the packet came in by a port.
fn here(alloc: Global, v: u32, in_port: u16, outs: &List<Out>) -> Result<Walked, Memory>
    ensures { IfOk result (λ walked. walked ≡ here_of v in_port outs.now) }
{
    Ok(Walked {
        outs: outs_here(alloc, v, in_port, outs)?,
        told: told_here(alloc, in_port, outs)?,
    })
}

/// Appends the packets that leave of a walk that stands after a rewrite.
fn append_outs(
    outs: &mut List<PortOut>,
    rewrite: &Rewrite,
    more: &List<PortOut>,
) -> Result<(), Memory>
    ensures { OnOk result
        (outs.new ≡ outs.old ++ map (λ (out : PortOut). record out { rewrite = and_then rewrite.now out.rewrite })
        more.now) }
{
    for out in more.as_slice() {
        outs.push(PortOut {
            v: out.v,
            port: out.port,
            rewrite: rewrite.then(&out.rewrite),
        })?;
    }
    Ok(())
}

/// Appends what members are told on a walk that stands after a rewrite.
fn append_told(told: &mut List<Told>, rewrite: &Rewrite, more: &List<Told>) -> Result<(), Memory>
    ensures { OnOk result
        (told.new ≡ told.old ++ map (λ (one : Told). record one { rewrite = and_then rewrite.now one.rewrite })
        more.now) }
{
    for one in more.as_slice() {
        told.push(Told {
            member: one.member,
            in_port: one.in_port,
            reason: one.reason,
            rewrite: rewrite.then(&one.rewrite),
        })?;
    }
    Ok(())
}

/// One walk, and then another that stands after a rewrite.
fn both_walked(first: Walked, rewrite: &Rewrite, second: &Walked) -> Result<Walked, Memory>
    ensures { IfOk result (λ both. both ≡ both_walked_of first (walked_after_of rewrite.now second.now)) }
{
    let Walked { mut outs, mut told } = first;
    append_outs(&mut outs, rewrite, &second.outs)?;
    append_told(&mut told, rewrite, &second.told)?;
    Ok(Walked { outs, told })
}

/// A virtual switch takes the packet: one that is spread drops packets that have a tag.
fn takes(spread: bool, header: &Header) -> bool
    ensures { result ≡ takes_of spread header.now }
{
    !(spread && header.dl_vlan != UNTAGGED)
}

/// The header that comes to a place over a link, after a rewrite.
fn arriving(on: &Onward, header: &Header) -> Header
    ensures { result ≡ arriving_of on.now.rewrite on.now.place.port header.now }
{
    Header {
        in_port: on.place.port,
        ..on.rewrite.apply(header)
    }
}

/// What the packets of a header give that come to a virtual switch, in so many hops: outs at outside
/// ports, and tellings with the port of their hop. A virtual switch that isn't there gives nothing.
pub fn walk(
    alloc: Global,
    network: &Network,
    hops: u32,
    v: u32,
    header: &Header,
) -> Result<Walked, Memory>
    ensures { IfOk result (λ walked. walked ≡ walk_of (ground_of network.now) hops v header.now) }
{
    if hops == 0 {
        return Ok(nowhere(alloc));
    }
    let Some(switch) = network.switches.get(v as usize) else {
        return Ok(nowhere(alloc));
    };
    if !takes(switch.spread, header) {
        return Ok(nowhere(alloc));
    }
    let meaning = evaluate(alloc, &network.tables, &switch.expr, header)?;
    let walked = here(alloc, v, header.in_port, &meaning.outs)?;
    match leads(&meaning.tail, &switch.links, header.in_port) {
        None => Ok(walked),
        Some(on) => {
            let next = walk(alloc, network, hops - 1, on.place.v, &arriving(&on, header))?;
            both_walked(walked, &on.rewrite, &next)
        }
    }
}
