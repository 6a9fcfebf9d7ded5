//! The way of a packet over virtual switches.
ghost use Rattle.std.specs.Prelude.{◌≡◌, IfOk, OnOk};
ghost use Rattle.policy_meaning.specs.Networks.{ground_of};
ghost use Rattle.policy_meaning.specs.Walk.{nowhere as nowhere_of, walk};
ghost use Rattle.packet_map.specs.Acting.{with_more};
ghost use Rattle.packet_map.specs.Networks.{SeeRising, network_of};

use crate::evaluation::evaluate;
use crate::hop::{Hop, coming_by};
use crate::world::World;
use cv_io::{List, Memory};
use of10_actions::Rewrite;
use of10_match::Header;
use policy_meaning::Walked;
use std::alloc::Global;

/// Nothing leaves, and nobody is told.
pub(crate) fn nowhere(alloc: Global) -> Walked
    ensures { result ≡ nowhere_of }
{
    Walked {
        outs: List::new(alloc),
        told: List::new(alloc),
    }
}

/// Appends what a packet gives at a virtual switch and on from there, in so many hops.
pub(crate) fn follow(
    alloc: Global,
    world: &World,
    hops: u32,
    hop: &Hop,
    walked: &mut Walked,
) -> Result<(), Memory>
    requires { SeeRising world.now }
    ensures { OnOk result (walked.new ≡ with_more walked.old hop.now.rewrite
        (walk (ground_of (network_of world.now)) hops hop.now.v hop.now.header)) }
{
    if hops == 0 {
        return Ok(());
    }
    let Some(expr) = world.exprs.get(hop.v as usize) else {
        return Ok(());
    };
    if !world.takes(hop.v, &hop.header) {
        return Ok(());
    }
    let acted = evaluate(alloc, world, expr, hop, walked)?;
    match world.onward(hop.v, &acted.tail, hop.header.in_port) {
        None => Ok(()),
        Some(on) => follow(alloc, world, hops - 1, &hop.onward(&on), walked),
    }
}

/// What the packets of a header give that come to a virtual switch by a port, whatever the header's
/// in_port: outs at outside ports, and tellings with the port of their hop. A virtual switch that isn't
/// there gives nothing.
pub fn tellings(
    alloc: Global,
    world: &World,
    v: u32,
    port: u16,
    h: &Header,
) -> Result<Walked, Memory>
    requires { SeeRising world.now }
    ensures { IfOk result (λ walked. walked ≡ walk (ground_of (network_of world.now)) world.now.hops v
        (record h.now { in_port = port })) }
{
    let mut walked = nowhere(alloc);
    let hop = Hop {
        v,
        header: coming_by(port, h),
        rewrite: Rewrite::new(),
    };
    follow(alloc, world, world.hops, &hop, &mut walked)?;
    Ok(walked)
}
