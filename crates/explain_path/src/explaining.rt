//! The evaluations of a walk.
ghost use Rattle.std.specs.Prelude.{◌≡◌, ◌++◌, IfOk, OnOk};
ghost use Rattle.policy_expr.specs.Policy.{policy_of};
ghost use Rattle.policy_meaning.specs.Networks.{ground_of};
ghost use Rattle.policy_meaning.specs.Walk.{walk};
ghost use Rattle.packet_map.specs.Networks.{SeeRising, network_of};
ghost use Rattle.explain_path.specs.Traces.{does, hop_trace, trace as trace_of};

use crate::asking::ask;
use crate::trace::{HopTrace, Trace};
use cv_io::{List, Memory};
use of10_actions::Tail;
use of10_match::Header;
use packet_map::{World, arriving, coming_by, tellings};
use policy_expr::Expr;
use std::alloc::Global;

/// One evaluation, and the tail of what is done.
#[derive(Drop)]
struct Evaluated {
    trace: HopTrace,
    tail: Tail,
}

/// Evaluates the expression of a virtual switch.
fn evaluate(
    alloc: Global,
    world: &World,
    expr: &Expr,
    v: u32,
    header: &Header,
) -> Result<Evaluated, Memory>
    requires { SeeRising world.now }
    ensures trace { IfOk result
        (λ e. e.trace ≡ hop_trace (network_of world.now).tables (policy_of expr.now) v header.now) }
    ensures tail { IfOk result
        (λ e. e.tail ≡ (does (network_of world.now).tables (policy_of expr.now) header.now).tail) }
{
    let mut leaves = List::new(alloc);
    let acted = ask(alloc, world, expr, header, &mut leaves)?;
    Ok(Evaluated {
        trace: HopTrace {
            v,
            port: header.in_port,
            leaves,
        },
        tail: acted.tail,
    })
}

/// Appends the evaluations of a packet at a virtual switch and on from there, in so many hops.
fn follow(
    alloc: Global,
    world: &World,
    hops: u32,
    v: u32,
    header: &Header,
    traces: &mut List<HopTrace>,
) -> Result<(), Memory>
    requires { SeeRising world.now }
    ensures { OnOk result (traces.new ≡ traces.old ++ trace_of (network_of world.now) hops v header.now) }
{
    if hops == 0 {
        return Ok(());
    }
    let Some(expr) = world.exprs.get(v as usize) else {
        return Ok(());
    };
    if !world.takes(v, header) {
        return Ok(());
    }
    let Evaluated { trace, tail } = evaluate(alloc, world, expr, v, header)?;
    traces.push(trace)?;
    match world.onward(v, &tail, header.in_port) {
        None => Ok(()),
        Some(on) => {
            let next = arriving(&on, header);
            follow(alloc, world, hops - 1, on.place.v, &next, traces)
        }
    }
}

/// Why packets of a header go where they go that come to a virtual switch by a port, whatever the header's
/// in_port: the evaluations of the walk, and what it gives.
pub fn explain(alloc: Global, world: &World, v: u32, port: u16, h: &Header) -> Result<Trace, Memory>
    requires { SeeRising world.now }
    ensures hops { IfOk result
        (λ t. t.hops ≡ trace_of (network_of world.now) world.now.hops v (record h.now { in_port = port })) }
    ensures walked { IfOk result
        (λ t. t.walked ≡ walk (ground_of (network_of world.now)) world.now.hops v (record h.now { in_port = port })) }
{
    let mut hops = List::new(alloc);
    follow(alloc, world, world.hops, v, &coming_by(port, h), &mut hops)?;
    Ok(Trace {
        hops,
        walked: tellings(alloc, world, v, port, h)?,
    })
}
