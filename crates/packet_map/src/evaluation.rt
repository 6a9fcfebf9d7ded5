//! What an expression does to a packet, by the members' present tables.
ghost use Rattle.std.specs.Prelude.{◌≡◌, true, IfOk, OnOk};
ghost use Rattle.of10_actions.specs.Actions.{AreInRange};
ghost use Rattle.of10_actions.specs.Ports.{AreRising};
ghost use Rattle.policy_expr.specs.Policy.{policy_of};
ghost use Rattle.policy_meaning.specs.Leaf.{leaf_meaning, miss_outs};
ghost use Rattle.packet_map.specs.Acting.{acted_of, entry_effects, with_outs};
ghost use Rattle.packet_map.specs.Answers.{table_of};
ghost use Rattle.packet_map.specs.Networks.{SeeRising, meant};

use crate::acted::Acted;
use crate::answer::{Answer, Member};
use crate::emitting::{Gate, add_outs};
use crate::hop::Hop;
use crate::world::World;
use cv_io::Memory;
use member_table::Entry;
use of10_actions::meaning::effects;
use of10_actions::{NO_MATCH, Tail};
use policy_expr::Expr;
use policy_meaning::{Told, Walked};
use std::alloc::Global;

/// Appends what an entry of a member gives.
fn act(
    alloc: Global,
    member: &Member,
    entry: &Entry,
    hop: &Hop,
    walked: &mut Walked,
) -> Result<Acted, Memory>
    requires in_range { AreInRange entry.now.actions }
    requires rising { AreRising member.now.grant.now.ports }
    ensures acted { IfOk result
        (λ acted. acted ≡ record { touched = true; tail = (entry_effects member.now entry.now).tail }) }
    ensures walked { OnOk result (walked.new ≡ with_outs walked.old hop.now (entry_effects member.now entry.now).outs) }
{
    let effects = effects(alloc, &entry.actions, &member.grant.ports, member.number)?;
    let gate = Gate {
        v: hop.v,
        in_port: hop.header.in_port,
        ingress: Some(hop.header.in_port),
    };
    add_outs(walked, &gate, &hop.rewrite, &effects.outs)?;
    Ok(Acted {
        touched: true,
        tail: effects.tail,
    })
}

/// Tells a member, where its grant has misses, that no entry holds the packet.
fn miss(member: &Member, hop: &Hop, walked: &mut Walked) -> Result<(), Memory>
    ensures { OnOk result (walked.new ≡ with_outs walked.old hop.now (miss_outs (table_of member.now))) }
{
    if member.grant.misses {
        walked.told.push(Told {
            member: member.number,
            in_port: hop.header.in_port,
            reason: NO_MATCH,
            rewrite: hop.rewrite,
        })?;
    }
    Ok(())
}

/// Appends what a member's table gives.
fn ask(alloc: Global, member: &Member, hop: &Hop, walked: &mut Walked) -> Result<Acted, Memory>
    requires { AreRising member.now.grant.now.ports }
    ensures acted { IfOk result (λ acted. acted ≡ acted_of (leaf_meaning (table_of member.now) hop.now.header)) }
    ensures walked { OnOk result
        (walked.new ≡ with_outs walked.old hop.now (leaf_meaning (table_of member.now) hop.now.header).outs) }
{
    match member.answer(&hop.header) {
        Answer::Outside => Ok(Acted::nothing()),
        Answer::Miss => {
            miss(member, hop, walked)?;
            Ok(Acted::nothing())
        }
        Answer::Entry(entry) => act(alloc, member, entry, hop, walked),
    }
}

/// Appends what an expression gives. A member that isn't there gives nothing.
pub(crate) fn evaluate(
    alloc: Global,
    world: &World,
    expr: &Expr,
    hop: &Hop,
    walked: &mut Walked,
) -> Result<Acted, Memory>
    requires { SeeRising world.now }
    ensures acted { IfOk result (λ acted. acted ≡ acted_of (meant world.now (policy_of expr.now) hop.now.header)) }
    ensures walked { OnOk result
        (walked.new ≡ with_outs walked.old hop.now (meant world.now (policy_of expr.now) hop.now.header).outs) }
{
    match expr {
        Expr::Member { index } => match world.member(*index) {
            Some(member) => ask(alloc, &member, hop, walked),
            None => Ok(Acted::nothing()),
        },
        Expr::Par { left, right } => {
            let first = evaluate(alloc, world, left, hop, walked)?;
            let second = evaluate(alloc, world, right, hop, walked)?;
            Ok(first.and(&second))
        }
        Expr::Seq { left, right } => {
            let first = evaluate(alloc, world, left, hop, walked)?;
            let rewrite = match &first.tail {
                Tail::Pass(rewrite) => *rewrite,
                _ => return Ok(first),
            };
            let next = hop.rewritten(&rewrite);
            let second = evaluate(alloc, world, right, &next, walked)?;
            Ok(first.passing(&rewrite, &second))
        }
        Expr::Over { left, right } => {
            let outs = walked.outs.len();
            let told = walked.told.len();
            let first = evaluate(alloc, world, left, hop, walked)?;
            if first.touched {
                return Ok(first);
            }
            walked.outs.truncate(outs);
            walked.told.truncate(told);
            evaluate(alloc, world, right, hop, walked)
        }
    }
}
