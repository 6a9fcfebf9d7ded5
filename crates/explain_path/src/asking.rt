//! The members that an expression asks.
ghost use Rattle.std.specs.Prelude.{◌≡◌, ◌++◌, true, IfOk, OnOk, map, slice_get};
ghost use Rattle.of10_actions.specs.Ports.{AreRising};
ghost use Rattle.policy_expr.specs.Policy.{policy_of};
ghost use Rattle.policy_meaning.specs.Leaf.{leaf_meaning};
ghost use Rattle.policy_meaning.specs.Networks.{table_meaning};
ghost use Rattle.packet_map.specs.Acting.{acted_of};
ghost use Rattle.packet_map.specs.Answers.{table_of};
ghost use Rattle.packet_map.specs.Networks.{SeeRising, network_of};
ghost use Rattle.explain_path.specs.Traces.{asked as asked_of, asked_member, does, kind_of, unused};

use crate::trace::LeafTrace;
use cv_io::{List, Memory};
use of10_actions::Tail;
use of10_actions::meaning::effects;
use of10_match::Header;
use packet_map::{Acted, Answer, Member, World};
use policy_expr::Expr;
use std::alloc::Global;

/// What of a member's table a header meets, and what is done.
#[derive(Clone, Copy)]
struct Met {
    kind: u64,
    acted: Acted,
}

/// Asks a member.
fn ask_member(alloc: Global, member: &Member, header: &Header) -> Result<Met, Memory>
    requires { AreRising member.now.grant.now.ports }
    ensures kind { IfOk result (λ met. met.kind ≡ kind_of (table_of member.now) header.now) }
    ensures acted { IfOk result (λ met. met.acted ≡ acted_of (leaf_meaning (table_of member.now) header.now)) }
{
    match member.answer(header) {
        Answer::Outside => Ok(Met {
            kind: 0,
            acted: Acted::nothing(),
        }),
        Answer::Miss => Ok(Met {
            kind: 1,
            acted: Acted::nothing(),
        }),
        Answer::Entry(entry) => {
            let effects = effects(alloc, &entry.actions, &member.grant.ports, member.number)?;
            Ok(Met {
                kind: entry.serial + 2,
                acted: Acted {
                    touched: true,
                    tail: effects.tail,
                },
            })
        }
    }
}

/// What of a member's table a header meets; one that isn't there has nothing inside.
fn met_at(alloc: Global, world: &World, index: u32, header: &Header) -> Result<Met, Memory>
    requires { SeeRising world.now }
    ensures leaf { IfOk result (λ met. record { member = index; kind = met.kind; used = true }
        ≡ asked_member index (slice_get (network_of world.now).tables index) header.now) }
    ensures acted { IfOk result
        (λ met. met.acted ≡ acted_of (table_meaning (slice_get (network_of world.now).tables index) header.now)) }
{
    match world.member(index) {
        Some(member) => {
            let met = ask_member(alloc, &member, header)?;
            Ok(met)
        }
        None => Ok(Met {
            kind: 0,
            acted: Acted::nothing(),
        }),
    }
}

/// Appends leaves that aren't used.
fn add_unused(leaves: &mut List<LeafTrace>, more: &List<LeafTrace>) -> Result<(), Memory>
    ensures { OnOk result (leaves.new ≡ leaves.old ++ map unused more.now) }
{
    for leaf in more.as_slice() {
        leaves.push(LeafTrace {
            used: false,
            ..*leaf
        })?;
    }
    Ok(())
}

/// Appends the members that an expression asks of a header. A member that isn't there has nothing inside.
pub(crate) fn ask(
    alloc: Global,
    world: &World,
    expr: &Expr,
    header: &Header,
    leaves: &mut List<LeafTrace>,
) -> Result<Acted, Memory>
    requires { SeeRising world.now }
    ensures acted { IfOk result
        (λ acted. acted ≡ acted_of (does (network_of world.now).tables (policy_of expr.now) header.now)) }
    ensures leaves { OnOk result
        (leaves.new ≡ leaves.old ++ asked_of (network_of world.now).tables (policy_of expr.now) header.now) }
{
    match expr {
        Expr::Member { index } => {
            let met = met_at(alloc, world, *index, header)?;
            leaves.push(LeafTrace {
                member: *index,
                kind: met.kind,
                used: true,
            })?;
            Ok(met.acted)
        }
        Expr::Par { left, right } => {
            let first = ask(alloc, world, left, header, leaves)?;
            let second = ask(alloc, world, right, header, leaves)?;
            Ok(first.and(&second))
        }
        Expr::Seq { left, right } => {
            let first = ask(alloc, world, left, header, leaves)?;
            let rewrite = match &first.tail {
                Tail::Pass(rewrite) => *rewrite,
                _ => return Ok(first),
            };
            let second = ask(alloc, world, right, &rewrite.apply(header), leaves)?;
            Ok(first.passing(&rewrite, &second))
        }
        Expr::Over { left, right } => {
            let mut asked = List::new(alloc);
            let first = ask(alloc, world, left, header, &mut asked)?;
            if first.touched {
                leaves.append(asked)?;
                return Ok(first);
            }
            add_unused(leaves, &asked)?;
            ask(alloc, world, right, header, leaves)
        }
    }
}
