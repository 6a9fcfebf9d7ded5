//! The rule of a pair.
ghost use Rattle.std.specs.Prelude.{◌≡◌, ◌+◌, ◌<◌, ◌^◌, IfOk, IfSome, IsSome, ◌↔◌};
ghost use Rattle.of10_match.specs.Normal.{IsNormal};
ghost use Rattle.op_compose.specs.Composition.{Joins, joined, joined_level};
ghost use Rattle.op_compose.specs.Pairs.{HoldsBoth, SomeIsInBoth};

use crate::op::Op;
use cv_io::{Memory, Steps};
use of10_actions::Tail;
use policy_meaning::{Rule, chain_rule, hop_rule, sum_rule};
use std::sync::ledger::Ledger;

/// The rule of a pair.
fn pair(op: Op, a: &Rule, b: &Rule, size: u64) -> Result<Option<Rule>, Memory>
    requires { joined_level op a.now.level b.now.level size < 2 ^ 64 }
    ensures { IfOk result (λ rule. rule ≡ joined op size a.now b.now) }
{
    match (op, &a.tail) {
        (Op::Par, _) => sum_rule(a, b),
        (Op::Seq, Tail::Pass(rewrite)) => chain_rule(size, rewrite, a, b),
        (Op::Hop, Tail::Link(rewrite, _)) => hop_rule(size, rewrite, a, b),
        _ => Ok(None),
    }
}

/// The rule of a pair, of which the right one's operand has `size` levels, or none where no header is
/// in it. For a hop the left one stands at its node, and `size` is that of the nodes of its peers.
/// This is one step.
pub fn join<G: Ledger>(
    op: Op,
    a: &Rule,
    b: &Rule,
    size: u64,
    steps: &mut Steps<G>,
) -> Result<Option<Rule>, Memory>
    requires joins { Joins op a.now.tail }
    requires level { joined_level op a.now.level b.now.level size < 2 ^ 64 }
    ensures rule { IfOk result (λ rule. rule ≡ joined op size a.now b.now) }
    ensures none { IsNormal b.now.m → IfOk result (λ rule. IsSome rule ↔ SomeIsInBoth op a.now b.now) }
    ensures holds { IsNormal b.now.m → IfOk result (λ rule. IfSome rule (HoldsBoth op a.now b.now)) }
    ensures normal { IsNormal a.now.m → IsNormal b.now.m → IfOk result (λ rule. IfSome rule (λ r. IsNormal r.m)) }
    ensures step { steps.new ≡ steps.old + 1 }
{
    steps.tick();
    pair(op, a, b, size)
}
