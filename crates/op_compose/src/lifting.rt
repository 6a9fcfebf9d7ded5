//! The rule that stands alone.
ghost use Rattle.std.specs.Prelude.{◌≡◌, ◌+◌, ◌<◌, ◌^◌, IfOk};
ghost use Rattle.op_compose.specs.Composition.{StandsAlone, alone, alone_level};

use crate::op::{Op, Side};
use alg_priority::{concat, shift};
use cv_io::{Duplicate, Memory, Steps};
use policy_meaning::{Rule, hop_lone, lifted};
use std::sync::ledger::Ledger;

/// The rule that stands alone in its operand's place, where the right operand has `size` levels. It
/// holds the same headers. For a hop it stands at its node, and `size` is that of the nodes of its
/// peers. This is one step.
pub fn lift<G: Ledger>(
    op: Op,
    side: Side,
    a: &Rule,
    size: u64,
    steps: &mut Steps<G>,
) -> Result<Rule, Memory>
    requires alone { StandsAlone op side a.now }
    requires level { alone_level op side a.now.level size < 2 ^ 64 }
    ensures rule { IfOk result (λ rule. rule ≡ alone op side size a.now) }
    ensures step { steps.new ≡ steps.old + 1 }
{
    steps.tick();
    match (op, side) {
        (Op::Seq, Side::Left) => lifted(concat(a.level, 0, size), a),
        (Op::Over, Side::Left) => lifted(shift(a.level, size), a),
        (Op::Hop, Side::Left) => hop_lone(size, a),
        _ => a.copy(),
    }
}
