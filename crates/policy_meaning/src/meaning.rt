//! What is done to a packet.
ghost use Rattle.std.specs.Prelude.{◌≡◌, ◌++◌, IfOk, OnOk, map};
ghost use Rattle.policy_meaning.specs.Leaf.{outside as outside_of};
ghost use Rattle.policy_meaning.specs.Meaning.{both_act as both_act_of, first_touched as first_touched_of, out_after};
ghost use Rattle.policy_meaning.specs.Meaning.{passed_on, tail_after as tail_after_of};
ghost use Rattle.of10_actions.specs.declared.effects.Tail.TheVariants.{Pass};

use cv_io::{Duplicate, List, Memory};
use of10_actions::{Out, Rewrite, Tail};
use std::alloc::Global;

/// What a table or an expression does to a packet.
#[derive(PartialEq, Eq, Debug, Drop)]
pub struct Meaning {
    /// Whether it acts on the packet, in the sense of `|>`.
    pub touched: bool,
    pub outs: List<Out>,
    pub tail: Tail,
}

/// Nothing is done.
pub(crate) fn outside(alloc: Global) -> Meaning
    ensures { result ≡ outside_of }
{
    Meaning {
        touched: false,
        outs: List::new(alloc),
        tail: Tail::Nothing,
    }
}

/// Appends outs whose rewrites stand after another.
pub(crate) fn append_after(
    outs: &mut List<Out>,
    rewrite: &Rewrite,
    more: &List<Out>,
) -> Result<(), Memory>
    ensures { OnOk result (outs.new ≡ outs.old ++ map (out_after rewrite.now) more.now) }
{
    for out in more.as_slice() {
        outs.push(Out {
            rewrite: rewrite.then(&out.rewrite),
            dest: out.dest,
        })?;
    }
    Ok(())
}

/// A tail whose rewrite stands after another.
pub(crate) fn tail_after(rewrite: &Rewrite, tail: &Tail) -> Tail
    ensures { result ≡ tail_after_of rewrite.now tail.now }
{
    match tail {
        Tail::Nothing => Tail::Nothing,
        Tail::Pass(next) => Tail::Pass(rewrite.then(next)),
        Tail::Link(next, port) => Tail::Link(rewrite.then(next), *port),
    }
}

/// What is done where both act.
pub(crate) fn both_act(left: Meaning, right: &Meaning) -> Result<Meaning, Memory>
    ensures { IfOk result (λ meaning. meaning ≡ both_act_of left right.now) }
{
    let Meaning {
        touched,
        mut outs,
        ..
    } = left;
    outs.append(right.outs.copy()?)?;
    Ok(Meaning {
        touched: touched | right.touched,
        outs,
        tail: right.tail.copy()?,
    })
}

/// What is done where the left passes a packet on with this rewrite.
pub(crate) fn passes_on(
    left: Meaning,
    rewrite: &Rewrite,
    right: &Meaning,
) -> Result<Meaning, Memory>
    ensures { IfOk result (λ meaning. meaning ≡ passed_on (Pass rewrite.now) left (λ r. right.now)) }
{
    let Meaning {
        touched,
        mut outs,
        ..
    } = left;
    append_after(&mut outs, rewrite, &right.outs)?;
    Ok(Meaning {
        touched,
        outs,
        tail: tail_after(rewrite, &right.tail),
    })
}

/// What is done where the left acts if it is touched, else the right.
pub(crate) fn first_touched(left: Meaning, right: Meaning) -> Meaning
    ensures { result ≡ first_touched_of left right }
{
    if left.touched { left } else { right }
}
