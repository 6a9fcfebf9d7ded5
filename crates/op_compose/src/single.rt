//! The rule of one leaf.
ghost use Rattle.std.specs.Prelude.{◌≡◌, [], ◌∷◌, IfOk};
ghost use Rattle.op_compose.specs.Composition.{leaf_rule};

use cv_io::{Leaf, List, Memory};
use of10_actions::Effects;
use of10_match::Match;
use policy_meaning::Rule;
use std::alloc::Global;

/// The rule of a leaf: of a member's entry, of its miss, or of what is outside of its grant.
pub fn leaf(
    alloc: Global,
    m: Match,
    level: u64,
    touched: bool,
    effects: Effects,
    leaf: Leaf,
) -> Result<Rule, Memory>
    ensures { IfOk result (λ rule. rule ≡ leaf_rule m level touched effects leaf) }
{
    let mut ancestry = List::with_capacity(alloc, 1)?;
    ancestry.push(leaf)?;
    let Effects { outs, tail } = effects;
    Ok(Rule {
        m,
        level,
        touched,
        outs,
        tail,
        ancestry,
    })
}
