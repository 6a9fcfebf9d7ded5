//! What rules that come to an operand make with those of the other that they could meet.
ghost use Rattle.std.specs.Prelude.{◌+◌, ◌<◌, ◌≤◌, ◌^◌, ◌++◌, ◌∷◌, [], All, IfOk, OnOk, IsPermutation, count_by};
ghost use Rattle.std.specs.Prelude.{filter_map};
ghost use Rattle.list_change.specs.Pairing.{by_left, by_right};
ghost use Rattle.op_compose.specs.Composition.{alone_level, joined_level};
ghost use Rattle.op_compose.specs.declared.op.Side.TheVariants.{Left, Right};
ghost use Rattle.rule_ancestry.specs.Holding.{Held};
ghost use Rattle.policy_meaning.specs.declared.rule.Rule.{Rule};
ghost use Rattle.made_rules.specs.Rules.{rules_in};
ghost use Rattle.incr_compile.specs.Candidates.{asked as asked_of, could_meet, left_cost, reach as reach_of};
ghost use Rattle.incr_compile.specs.Candidates.{right_cost, shown};
ghost use Rattle.incr_compile.specs.Sound.{AreSound, IsSound};
ghost use Rattle.incr_compile.specs.Ways.{held_way};

use crate::candidates::{asked, candidates, reach};
use crate::joining::{add_by_left, add_by_right};
use cv_io::{Memory, Steps};
use made_rules::{Made, Old};
use match_index::Index;
use op_compose::Op;
use rule_ancestry::Store;
use std::alloc::Global;
use std::sync::ledger::Ledger;

/// Appends what a rule makes that comes to the left.
fn add_left<G: Ledger>(
    alloc: Global,
    op: Op,
    size: u64,
    a: &Old,
    index: &Index,
    right: &Store<Made>,
    fresh: &mut Vec<Made>,
    steps: &mut Steps<G>,
) -> Result<(), Memory>
    requires sound { IsSound a.now.item }
    requires sound_rights { AreSound (rules_in right.now) }
    requires shown { IsPermutation index.now.items (filter_map (shown (asked_of op)) (rules_in right.now)) }
    requires alone { alone_level op Left a.now.item.level size < 2 ^ 64 }
    requires level { All (λ (b : Held Rule). joined_level op a.now.item.level b.item.level size < 2 ^ 64)
        (rules_in right.now) }
    ensures made { OnOk result
        (IsPermutation fresh.new.items
        (fresh.old.items ++ by_left (held_way op size) (a.now ∷ []) (rules_in right.now))) }
    ensures steps { steps.new ≤ steps.old +
        (1 + count_by (λ (b : Held Rule). could_meet op a.now.item b.item) (rules_in right.now)) }
{
    let rights = candidates(alloc, index, reach(op, a.rule), right)?;
    add_by_left(alloc, op, size, a, &rights, fresh, steps)
}

/// What rules make that come to the left. A rule is joined with those that it could meet and no others.
pub fn made_by_left<G: Ledger>(
    alloc: Global,
    op: Op,
    size: u64,
    come: &[Old],
    index: &Index,
    right: &Store<Made>,
    steps: &mut Steps<G>,
) -> Result<Vec<Made>, Memory>
    requires sound { All (λ (a : Held Rule). IsSound a.item) come.now }
    requires sound_rights { AreSound (rules_in right.now) }
    requires shown { IsPermutation index.now.items (filter_map (shown (asked_of op)) (rules_in right.now)) }
    requires alone { All (λ (a : Held Rule). alone_level op Left a.item.level size < 2 ^ 64) come.now }
    requires level { All
        (λ (a : Held Rule). All (λ (b : Held Rule). joined_level op a.item.level b.item.level size < 2 ^ 64)
        (rules_in right.now)) come.now }
    ensures made { IfOk result
        (λ fresh. IsPermutation fresh.items (by_left (held_way op size) come.now (rules_in right.now))) }
    ensures steps { steps.new ≤ steps.old + left_cost op (rules_in right.now) come.now }
{
    let mut fresh = Vec::new(alloc);
    for a in come {
        add_left(alloc, op, size, a, index, right, &mut fresh, steps)?;
    }
    Ok(fresh)
}

/// Appends what a rule makes that comes to the right.
fn add_right<G: Ledger>(
    alloc: Global,
    op: Op,
    size: u64,
    b: &Old,
    index: &Index,
    left: &Store<Made>,
    fresh: &mut Vec<Made>,
    steps: &mut Steps<G>,
) -> Result<(), Memory>
    requires sound { IsSound b.now.item }
    requires sound_lefts { AreSound (rules_in left.now) }
    requires shown { IsPermutation index.now.items (filter_map (shown (reach_of op)) (rules_in left.now)) }
    requires alone { alone_level op Right b.now.item.level size < 2 ^ 64 }
    requires level { All (λ (a : Held Rule). joined_level op a.item.level b.now.item.level size < 2 ^ 64)
        (rules_in left.now) }
    ensures made { OnOk result
        (IsPermutation fresh.new.items
        (fresh.old.items ++ by_right (held_way op size) (rules_in left.now) (b.now ∷ []))) }
    ensures steps { steps.new ≤ steps.old +
        (1 + count_by (λ (a : Held Rule). could_meet op a.item b.now.item) (rules_in left.now)) }
{
    let lefts = candidates(alloc, index, asked(op, b.rule), left)?;
    add_by_right(alloc, op, size, &lefts, b, fresh, steps)
}

/// What rules make that come to the right. A rule is joined with those that it could meet and no
/// others.
pub fn made_by_right<G: Ledger>(
    alloc: Global,
    op: Op,
    size: u64,
    come: &[Old],
    index: &Index,
    left: &Store<Made>,
    steps: &mut Steps<G>,
) -> Result<Vec<Made>, Memory>
    requires sound { All (λ (b : Held Rule). IsSound b.item) come.now }
    requires sound_lefts { AreSound (rules_in left.now) }
    requires shown { IsPermutation index.now.items (filter_map (shown (reach_of op)) (rules_in left.now)) }
    requires alone { All (λ (b : Held Rule). alone_level op Right b.item.level size < 2 ^ 64) come.now }
    requires level { All
        (λ (b : Held Rule). All (λ (a : Held Rule). joined_level op a.item.level b.item.level size < 2 ^ 64)
        (rules_in left.now)) come.now }
    ensures made { IfOk result
        (λ fresh. IsPermutation fresh.items (by_right (held_way op size) (rules_in left.now) come.now)) }
    ensures steps { steps.new ≤ steps.old + right_cost op (rules_in left.now) come.now }
{
    let mut fresh = Vec::new(alloc);
    for b in come {
        add_right(alloc, op, size, b, index, left, &mut fresh, steps)?;
    }
    Ok(fresh)
}
