//! What a rule that comes makes with rules of the other operand.
ghost use Rattle.std.specs.Prelude.{◌≡◌, ◌+◌, ◌<◌, ◌≤◌, ◌^◌, ◌++◌, ◌∷◌, [], All, IfOk, OnOk, IsTrue, ◌↔◌, List};
ghost use Rattle.std.specs.Prelude.{option_map, option_to_list, filter_map, length};
ghost use Rattle.list_change.specs.Pairing.{by_left, by_right};
ghost use Rattle.op_compose.specs.Composition.{Joins, alone_level, joined, joined_level};
ghost use Rattle.op_compose.specs.declared.op.Side.TheVariants.{Left, Right};
ghost use Rattle.policy_meaning.specs.declared.rule.Rule.{Rule};
ghost use Rattle.rule_ancestry.specs.Holding.{Held};
ghost use Rattle.incr_compile.specs.Ways.{held_way, left_origin, lone, made_with, right_origin};
ghost use Rattle.incr_compile.specs.Ways.{stays_out as stays_out_by};

use cv_io::{List, Memory, Steps};
use made_rules::{Made, Old, Origin};
use of10_actions::Tail;
use op_compose::{Op, Side, join, lift};
use policy_meaning::Rule;
use std::alloc::Global;
use std::sync::ledger::Ledger;

/// The left operand's rule of an id.
pub fn left_rule(id: usize) -> Origin
    ensures { result ≡ left_origin id }
{
    Origin::Rule { operand: 0, id }
}

/// The right operand's rule of an id.
pub fn right_rule(id: usize) -> Origin
    ensures { result ≡ right_origin id }
{
    Origin::Rule { operand: 1, id }
}

/// Whether an operator joins a left rule of this tail with right ones.
pub(crate) fn joins(op: Op, tail: &Tail) -> bool
    ensures { IsTrue result ↔ Joins op tail.now }
{
    match (op, tail) {
        (Op::Par, _) => true,
        (Op::Seq, Tail::Pass(_)) => true,
        (Op::Hop, Tail::Link(_, _)) => true,
        _ => false,
    }
}

/// Appends a rule, if there is one, with what it was made of.
pub(crate) fn keep(
    alloc: Global,
    fresh: &mut Vec<Made>,
    rule: Option<Rule>,
    origins: &[Origin],
) -> Result<(), Memory>
    ensures { OnOk result (fresh.new.items ≡ fresh.old.items
        ++ option_to_list (option_map (made_with origins.now) rule)) }
{
    if let Some(rule) = rule {
        let origins = List::from_slice(alloc, origins)?;
        fresh.push(Made { rule, origins })?;
    }
    Ok(())
}

/// Appends the rule that a left rule makes alone, if there is one.
fn keep_alone(
    alloc: Global,
    fresh: &mut Vec<Made>,
    rule: Option<Rule>,
    id: usize,
) -> Result<(), Memory>
    ensures { OnOk result (fresh.new.items ≡ fresh.old.items
        ++ option_to_list (option_map (made_with (left_origin id ∷ [])) rule)) }
{
    keep(alloc, fresh, rule, &[left_rule(id)])
}

/// Appends what a rule of the left makes with these of the right.
pub(crate) fn add_pairs<G: Ledger>(
    alloc: Global,
    op: Op,
    size: u64,
    a: &Old,
    rights: &[Old],
    fresh: &mut Vec<Made>,
    steps: &mut Steps<G>,
) -> Result<(), Memory>
    requires joins { Joins op a.now.item.tail }
    requires level { All (λ (b : Held Rule). joined_level op a.now.item.level b.item.level size < 2 ^ 64) rights.now }
    ensures made { OnOk result (fresh.new.items ≡ fresh.old.items
        ++ filter_map ((held_way op size).pair a.now) rights.now) }
    ensures steps { steps.new ≤ steps.old + length rights.now }
{
    for b in rights {
        let rule = join(op, a.rule, b.rule, size, steps)?;
        keep(alloc, fresh, rule, &[left_rule(a.id), right_rule(b.id)])?;
    }
    Ok(())
}

/// Whether a left rule that isn't joined makes nothing.
fn stays_out(op: Op, touched: bool) -> bool
    ensures { result ≡ stays_out_by op touched }
{
    match op {
        Op::Over => !touched,
        _ => false,
    }
}

/// The rule that a left rule makes alone, where it isn't joined.
fn lone_rule<G: Ledger>(
    op: Op,
    size: u64,
    a: &Rule,
    steps: &mut Steps<G>,
) -> Result<Option<Rule>, Memory>
    requires alone { Joins op a.now.tail → ⊥ }
    requires level { alone_level op Left a.now.level size < 2 ^ 64 }
    ensures rule { IfOk result (λ rule. rule ≡ lone op size a.now) }
    ensures steps { steps.new ≤ steps.old + 1 }
{
    if stays_out(op, a.touched) {
        return Ok(None);
    }
    Ok(Some(lift(op, Side::Left, a, size, steps)?))
}

/// Appends what a rule of the left makes, alone or with these of the right.
pub(crate) fn add_by_left<G: Ledger>(
    alloc: Global,
    op: Op,
    size: u64,
    a: &Old,
    rights: &[Old],
    fresh: &mut Vec<Made>,
    steps: &mut Steps<G>,
) -> Result<(), Memory>
    requires alone { alone_level op Left a.now.item.level size < 2 ^ 64 }
    requires level { All (λ (b : Held Rule). joined_level op a.now.item.level b.item.level size < 2 ^ 64) rights.now }
    ensures made { OnOk result (fresh.new.items ≡ fresh.old.items
        ++ by_left (held_way op size) (a.now ∷ []) rights.now) }
    ensures steps { steps.new ≤ steps.old + (1 + length rights.now) }
{
    if joins(op, &a.rule.tail) {
        return add_pairs(alloc, op, size, a, rights, fresh, steps);
    }
    let rule = lone_rule(op, size, a.rule, steps)?;
    keep_alone(alloc, fresh, rule, a.id)
}

/// The rule of a pair, if the left one is joined at all.
fn joined_rule<G: Ledger>(
    op: Op,
    size: u64,
    a: &Rule,
    b: &Rule,
    steps: &mut Steps<G>,
) -> Result<Option<Rule>, Memory>
    requires level { joined_level op a.now.level b.now.level size < 2 ^ 64 }
    ensures rule { IfOk result (λ rule. rule ≡ joined op size a.now b.now) }
    ensures steps { steps.new ≤ steps.old + 1 }
{
    if !joins(op, &a.tail) {
        return Ok(None);
    }
    join(op, a, b, size, steps)
}

/// Appends what a rule of the right makes, with these of the left and alone.
pub(crate) fn add_by_right<G: Ledger>(
    alloc: Global,
    op: Op,
    size: u64,
    lefts: &[Old],
    b: &Old,
    fresh: &mut Vec<Made>,
    steps: &mut Steps<G>,
) -> Result<(), Memory>
    requires alone { alone_level op Right b.now.item.level size < 2 ^ 64 }
    requires level { All (λ (a : Held Rule). joined_level op a.item.level b.now.item.level size < 2 ^ 64) lefts.now }
    ensures made { OnOk result (fresh.new.items ≡ fresh.old.items
        ++ by_right (held_way op size) lefts.now (b.now ∷ [])) }
    ensures steps { steps.new ≤ steps.old + (1 + length lefts.now) }
{
    for a in lefts {
        let rule = joined_rule(op, size, a.rule, b.rule, steps)?;
        keep(alloc, fresh, rule, &[left_rule(a.id), right_rule(b.id)])?;
    }
    if matches!(op, Op::Over) {
        let rule = lift(op, Side::Right, b.rule, size, steps)?;
        keep(alloc, fresh, Some(rule), &[right_rule(b.id)])?;
    }
    Ok(())
}
