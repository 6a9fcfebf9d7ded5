//! The rules of members, which are found by their leaves.
ghost use Rattle.std.specs.Prelude.{◌≡◌, IfOk, map};
ghost use Rattle.std.specs.List.{AllByRecursion};
ghost use Rattle.made_rules.specs.Rules.{rule_of};
ghost use Rattle.incr_compile.specs.Compiling.{Asks, IsByLeaves, by_leaf};

use crate::compiled::LeafDelta;
use crate::tree::MemberChange;
use cv_io::{Leaf, List, Memory};
use made_rules::{Made, Origin};
use policy_meaning::Rule;
use std::alloc::Global;

/// Leaves as origins.
fn leaf_origins(alloc: Global, leaves: &List<Leaf>) -> Result<Vec<Origin>, Memory>
    ensures { IfOk result (λ origins. origins.items ≡ map by_leaf leaves.now) }
{
    let mut origins = Vec::with_capacity(alloc, leaves.len())?;
    for leaf in leaves.as_slice() {
        origins.push(Origin::Leaf(*leaf))?;
    }
    Ok(origins)
}

/// A rule that is found by its leaves.
fn member_rule(alloc: Global, rule: Rule) -> Result<Made, Memory>
    ensures rule { IfOk result (λ made. made.rule ≡ rule) }
    ensures found { IfOk result IsByLeaves }
{
    let origins = List::from_vec(leaf_origins(alloc, &rule.ancestry)?);
    Ok(Made { rule, origins })
}

/// Rules that are found by their leaves.
pub(crate) fn member_rules(alloc: Global, rules: List<Rule>) -> Result<Vec<Made>, Memory>
    ensures rules { IfOk result (λ made. map rule_of made.items ≡ rules) }
    ensures found { IfOk result (λ made. AllByRecursion IsByLeaves made.items) }
{
    let mut made = Vec::with_capacity(alloc, rules.len())?;
    for rule in rules.into_vec() {
        made.push(member_rule(alloc, rule)?)?;
    }
    Ok(made)
}

/// What a change of a member's rules asks of a tree.
pub(crate) fn asked_of(alloc: Global, delta: LeafDelta) -> Result<MemberChange, Memory>
    ensures asks { IfOk result (Asks delta) }
    ensures found { IfOk result (λ asked. AllByRecursion IsByLeaves asked.come.items) }
{
    let LeafDelta { member, gone, come } = delta;
    Ok(MemberChange {
        member,
        gone: leaf_origins(alloc, &gone)?,
        come: member_rules(alloc, come)?,
    })
}
