//! What whole operands make. The rules that each left one could meet are found in parallel. What they make
//! is made one after the other, so that it is the same for every number of threads.
ghost use Rattle.std.specs.Prelude.{◌+◌, ◌<◌, ◌≤◌, ◌^◌, ◌++◌, ◌∷◌, [], All, IfOk, List, OnOk, IsPermutation, count_by};
ghost use Rattle.std.specs.Prelude.{filter, filter_map, map};
ghost use Rattle.std.specs.List.{AllZip};
ghost use Rattle.list_change.specs.Pairing.{by_left};
ghost use Rattle.op_compose.specs.Composition.{alone_level, joined_level};
ghost use Rattle.op_compose.specs.declared.op.Side.TheVariants.{Left};
ghost use Rattle.rule_ancestry.specs.Holding.{Held, id_of};
ghost use Rattle.policy_meaning.specs.declared.rule.Rule.{Rule};
ghost use Rattle.made_rules.specs.Rules.{rules_in};
ghost use Rattle.incr_compile.specs.Candidates.{asked as asked_of, could_meet, left_cost, overlapping};
ghost use Rattle.incr_compile.specs.Candidates.{reach as reach_of, shown};
ghost use Rattle.incr_compile.specs.Sound.{AreSound, IsSound};
ghost use Rattle.incr_compile.specs.Ways.{held_way};

use crate::candidates::{meeting, reach};
use crate::joining::add_by_left;
use cv_io::{Memory, Steps};
use made_rules::{Made, Old, olds};
use match_index::Index;
use op_compose::Op;
use rayon::prelude::*;
use rule_ancestry::Store;
use std::alloc::Global;
use std::sync::ledger::Ledger;
use std::thread::Threads;

/// The ids of the right rules that each of these left ones could meet.
pub(crate) fn found_rights<R: Threads + Sync>(
    rt: &R,
    alloc: Global,
    op: Op,
    come: &[Old],
    index: &Index,
) -> Result<Vec<Vec<usize>>, Memory>
    ensures { (rights : List (Held Rule)) → IsPermutation index.now.items (filter_map (shown (asked_of op)) rights)
        → IfOk result
        (λ found. AllZip
        (λ a ids. IsPermutation (map id_of (filter (λ (b : Held Rule). could_meet op a.item b.item) rights)) ids.items)
        come.now found.items) }
{
    let found: Result<Vec<Vec<usize>>, Memory> = come
        .par_iter()
        .with_min_len(16)
        .map(
            |a: &Old| -> Result<Vec<usize>, Memory>
                ensures { IfOk result
                    (λ ids. IsPermutation (overlapping (reach_of op a.now.item) index.entry.now.items) ids.items) }
            { meeting(alloc, index, reach(op, a.rule)) },
        )
        .collect(rt, alloc)?;
    found
}

/// Appends what a left rule makes with the right ones of these ids.
fn add_found<G: Ledger>(
    alloc: Global,
    op: Op,
    size: u64,
    a: &Old,
    ids: &[usize],
    right: &Store<Made>,
    fresh: &mut Vec<Made>,
    steps: &mut Steps<G>,
) -> Result<(), Memory>
    requires found { IsPermutation
        (map id_of (filter (λ (b : Held Rule). could_meet op a.now.item b.item) (rules_in right.now))) ids.now }
    requires sound { IsSound a.now.item }
    requires sound_rights { AreSound (rules_in right.now) }
    requires alone { alone_level op Left a.now.item.level size < 2 ^ 64 }
    requires level { All (λ (b : Held Rule). joined_level op a.now.item.level b.item.level size < 2 ^ 64)
        (rules_in right.now) }
    ensures made { OnOk result
        (IsPermutation fresh.new.items
        (fresh.old.items ++ by_left (held_way op size) (a.now ∷ []) (rules_in right.now))) }
    ensures steps { steps.new ≤ steps.old +
        (1 + count_by (λ (b : Held Rule). could_meet op a.now.item b.item) (rules_in right.now)) }
{
    let rights = olds(alloc, right, ids)?;
    add_by_left(alloc, op, size, a, &rights, fresh, steps)
}

/// What left rules make with the right ones that were found for each.
pub(crate) fn made_of_found<G: Ledger>(
    alloc: Global,
    op: Op,
    size: u64,
    come: &[Old],
    found: &[Vec<usize>],
    right: &Store<Made>,
    steps: &mut Steps<G>,
) -> Result<Vec<Made>, Memory>
    requires found { AllZip
        (λ a ids. IsPermutation
        (map id_of (filter (λ (b : Held Rule). could_meet op a.item b.item) (rules_in right.now))) ids.items) come.now
        found.now }
    requires sound { All (λ (a : Held Rule). IsSound a.item) come.now }
    requires sound_rights { AreSound (rules_in right.now) }
    requires alone { All (λ (a : Held Rule). alone_level op Left a.item.level size < 2 ^ 64) come.now }
    requires level { All
        (λ (a : Held Rule). All (λ (b : Held Rule). joined_level op a.item.level b.item.level size < 2 ^ 64)
        (rules_in right.now)) come.now }
    ensures made { IfOk result
        (λ fresh. IsPermutation fresh.items (by_left (held_way op size) come.now (rules_in right.now))) }
    ensures steps { steps.new ≤ steps.old + left_cost op (rules_in right.now) come.now }
{
    let mut fresh = Vec::new(alloc);
    for i in 0..come.len() {
        add_found(
            alloc, op, size, &come[i], &found[i], right, &mut fresh, steps,
        )?;
    }
    Ok(fresh)
}
