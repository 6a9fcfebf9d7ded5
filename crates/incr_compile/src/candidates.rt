//! The rules that could meet a rule of the other operand.
ghost use Rattle.std.specs.Prelude.{◌≡◌, IfOk, IsPermutation, Option, filter, filter_map};
ghost use Rattle.of10_match.specs.Fields.{MatchOf};
ghost use Rattle.policy_meaning.specs.declared.rule.Rule.{Rule};
ghost use Rattle.made_rules.specs.Rules.{rules_in};
ghost use Rattle.incr_compile.specs.Candidates.{asked as asked_of, is_found, overlapping, reach as reach_of, shown};

use cv_io::{List, Memory};
use made_rules::{Made, Old, olds};
use match_index::Index;
use of10_actions::Tail;
use of10_match::Match;
use op_compose::Op;
use policy_meaning::Rule;
use pull_back::image;
use rule_ancestry::Store;
use std::alloc::Global;

/// What a left rule asks of the right ones: that they overlap this.
pub(crate) fn reach(op: Op, a: &Rule) -> Option<Match>
    ensures { result ≡ reach_of op a.now }
{
    match (op, &a.tail) {
        (Op::Par, _) => Some(a.m),
        (Op::Seq, Tail::Pass(rewrite)) => Some(image(rewrite, &a.m)),
        (Op::Hop, Tail::Link(rewrite, _)) => Some(Match {
            in_port: None,
            ..image(rewrite, &a.m)
        }),
        _ => None,
    }
}

/// What a right rule asks of the left ones' images.
pub(crate) fn asked(op: Op, b: &Rule) -> Option<Match>
    ensures { result ≡ asked_of op b.now }
{
    match op {
        Op::Over => None,
        _ => Some(b.m),
    }
}

/// Ids as the store has them.
fn places(alloc: Global, ids: &[u64]) -> Result<Vec<usize>, Memory>
    ensures { IfOk result (λ places. places.items ≡ ids.now) }
{
    let mut places = Vec::with_capacity(alloc, ids.len())?;
    for id in ids {
        places.push(*id as usize)?;
    }
    Ok(places)
}

/// The ids in an index whose matches overlap; none where nothing is asked.
pub(crate) fn meeting(alloc: Global, index: &Index, m: Option<Match>) -> Result<Vec<usize>, Memory>
    ensures { IfOk result (λ ids. IsPermutation (overlapping m index.now.items) ids.items) }
{
    match m {
        Some(m) => places(alloc, index.meeting(&m)?.as_slice()),
        None => Ok(Vec::new(alloc)),
    }
}

/// The rules that could meet, of those that an index shows.
pub(crate) fn candidates<'a>(
    alloc: Global,
    index: &Index,
    m: Option<Match>,
    store: &'a Store<Made>,
) -> Result<Vec<Old<'a>>, Memory>
    ensures { (by : Rule → Option MatchOf) → IsPermutation index.now.items (filter_map (shown by) (rules_in store.now))
        → IfOk result (λ olds. IsPermutation olds.items (filter (is_found m by) (rules_in store.now))) }
{
    let ids = meeting(alloc, index, m)?;
    let found = olds(alloc, store, &ids)?;
    Ok(found)
}
