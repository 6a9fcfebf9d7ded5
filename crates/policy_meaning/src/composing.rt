//! The rules of pairs of rules, and rules that stand alone.
ghost use Rattle.std.specs.Prelude.{◌≡◌, ◌<◌, ◌^◌, ◌++◌, All, IfOk, OnOk, map};
ghost use Rattle.alg_priority.specs.Levels.{concat_level, shift_level, sum_level};
ghost use Rattle.std.specs.Option.{option_and_then};
ghost use Rattle.of10_match.specs.Matching.{meet};
ghost use Rattle.pull_back.specs.Pulling.{pull as pull_of};
ghost use Rattle.of10_actions.specs.declared.effects.Tail.TheVariants.{Pass};
ghost use Rattle.policy_meaning.specs.Meaning.{out_after};
ghost use Rattle.policy_meaning.specs.Rules.{chain_rule as chain_rule_of, chains_by, chains_with as chains_with_of};
ghost use Rattle.policy_meaning.specs.Rules.{lifted as lifted_of, rule_after as rule_after_of};
ghost use Rattle.policy_meaning.specs.Rules.{shifts_with as shifts_with_of, sum_rule as sum_rule_of};
ghost use Rattle.policy_meaning.specs.Rules.{sums_with as sums_with_of};

use crate::meaning::{append_after, tail_after};
use crate::push::joined;
use crate::rule::Rule;
use alg_priority::{concat, shift, sum};
use cv_io::{Duplicate, List, Memory};
use of10_actions::{Out, Rewrite, Tail};
use of10_match::Match;
use pull_back::pull;

/// The outs of one and then of another, whose rewrites stand after this one.
fn chained_outs(
    first: &List<Out>,
    rewrite: &Rewrite,
    second: &List<Out>,
) -> Result<List<Out>, Memory>
    ensures { IfOk result (λ outs. outs ≡ first.now ++ map (out_after rewrite.now) second.now) }
{
    let mut outs = first.copy()?;
    append_after(&mut outs, rewrite, second)?;
    Ok(outs)
}

/// The rule of a pair of `+`, or none where no header is in both.
pub fn sum_rule(a: &Rule, b: &Rule) -> Result<Option<Rule>, Memory>
    requires { sum_level a.now.level b.now.level < 2 ^ 64 }
    ensures { IfOk result (λ rule. rule ≡ sum_rule_of a.now b.now) }
{
    match a.m.meet(&b.m) {
        None => Ok(None),
        Some(m) => Ok(Some(Rule {
            m,
            level: sum(a.level, b.level),
            touched: a.touched | b.touched,
            outs: joined(&a.outs, &b.outs)?,
            tail: b.tail.copy()?,
            ancestry: joined(&a.ancestry, &b.ancestry)?,
        })),
    }
}

/// The match of a pair, where the right asks this of packets once they are rewritten.
fn met_after(a: &Match, rewrite: &Rewrite, b: &Match) -> Option<Match>
    ensures { result ≡ option_and_then (meet a.now) (pull_of rewrite.now b.now) }
{
    let pulled = pull(rewrite, b)?;
    a.meet(&pulled)
}

/// What is asked of packets once they are rewritten, and what the rule of a pair says beside levels,
/// outs and leaves.
pub(crate) struct Second {
    pub asked: Match,
    pub touched: bool,
    pub tail: Tail,
}

/// The rule of a pair of which the right, with `size` levels, acts on packets once they are rewritten, or
/// none where no header of the left is in it then.
pub(crate) fn rule_after(
    size: u64,
    rewrite: &Rewrite,
    a: &Rule,
    b: &Rule,
    second: Second,
) -> Result<Option<Rule>, Memory>
    requires { concat_level a.now.level b.now.level size < 2 ^ 64 }
    ensures { IfOk result (λ rule. rule ≡ rule_after_of size rewrite.now a.now b.now second.asked second.touched
        second.tail) }
{
    let Second {
        asked,
        touched,
        tail,
    } = second;
    match met_after(&a.m, rewrite, &asked) {
        None => Ok(None),
        Some(m) => Ok(Some(Rule {
            m,
            level: concat(a.level, b.level, size),
            touched,
            outs: chained_outs(&a.outs, rewrite, &b.outs)?,
            tail,
            ancestry: joined(&a.ancestry, &b.ancestry)?,
        })),
    }
}

/// The rule of a pair of `>>`, where the left passes packets on with this rewrite and the right has
/// `size` levels, or none where no header of the left is in the right once it is rewritten.
pub fn chain_rule(size: u64, rewrite: &Rewrite, a: &Rule, b: &Rule) -> Result<Option<Rule>, Memory>
    requires { concat_level a.now.level b.now.level size < 2 ^ 64 }
    ensures { IfOk result (λ rule. rule ≡ chain_rule_of size rewrite.now a.now b.now) }
{
    let second = Second {
        asked: b.m,
        touched: a.touched,
        tail: tail_after(rewrite, &b.tail),
    };
    rule_after(size, rewrite, a, b, second)
}

/// A rule that stands alone, at its level in the whole.
pub fn lifted(level: u64, a: &Rule) -> Result<Rule, Memory>
    ensures { IfOk result (λ rule. rule ≡ lifted_of level a.now) }
{
    let mut rule = a.copy()?;
    rule.level = level;
    Ok(rule)
}

/// Appends the rules that a rule of the left of `+` makes.
pub(crate) fn add_sums(rules: &mut List<Rule>, a: &Rule, bs: &List<Rule>) -> Result<(), Memory>
    requires { All (λ (b : Rule). sum_level a.now.level b.level < 2 ^ 64) bs.now }
    ensures { OnOk result (rules.new ≡ rules.old ++ sums_with_of bs.now a.now) }
{
    for b in bs.as_slice() {
        rules.push_some(sum_rule(a, b)?)?;
    }
    Ok(())
}

/// Appends the rules that a rule of the left of `>>` makes which passes packets on with this rewrite.
fn add_passed(
    rules: &mut List<Rule>,
    size: u64,
    rewrite: &Rewrite,
    a: &Rule,
    bs: &List<Rule>,
) -> Result<(), Memory>
    requires { All (λ (b : Rule). concat_level a.now.level b.level size < 2 ^ 64) bs.now }
    ensures { OnOk result (rules.new ≡ rules.old ++ chains_by (Pass rewrite.now) size bs.now a.now) }
{
    for b in bs.as_slice() {
        rules.push_some(chain_rule(size, rewrite, a, b)?)?;
    }
    Ok(())
}

/// Appends the rules that a rule of the left of `>>` makes.
pub(crate) fn add_chains(
    rules: &mut List<Rule>,
    size: u64,
    a: &Rule,
    bs: &List<Rule>,
) -> Result<(), Memory>
    requires pairs { All (λ (b : Rule). concat_level a.now.level b.level size < 2 ^ 64) bs.now }
    requires alone { concat_level a.now.level 0 size < 2 ^ 64 }
    ensures { OnOk result (rules.new ≡ rules.old ++ chains_with_of size bs.now a.now) }
{
    match &a.tail {
        Tail::Pass(rewrite) => add_passed(rules, size, rewrite, a, bs),
        _ => rules.push(lifted(concat(a.level, 0, size), a)?),
    }
}

/// Appends the rule that a rule of the left of `|>` makes, if it is touched.
pub(crate) fn add_shifted(rules: &mut List<Rule>, size: u64, a: &Rule) -> Result<(), Memory>
    requires { shift_level a.now.level size < 2 ^ 64 }
    ensures { OnOk result (rules.new ≡ rules.old ++ shifts_with_of size a.now) }
{
    if a.touched {
        rules.push(lifted(shift(a.level, size), a)?)?;
    }
    Ok(())
}
