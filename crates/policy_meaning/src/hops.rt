//! The rules of pairs of rules that a link joins.
ghost use Rattle.std.specs.Prelude.{◌≡◌, ◌<◌, ◌^◌, ◌++◌, All, IfOk, OnOk, filter_map};
ghost use Rattle.alg_priority.specs.Levels.{concat_level};
ghost use Rattle.policy_meaning.specs.Hops.{at_node as at_node_of, hop_lone as hop_lone_of, hop_rule as hop_rule_of};
ghost use Rattle.policy_meaning.specs.Hops.{out_at as out_at_of, outs_at as outs_at_of};
ghost use Rattle.policy_meaning.specs.Hops.{without_port as without_port_of};

use crate::composing::{Second, rule_after};
use crate::rule::Rule;
use alg_priority::concat;
use cv_io::{Duplicate, List, Memory};
use of10_actions::{Dest, Out, Rewrite, Tail};
use of10_match::Match;
use std::alloc::Global;

/// The out with its rewrite, to this place.
fn out_to(out: &Out, dest: Dest) -> Out
    ensures { result ≡ record { rewrite = out.now.rewrite; dest = dest } }
{
    Out {
        rewrite: out.rewrite,
        dest,
    }
}

/// An out at the node of a port: none to that port itself, and the ingress is that port.
fn out_at(v: u32, port: u16, out: &Out) -> Option<Out>
    ensures { result ≡ out_at_of v port out.now.rewrite out.now.dest }
{
    match out.dest {
        Dest::Port { v: at, port: to } | Dest::Flood { v: at, port: to } => {
            if at == v && to == port {
                None
            } else {
                Some(out_to(out, out.dest))
            }
        }
        Dest::Ingress => Some(out_to(out, Dest::Port { v, port })),
        Dest::Tell { .. } => Some(out_to(out, out.dest)),
    }
}

/// The outs at the node of a port.
fn outs_at(alloc: Global, v: u32, port: u16, outs: &List<Out>) -> Result<List<Out>, Memory>
    ensures { IfOk result (λ kept. kept ≡ outs_at_of v port outs.now) }
{
    let mut kept = List::new(alloc);
    for out in outs.as_slice() {
        kept.push_some(out_at(v, port, out))?;
    }
    Ok(kept)
}

/// A rule as it stands at the node of a port: silent outs are left out, and those to the ingress go
/// to the port.
pub fn at_node(alloc: Global, v: u32, port: u16, rule: &Rule) -> Result<Rule, Memory>
    ensures { IfOk result (λ stood. stood ≡ at_node_of v port rule.now) }
{
    Ok(Rule {
        m: rule.m,
        level: rule.level,
        touched: rule.touched,
        outs: outs_at(alloc, v, port, &rule.outs)?,
        tail: rule.tail.copy()?,
        ancestry: rule.ancestry.copy()?,
    })
}

/// A rule, as it stands at its node, that goes on nowhere; the rules of its peers have `size` levels.
pub fn hop_lone(size: u64, a: &Rule) -> Result<Rule, Memory>
    requires { concat_level a.now.level 0 size < 2 ^ 64 }
    ensures { IfOk result (λ rule. rule ≡ hop_lone_of size a.now) }
{
    Ok(Rule {
        m: a.m,
        level: concat(a.level, 0, size),
        touched: true,
        outs: a.outs.copy()?,
        tail: Tail::Nothing,
        ancestry: a.ancestry.copy()?,
    })
}

/// The match at any port.
fn without_port(m: &Match) -> Match
    ensures { result ≡ without_port_of m.now }
{
    Match {
        in_port: None,
        ..*m
    }
}

/// The rule of one, as it stands at its node, that goes on with this rewrite, and one of the node
/// where it comes to, or none where no header of the first is in the second, at its port and rewritten.
pub fn hop_rule(size: u64, rewrite: &Rewrite, a: &Rule, b: &Rule) -> Result<Option<Rule>, Memory>
    requires { concat_level a.now.level b.now.level size < 2 ^ 64 }
    ensures { IfOk result (λ rule. rule ≡ hop_rule_of size rewrite.now a.now b.now) }
{
    let second = Second {
        asked: without_port(&b.m),
        touched: true,
        tail: Tail::Nothing,
    };
    rule_after(size, rewrite, a, b, second)
}

/// Appends the rules of a rule, as it stands at its node, and of each of the node where it comes to.
pub(crate) fn add_hops(
    rules: &mut List<Rule>,
    size: u64,
    rewrite: &Rewrite,
    a: &Rule,
    there: &List<Rule>,
) -> Result<(), Memory>
    requires { All (λ (b : Rule). concat_level a.now.level b.level size < 2 ^ 64) there.now }
    ensures { OnOk result (rules.new ≡ rules.old ++ filter_map (hop_rule_of size rewrite.now a.now) there.now) }
{
    for b in there.as_slice() {
        rules.push_some(hop_rule(size, rewrite, a, b)?)?;
    }
    Ok(())
}
