//! Rules: of the table of a member, and of those that composition makes of them.
ghost use Rattle.std.specs.Prelude.{◌≡◌};

use cv_io::{Duplicate, Leaf, List, Memory, Named};
use of10_actions::{Out, Tail};
use of10_match::Match;
use std::cmp::Ordering;

/// A rule: the headers that it holds, how it stands against others, and what it does.
///
/// Of the rules of one expression that hold a header, the one of the highest level acts.
#[derive(PartialEq, Eq, Debug, Drop)]
pub struct Rule {
    pub m: Match,
    pub level: u64,
    /// Whether an entry of some member acts, in the sense of `|>`.
    pub touched: bool,
    pub outs: List<Out>,
    pub tail: Tail,
    /// The leaves that the rule is made of, in the order of the expression.
    pub ancestry: List<Leaf>,
}

impl Rule {
    ghost use Rattle.policy_meaning.specs.Order.{by_ancestry};

    /// How two rules stand in lists: by their leaves, then by their ports, none first, then by the bytes
    /// of their matches.
    pub fn cmp_listed(&self, other: &Rule) -> Ordering
        ensures { result ≡ by_ancestry self.now other.now }
    {
        let leaves = self.ancestry.as_slice().cmp(other.ancestry.as_slice());
        let ports = self.m.in_port.cmp(&other.m.in_port);
        match leaves.then(ports) {
            Ordering::Equal => self.m.cmp_bytes(&other.m),
            unequal => unequal,
        }
    }
}

impl Duplicate for Rule {
    fn copy(&self) -> Result<Rule, Memory> {
        Ok(Rule {
            m: self.m,
            level: self.level,
            touched: self.touched,
            outs: self.outs.copy()?,
            tail: self.tail.copy()?,
            ancestry: self.ancestry.copy()?,
        })
    }
}

impl Named for Rule {
    ghost leaves = { λ rule. rule.ancestry };

    fn ancestry(&self) -> &List<Leaf> {
        &self.ancestry
    }
}
