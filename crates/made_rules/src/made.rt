//! Rules with what they are made of.
ghost use Rattle.std.specs.Prelude.{◌≡◌};

use cv_io::{Duplicate, Leaf, List, Memory};
use policy_meaning::Rule;
use rule_ancestry::Filed;
use std::alloc::Global;

/// What a rule is made of: a leaf of a member, or a rule of an operand of the node, by its id there.
#[derive(Clone, Copy, PartialEq, Eq, PartialOrd, Ord, Debug)]
pub enum Origin {
    Leaf(Leaf),
    Rule { operand: u32, id: usize },
}

impl Duplicate for Origin {
    fn copy(&self) -> Result<Origin, Memory> {
        Ok(*self)
    }

    fn copies(alloc: Global, items: &[Origin]) -> Result<List<Origin>, Memory> {
        List::from_slice(alloc, items)
    }
}

/// A rule of a node, which is found by its origins.
#[derive(Debug, Drop)]
pub struct Made {
    pub rule: Rule,
    pub origins: List<Origin>,
}

impl Duplicate for Made {
    fn copy(&self) -> Result<Made, Memory> {
        Ok(Made {
            rule: self.rule.copy()?,
            origins: self.origins.copy()?,
        })
    }
}

impl Filed for Made {
    type Name = Origin;

    ghost borne = { λ made. made.origins };

    fn names(&self) -> &[Origin] {
        self.origins.as_slice()
    }
}
