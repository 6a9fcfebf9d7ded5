//! Rules that are known by what was told of their changes alone.
ghost use Rattle.std.specs.Prelude.{◌<◌, IfSome, length};

use cv_io::{Duplicate, List, Memory};
use policy_meaning::{Rule, listed};
use std::alloc::Global;

/// What came of a row of changes.
#[derive(Clone, Copy)]
pub struct Count {
    /// How many rules were compared.
    pub rules: usize,
    /// The number of the change after which rules differed, if they did.
    pub differs: Option<u32>,
}

/// The same, and the levels of the rules at the end, in their order.
#[derive(Drop)]
pub struct Folded {
    pub count: Count,
    pub levels: List<u64>,
}

/// The place of a rule.
fn place_of(rules: &List<Rule>, wanted: &Rule) -> Option<usize>
    ensures { IfSome result (λ place. place < length rules.now) }
{
    let held = rules.as_slice();
    for place in 0..held.len() {
        if held[place] == *wanted {
            return Some(place);
        }
    }
    None
}

/// Whether each rule that went was there, and didn't come too. It is there no longer.
fn went(seen: &mut List<Rule>, gone: &[Rule], come: &List<Rule>) -> bool {
    for rule in gone {
        if place_of(come, rule).is_some() {
            return false;
        }
        match place_of(seen, rule) {
            Some(place) => drop(seen.remove(place)),
            None => return false,
        }
    }
    true
}

/// Whether what is told to have gone was there, and didn't come too. What is told is known then.
pub fn told(seen: &mut List<Rule>, gone: List<Rule>, come: List<Rule>) -> Result<bool, Memory> {
    let is_gone = went(seen, gone.as_slice(), &come);
    drop(gone);
    seen.append(come)?;
    Ok(is_gone)
}

/// Whether these are the rules that are wanted.
pub fn same(rules: List<Rule>, wanted: &List<Rule>) -> bool {
    let same = rules == *wanted;
    drop(rules);
    same
}

/// Whether they are in their order.
pub fn are(seen: &List<Rule>, wanted: &List<Rule>) -> Result<bool, Memory> {
    let sorted = listed(seen.copy()?)?;
    Ok(same(sorted, wanted))
}

/// The levels of rules.
pub fn levels(alloc: Global, rules: &[Rule]) -> Result<List<u64>, Memory> {
    let mut levels = List::new(alloc);
    for rule in rules {
        levels.push(rule.level)?;
    }
    Ok(levels)
}
