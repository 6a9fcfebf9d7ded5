//! The rules of a virtual switch that were handed over, each under an id.
ghost use Rattle.std.specs.Prelude.{◌≡◌, ◌==◌, ◌≤◌, ◌∷◌, [], IfOk, IfSome, OnErr, OnOk, IsPermutation, List, Some};
ghost use Rattle.std.specs.Prelude.{false, filter_map, length, map, true};
ghost use Rattle.std.specs.List.{list_any};
ghost use Rattle.match_index.specs.Items.{ids_of};
ghost use Rattle.match_index.specs.Questions.{is_meeting};
ghost use Rattle.std.specs.Option.{option_copied};
ghost use Rattle.rule_ancestry.specs.Holding.{item_at};
ghost use Rattle.policy_meaning.specs.declared.rule.Rule.{Rule};
ghost use Rattle.hop_rules.specs.Standing.{over as over_of};
ghost use Rattle.hop_rules.specs.Handed.{AreFoundAt, AreListed, AreUnlisted, Notes, asks_by, leaves_mark, listed};
ghost use Rattle.hop_rules.specs.Handed.{mark_of, mixed as mixed_of};
ghost use Rattle.hop_rules.specs.Turns.{Hands};
ghost use Rattle.hop_rules.specs.Under.{Rises};

use crate::exits::Exit;
use crate::listing::{hide, show};
use crate::node::Turn;
use crate::standing::{asked, over};
use cv_io::{Duplicate, Leaf, List, Memory};
use match_index::Index;
use of10_match::Match;
use policy_meaning::Rule;
use rule_ancestry::{Filed, Store};
use std::alloc::Global;
use std::marker::Model;

/// An odd number whose multiples have bits everywhere.
const FACTOR: u64 = 0x9e37_79b9_7f4a_7c15;

/// Another number in a mark.
fn mixed(mark: u64, number: u64) -> u64
    ensures { result ≡ mixed_of mark number }
{
    mark.wrapping_mul(FACTOR).wrapping_add(number)
}

/// A mark of leaves.
fn mark_of_leaves(leaves: &[Leaf]) -> u64
    ensures { result ≡ leaves_mark leaves.now 0 }
{
    let mut mark = 0;
    for leaf in leaves {
        mark = mixed(mixed(mark, u64::from(leaf.member)), leaf.kind);
    }
    mark
}

/// A number that tells most rules apart.
fn mark(rule: &Rule) -> u64
    ensures { result ≡ mark_of rule.now }
{
    let port = match rule.m.in_port {
        None => 0,
        Some(port) => 1 + u64::from(port),
    };
    mixed(mark_of_leaves(rule.ancestry.as_slice()), port)
}

/// A rule that is found by its mark.
#[derive(Drop)]
pub(crate) struct Marked {
    rule: Rule,
    marks: List<u64>,
}

impl Model for Marked {
    ghost use Rattle.std.specs.Prelude.{◌≡◌, [], ◌∷◌};
    ghost use Rattle.policy_meaning.specs.declared.rule.Rule.{Rule};
    ghost use Rattle.hop_rules.specs.Handed.{mark_of};

    ghost Value = { Rule };

    ghost view = { λ marked. marked.rule };

    ghost invariant = { λ marked. marked.marks ≡ mark_of marked.rule ∷ [] };
}

impl Marked {
    fn of(alloc: Global, rule: &Rule) -> Result<Marked, Memory>
        ensures { IfOk result (λ marked. marked ≡ rule.now) }
    {
        Ok(Marked {
            rule: rule.copy()?,
            marks: List::from_slice(alloc, &[mark(rule)])?,
        })
    }
}

impl Duplicate for Marked {
    fn copy(&self) -> Result<Marked, Memory> {
        Ok(Marked {
            rule: self.rule.copy()?,
            marks: self.marks.copied()?,
        })
    }
}

impl Filed for Marked {
    type Name = u64;

    ghost borne = { λ rule. mark_of rule ∷ [] };

    fn names(&self) -> &[u64] {
        self.marks.as_slice()
    }
}

/// Whether an id is one of these.
fn has(ids: &[usize], id: usize) -> bool
    ensures { result ≡ list_any (λ j. id == j) ids.now }
{
    for other in ids {
        if id == *other {
            return true;
        }
    }
    false
}

/// Rules that are found by their marks.
fn all_marked(alloc: Global, rules: &[Rule]) -> Result<Vec<Marked>, Memory>
    ensures { IfOk result (λ marked. marked.items ≡ rules.now) }
{
    let mut marked = Vec::with_capacity(alloc, rules.len())?;
    for rule in rules {
        marked.push(Marked::of(alloc, rule)?)?;
    }
    Ok(marked)
}

/// What a rule of an id asks where its link leads, if it leads over one.
fn asked_at(store: &Store<Marked>, exits: &[Exit], id: usize) -> Option<Match>
    ensures { (rule : Rule) → item_at store.now id ≡ Some rule → result ≡ asks_by rule (over_of exits.now rule.tail) }
{
    let marked = store.get(id)?;
    let departure = over(exits, &marked.rule.tail)?;
    Some(asked(&marked.rule.m, &departure))
}

/// Lists the rules of these ids, where all others are. This takes no memory.
fn list_all(index: &mut Index, store: &Store<Marked>, exits: &[Exit], ids: &[usize])
    requires room { length ids.now ≤ index.old.room }
    requires unlisted { AreUnlisted (record { exits = exits.now; rules = store.now; items = index.old.items })
        ids.now }
    ensures { IsPermutation index.new.items (filter_map (listed exits.now) store.now) }
{
    // That no two are held under one id.
    let _count = store.len();
    for id in ids {
        show(index, *id, asked_at(store, exits, *id));
    }
}

/// The rules of a virtual switch that were handed over. Those that lead over a link are found by what
/// they ask where it leads; the last come ones only once they are listed.
#[derive(Drop)]
pub struct Given {
    alloc: Global,
    exits: List<Exit>,
    store: Store<Marked>,
    index: Index,
}

impl Model for Given {
    ghost use Rattle.hop_rules.specs.Handed.{GivenOf};

    ghost Value = { GivenOf };

    ghost view = { λ g. record { exits = g.exits; rules = g.store; items = g.index.items } };
}

impl Given {
    /// No rules of a virtual switch of these exits.
    pub fn new(alloc: Global, exits: List<Exit>) -> Given
        ensures { result ≡ record { exits = exits; rules = []; items = [] } }
    {
        Given {
            alloc,
            exits,
            store: Store::new(alloc),
            index: Index::new(alloc),
        }
    }

    pub fn exits(&self) -> &[Exit]
        ensures { result.now ≡ self.now.exits }
    {
        self.exits.as_slice()
    }

    /// The rule of an id. No two are held under one.
    pub fn rule(&self, id: usize) -> Option<&Rule>
        ensures rule { option_copied result ≡ item_at self.now.rules id }
        ensures rising { Rises self.now.rules }
    {
        let _count = self.store.len();
        match self.store.get(id) {
            Some(marked) => Some(&marked.rule),
            None => None,
        }
    }

    /// Whether the rule of an id is this one.
    fn is_at(&self, id: usize, rule: &Rule) -> bool
        ensures yes { result ≡ true → item_at self.now.rules id ≡ Some rule.now }
        ensures no { result ≡ false → item_at self.now.rules id ≡ Some rule.now → ⊥ }
    {
        match self.rule(id) {
            Some(found) => *found == *rule,
            None => false,
        }
    }

    /// Whether the rule of an id is this one, and the id is none of these.
    fn is_another(&self, id: usize, rule: &Rule, ids: &[usize]) -> bool
        ensures rule { result ≡ true → item_at self.now.rules id ≡ Some rule.now }
        ensures id { result ≡ true → list_any (λ j. id == j) ids.now ≡ false }
    {
        if has(ids, id) {
            return false;
        }
        self.is_at(id, rule)
    }

    /// The id of a rule that is there, which is none of these.
    fn find(&self, rule: &Rule, ids: &[usize]) -> Result<Option<usize>, Memory>
        ensures rule { IfOk result (λ found. IfSome found (λ id. item_at self.now.rules id ≡ Some rule.now)) }
        ensures id { IfOk result (λ found. IfSome found (λ id. list_any (λ j. id == j) ids.now ≡ false)) }
    {
        for id in self.store.descend(mark(rule))? {
            if self.is_another(id, rule, ids) {
                return Ok(Some(id));
            }
        }
        Ok(None)
    }

    /// Notes the id of a rule that is there, which isn't noted yet. A rule that isn't there is answered
    /// as want of memory.
    fn note(&self, rule: &Rule, ids: &mut Vec<usize>) -> Result<(), Memory>
        ensures { OnOk result (Notes self.now.rules ids.old.items ids.new.items rule.now) }
    {
        let Some(id) = self.find(rule, ids)? else {
            return Err(Memory);
        };
        ids.push(id)?;
        Ok(())
    }

    /// The ids of rules that are there.
    fn find_all(&self, rules: &[Rule]) -> Result<Vec<usize>, Memory>
        ensures { IfOk result (λ ids. AreFoundAt self.now.rules ids.items rules.now) }
    {
        // That no two are held under one id.
        let _count = self.store.len();
        let mut ids = Vec::new(self.alloc);
        for rule in rules {
            self.note(rule, &mut ids)?;
        }
        Ok(ids)
    }

    /// Rules go and rules come, and the turn tells under which ids. Those that come aren't listed yet.
    /// Where a rule that is to go isn't there, that is answered as want of memory.
    pub fn turn(&mut self, gone: &[Rule], come: &[Rule]) -> Result<Turn, Memory>
        requires { AreListed self.old self.old.rules }
        ensures turned { IfOk result (λ turn. Hands self.old self.new gone.now come.now turn) }
        ensures memory { OnErr result (self.new ≡ self.old) }
    {
        let ids = self.find_all(gone)?;
        let marked = all_marked(self.alloc, come)?;
        // That no two are held under one id, before, with both and after.
        let _first = self.store.len();
        let new = self.store.add_all(marked)?;
        let _both = self.store.len();
        hide(&mut self.index, &ids);
        self.store.remove_all(&ids);
        let _last = self.store.len();
        Ok(Turn {
            gone: List::from_vec(ids),
            come: List::from_vec(new),
        })
    }

    /// Lists the rules of these ids, where all others are.
    pub fn list(&mut self, ids: &[usize]) -> Result<(), Memory>
        requires { AreUnlisted self.old ids.now }
        ensures listed { OnOk result (AreListed self.new self.new.rules) }
        ensures rules { self.new.rules ≡ self.old.rules }
        ensures exits { self.new.exits ≡ self.old.exits }
        ensures memory { OnErr result (self.new ≡ self.old) }
    {
        self.index.reserve(ids.len())?;
        list_all(&mut self.index, &self.store, self.exits.as_slice(), ids);
        Ok(())
    }

    /// The ids of the listed rules that ask, where their links lead, something that overlaps.
    pub fn meeting(&self, m: &Match) -> Result<Vec<usize>, Memory>
        ensures { IfOk result (λ ids. IsPermutation ids.items (ids_of (is_meeting m.now) self.now.items)) }
    {
        let found = self.index.meeting(m)?;
        numbers(self.alloc, found.as_slice())
    }
}

/// Ids as an index has them.
pub(crate) fn numbers(alloc: Global, ids: &[u64]) -> Result<Vec<usize>, Memory>
    ensures { IfOk result (λ numbers. numbers.items ≡ ids.now) }
{
    let mut numbers = Vec::with_capacity(alloc, ids.len())?;
    for id in ids {
        numbers.push(*id as usize)?;
    }
    Ok(numbers)
}

impl Duplicate for Given {
    fn copy(&self) -> Result<Given, Memory> {
        Ok(Given {
            alloc: self.alloc,
            exits: self.exits.copied()?,
            store: self.store.copy()?,
            index: self.index.copy()?,
        })
    }
}
