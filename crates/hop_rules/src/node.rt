//! The rules of the node of a port.
ghost use Rattle.std.specs.Prelude.{◌≡◌, ◌≤◌, ◌∷◌, [], IfOk, OnErr, OnOk, IsPermutation, filter, filter_map, length};
ghost use Rattle.std.specs.Prelude.{map, option_map, true};
ghost use Rattle.std.specs.Option.{option_copied};
ghost use Rattle.of10_match.specs.Matching.{overlaps};
ghost use Rattle.rule_ancestry.specs.Holding.{Held, id_of, item_at, item_of};
ghost use Rattle.policy_meaning.specs.declared.rule.Rule.{Rule};
ghost use Rattle.made_rules.specs.Rules.{rules_in};
ghost use Rattle.made_rules.specs.declared.made.Made.{Made};
ghost use Rattle.hop_rules.specs.Nodes.{found};
ghost use Rattle.hop_rules.specs.Turns.{AreHidden, IsChange, IsFoundBefore, no_turn};
ghost use Rattle.hop_rules.specs.Under.{Rises};

use crate::given::numbers;
use crate::listing::{hide, show};
use cv_io::{Duplicate, List, Memory};
use made_rules::{Change, Made, Origin, made_of};
use match_index::Index;
use of10_match::Match;
use policy_meaning::Rule;
use rule_ancestry::Store;
use std::alloc::Global;
use std::marker::Model;

/// What changed of rules that are known by ids: those that went and those that came.
#[derive(Drop)]
pub struct Turn {
    pub gone: List<usize>,
    pub come: List<usize>,
}

/// The rules of the node of a port. Those of a node that others read are found by what they hold.
#[derive(Drop)]
pub struct Node {
    alloc: Global,
    store: Store<Made>,
    index: Index,
    is_read: bool,
}

impl Model for Node {
    ghost use Rattle.std.specs.Prelude.{◌≡◌, true, IsPermutation, filter_map};
    ghost use Rattle.made_rules.specs.Rules.{rules_in};
    ghost use Rattle.hop_rules.specs.Nodes.{NodeOf, found};

    ghost Value = { NodeOf };

    ghost view = { λ n. record { held = n.store; read = n.is_read } };

    ghost invariant = { λ n. n.is_read ≡ true → IsPermutation n.index.items (filter_map found (rules_in n.store)) };
}

impl Turn {
    pub fn none(alloc: Global) -> Turn
        ensures { result ≡ no_turn }
    {
        Turn {
            gone: List::new(alloc),
            come: List::new(alloc),
        }
    }
}

/// The rule alone.
fn rule_of(made: &Made) -> &Rule
    ensures { result.now ≡ made.now.rule }
{
    &made.rule
}

/// What a made rule holds.
fn match_of(made: &Made) -> Match
    ensures { result ≡ made.now.rule.m }
{
    made.rule.m
}

/// What a rule of an id holds, if it is there.
fn match_at(store: &Store<Made>, id: usize) -> Option<Match>
    ensures { result ≡ option_map (λ (m : Made). m.rule.m) (item_at store.now id) }
{
    let made = store.get(id)?;
    Some(made.rule.m)
}

/// The rules of these ids are found by what they hold. This takes no memory.
fn show_all(index: &mut Index, store: &Store<Made>, ids: &[usize])
    requires room { length ids.now ≤ index.old.room }
    requires hidden { AreHidden index.old.items store.now ids.now }
    ensures { IsPermutation index.new.items (filter_map found (rules_in store.now)) }
{
    // That no two are held under one id.
    let _count = store.len();
    for id in ids {
        show(index, *id, match_at(store, *id));
    }
}

/// The rules of a node that is read are found as they are once they changed. This takes no memory.
fn renew(index: &mut Index, store: &Store<Made>, turn: &Turn, is_read: bool)
    requires room { is_read ≡ true → length turn.now.come ≤ index.old.room }
    requires turned { is_read ≡ true → IsFoundBefore index.old.items store.now turn.now }
    ensures { is_read ≡ true → IsPermutation index.new.items (filter_map found (rules_in store.now)) }
{
    if !is_read {
        return;
    }
    hide(index, turn.gone.as_slice());
    show_all(index, store, turn.come.as_slice());
}

/// Room in the index of a node that is read.
fn make_room(index: &mut Index, is_read: bool, count: usize) -> Result<(), Memory>
    ensures items { index.new.items ≡ index.old.items }
    ensures room { OnOk result (is_read ≡ true → count ≤ index.new.room) }
{
    if !is_read {
        return Ok(());
    }
    index.reserve(count)
}

/// The ids of the rules that go and of those that come.
fn turn_of(alloc: Global, change: &Change) -> Result<Turn, Memory>
    ensures { IfOk result (λ turn. turn ≡ record { gone = change.now.gone; come = change.now.come }) }
{
    Ok(Turn {
        gone: List::from_slice(alloc, change.gone())?,
        come: List::from_slice(alloc, change.come())?,
    })
}

impl Node {
    /// A node without rules.
    pub fn new(alloc: Global, is_read: bool) -> Node
        ensures { result ≡ record { held = []; read = is_read } }
    {
        Node {
            alloc,
            store: Store::new(alloc),
            index: Index::new(alloc),
            is_read,
        }
    }

    /// The node of this one rule, which is read.
    pub fn of(alloc: Global, made: Made) -> Result<Node, Memory>
        ensures held { IfOk result (λ node. map item_of node.held ≡ made ∷ []) }
        ensures read { IfOk result (λ node. node.read ≡ true) }
    {
        let m = match_of(&made);
        let mut store = Store::new(alloc);
        let id = store.add(made)?;
        let mut index = Index::new(alloc);
        index.insert(id as u64, &m)?;
        Ok(Node {
            alloc,
            store,
            index,
            is_read: true,
        })
    }

    /// The rule of an id. No two are held under one.
    pub fn rule(&self, id: usize) -> Option<&Rule>
        ensures rule { option_copied result ≡ item_at (rules_in self.now.held) id }
        ensures rising { Rises (rules_in self.now.held) }
    {
        let _count = self.store.len();
        match self.store.get(id) {
            Some(made) => Some(rule_of(made)),
            None => None,
        }
    }

    /// The ids of the rules, rising.
    pub fn ids(&self) -> Result<Vec<usize>, Memory>
        ensures ids { IfOk result (λ ids. ids.items ≡ map id_of (rules_in self.now.held)) }
        ensures rising { Rises (rules_in self.now.held) }
    {
        // That no two are held under one id.
        let _count = self.store.len();
        self.store.ids()
    }

    /// The ids of the rules whose match overlaps, of a node that is read.
    pub fn meeting(&self, m: &Match) -> Result<Vec<usize>, Memory>
        requires { self.now.read ≡ true }
        ensures ids { IfOk result (λ ids. IsPermutation ids.items
            (map id_of (filter (λ (h : Held Rule). overlaps m.now h.item.m) (rules_in self.now.held)))) }
        ensures rising { OnOk result (Rises (rules_in self.now.held)) }
    {
        let _count = self.store.len();
        let found = self.index.meeting(m)?;
        let ids = numbers(self.alloc, found.as_slice())?;
        Ok(ids)
    }

    /// Rules that are made of some of these go, and some come; what is made anew stays. What goes is
    /// handed out.
    pub fn change(&mut self, lost: &[Origin], fresh: Vec<Made>) -> Result<(Turn, Vec<Made>), Memory>
        ensures change { IfOk result (λ turned. IsChange self.old.held self.new.held lost.now fresh.items turned.0
            turned.1.items) }
        ensures read { self.new.read ≡ self.old.read }
        ensures memory { OnErr result (self.new ≡ self.old) }
    {
        let gone = made_of(self.alloc, &self.store, lost)?;
        make_room(&mut self.index, self.is_read, fresh.len())?;
        let change = Change::ready(self.alloc, &mut self.store, &gone, fresh)?;
        match turn_of(self.alloc, &change) {
            Ok(turn) => {
                let left = change.settle(&mut self.store);
                // That no two are held under one id.
                let _count = self.store.len();
                renew(&mut self.index, &self.store, &turn, self.is_read);
                Ok((turn, left))
            }
            Err(wanted) => {
                change.undo(&mut self.store);
                Err(wanted)
            }
        }
    }
}

impl Duplicate for Node {
    fn copy(&self) -> Result<Node, Memory> {
        Ok(Node {
            alloc: self.alloc,
            store: self.store.copy()?,
            index: self.index.copy()?,
            is_read: self.is_read,
        })
    }
}
