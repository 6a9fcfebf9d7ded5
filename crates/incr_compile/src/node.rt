//! A node of an operator: what it made of the rules of its operands.
ghost use Rattle.std.specs.Prelude.{◌≡◌, ◌+◌, ◌≤◌, ◌<◌, ◌^◌, ℕ, [], IfOk, IsPermutation, List, OnErr, OnOk, filter_map};
ghost use Rattle.std.specs.Prelude.{length, map};
ghost use Rattle.list_change.specs.Pairing.{made};
ghost use Rattle.rule_ancestry.specs.Holding.{Held, item_of};
ghost use Rattle.made_rules.specs.Changing.{AreWide, IsReady, settled};
ghost use Rattle.made_rules.specs.declared.made.Made.{Made};
ghost use Rattle.incr_compile.specs.Candidates.{asked, left_cost, reach, right_cost, shown};
ghost use Rattle.made_rules.specs.Rules.{rules_in};
ghost use Rattle.incr_compile.specs.Nodes.{AreFit, CanJoin, IsCarried, IsNode, LeftChanges, RightChanges, made_by};
ghost use Rattle.incr_compile.specs.Nodes.{node_of};
ghost use Rattle.incr_compile.specs.Ways.{held_way, left_origin, right_origin};

use crate::found::{found_rights, made_of_found};
use crate::joining::{left_rule, right_rule};
use crate::making::{made_by_left, made_by_right};
use crate::showing::{show_all, show_change};
use cv_io::{Duplicate, Memory, Steps};
use made_rules::{Change, Made, Origin, made_of, olds};
use match_index::Index;
use op_compose::{Op, Side};
use rule_ancestry::Store;
use std::alloc::Global;
use std::sync::ledger::Ledger;
use std::thread::Threads;

/// A change of an operand that is ready, and not yet settled.
#[derive(Drop)]
pub struct Below {
    pub side: Side,
    pub change: Change,
}

/// What an operator made of the rules of its operands, of which the right one has `size` levels.
#[derive(Drop)]
pub struct Node {
    pub op: Op,
    pub size: u64,
    pub made: Store<Made>,
    /// What the left rules reach.
    pub lefts: Index,
    /// What the right rules ask.
    pub rights: Index,
    /// The change of an operand that is under way.
    pub below: Option<Below>,
}

/// Copies of what the rules of both operands are filed under. What lets go of a copy by a call has one step where
/// its parts would have many.
fn copies(lefts: &Index, rights: &Index) -> Result<(Index, Index), Memory>
    ensures left { IfOk result (λ both. both.0 ≡ lefts.now) }
    ensures right { IfOk result (λ both. both.1 ≡ rights.now) }
{
    let left = lefts.copy()?;
    match rights.copy() {
        Ok(right) => Ok((left, right)),
        Err(memory) => {
            drop(left);
            Err(memory)
        }
    }
}

/// The ids of rules of the left operand, as origins.
fn left_origins(alloc: Global, ids: &[usize]) -> Result<Vec<Origin>, Memory>
    ensures { IfOk result (λ origins. origins.items ≡ map left_origin ids.now) }
{
    let mut origins = Vec::with_capacity(alloc, ids.len())?;
    for id in ids {
        origins.push(left_rule(*id))?;
    }
    Ok(origins)
}

/// The ids of rules of the right operand, as origins.
fn right_origins(alloc: Global, ids: &[usize]) -> Result<Vec<Origin>, Memory>
    ensures { IfOk result (λ origins. origins.items ≡ map right_origin ids.now) }
{
    let mut origins = Vec::with_capacity(alloc, ids.len())?;
    for id in ids {
        origins.push(right_rule(*id))?;
    }
    Ok(origins)
}

/// What the operands make.
fn made_of_all<R: Threads + Sync, G: Ledger>(
    rt: &R,
    alloc: Global,
    op: Op,
    size: u64,
    left: &Store<Made>,
    right: &Store<Made>,
    rights: &Index,
    steps: &mut Steps<G>,
) -> Result<Vec<Made>, Memory>
    requires can { CanJoin op size left.now right.now }
    requires shown { IsPermutation rights.now.items (filter_map (shown (asked op)) (rules_in right.now)) }
    ensures made { IfOk result
        (λ fresh. IsPermutation fresh.items (made (held_way op size) (rules_in left.now) (rules_in right.now))) }
    ensures steps { steps.new ≤ steps.old +
        (left_cost op (rules_in right.now) (rules_in left.now) + right_cost op (rules_in left.now)
        (rules_in right.now)) }
{
    let ids = left.ids()?;
    let come = olds(alloc, left, &ids)?;
    let found = found_rights(rt, alloc, op, &come, rights)?;
    let mut fresh = made_of_found(alloc, op, size, &come, &found, right, steps)?;
    let mut alone = made_alone(alloc, op, size, right, steps)?;
    fresh.append(&mut alone)?;
    Ok(fresh)
}

/// The store of what is made of them.
fn store_of_all<R: Threads + Sync, G: Ledger>(
    rt: &R,
    alloc: Global,
    op: Op,
    size: u64,
    left: &Store<Made>,
    right: &Store<Made>,
    rights: &Index,
    steps: &mut Steps<G>,
) -> Result<Store<Made>, Memory>
    requires can { CanJoin op size left.now right.now }
    requires shown { IsPermutation rights.now.items (filter_map (shown (asked op)) (rules_in right.now)) }
    ensures made { IfOk result (λ store. IsPermutation (map item_of store)
        (made (held_way op size) (rules_in left.now) (rules_in right.now))) }
    ensures steps { steps.new ≤ steps.old + (left_cost op (rules_in right.now) (rules_in left.now)
        + right_cost op (rules_in left.now) (rules_in right.now)) }
{
    let fresh = made_of_all(rt, alloc, op, size, left, right, rights, steps)?;
    let mut store = Store::new(alloc);
    store.add_all(fresh)?;
    Ok(store)
}

/// Files the rules of both operands.
fn show_both(
    lefts: &mut Index,
    rights: &mut Index,
    op: Op,
    left: &Store<Made>,
    right: &Store<Made>,
) -> Result<(), Memory>
    requires left { lefts.old.items ≡ [] }
    requires right { rights.old.items ≡ [] }
    ensures left { OnOk result (lefts.new.items ≡ filter_map (shown (reach op)) (rules_in left.now)) }
    ensures right { OnOk result (rights.new.items ≡ filter_map (shown (asked op)) (rules_in right.now)) }
{
    show_all(lefts, op, Side::Left, left)?;
    show_all(rights, op, Side::Right, right)?;
    Ok(())
}

/// What the rules of both operands are filed under.
fn filed(
    alloc: Global,
    op: Op,
    left: &Store<Made>,
    right: &Store<Made>,
) -> Result<(Index, Index), Memory>
    ensures left { IfOk result (λ both. both.0.items ≡ filter_map (shown (reach op)) (rules_in left.now)) }
    ensures right { IfOk result (λ both. both.1.items ≡ filter_map (shown (asked op)) (rules_in right.now)) }
{
    let mut lefts = Index::new(alloc);
    let mut rights = Index::new(alloc);
    match show_both(&mut lefts, &mut rights, op, left, right) {
        Ok(()) => Ok((lefts, rights)),
        Err(memory) => {
            drop(lefts);
            drop(rights);
            Err(memory)
        }
    }
}

/// What the rules of a right operand make alone.
fn made_alone<G: Ledger>(
    alloc: Global,
    op: Op,
    size: u64,
    right: &Store<Made>,
    steps: &mut Steps<G>,
) -> Result<Vec<Made>, Memory>
    requires { (levels : ℕ) × AreFit levels (rules_in right.now) × (levels < 2 ^ 64) }
    ensures made { IfOk result
        (λ fresh. IsPermutation fresh.items (filter_map (held_way op size).other (rules_in right.now))) }
    ensures steps { steps.new ≤ steps.old + length right.now }
{
    let ids = right.ids()?;
    let come = olds(alloc, right, &ids)?;
    let lefts = Index::new(alloc);
    let left = Store::new(alloc);
    made_by_right(alloc, op, size, &come, &lefts, &left, steps)
}

impl Node {
    /// A node of operands without rules.
    pub fn new(alloc: Global, op: Op, size: u64) -> Node
        ensures { node_of result ≡ record { op = op; size = size; made = []; lefts = []; rights = [] } }
    {
        Node {
            op,
            size,
            made: Store::new(alloc),
            lefts: Index::new(alloc),
            rights: Index::new(alloc),
            below: None,
        }
    }

    /// The node of operands that are whole.
    pub fn of<R: Threads + Sync, G: Ledger>(
        rt: &R,
        alloc: Global,
        op: Op,
        size: u64,
        left: &Store<Made>,
        right: &Store<Made>,
        steps: &mut Steps<G>,
    ) -> Result<Node, Memory>
        requires { CanJoin op size left.now right.now }
        ensures node { IfOk result (λ node. IsNode (node_of node) (rules_in left.now) (rules_in right.now)) }
        ensures op { IfOk result (λ node. node.op ≡ op) }
        ensures size { IfOk result (λ node. node.size ≡ size) }
        ensures steps { steps.new ≤ steps.old +
            (left_cost op (rules_in right.now) (rules_in left.now) + right_cost op (rules_in left.now)
            (rules_in right.now)) }
    {
        let filed = filed(alloc, op, left, right)?;
        match store_of_all(rt, alloc, op, size, left, right, &filed.1, steps) {
            Ok(made) => Ok(Node {
                op,
                size,
                made,
                lefts: filed.0,
                rights: filed.1,
                below: None,
            }),
            Err(memory) => {
                drop(filed);
                Err(memory)
            }
        }
    }

    /// Makes ready what a change of the left operand changes here.
    pub fn ready_left<G: Ledger>(
        &mut self,
        alloc: Global,
        left: &Store<Made>,
        right: &Store<Made>,
        below: &Change,
        steps: &mut Steps<G>,
    ) -> Result<Change, Memory>
        requires { (before after : List (Held Made))
            × LeftChanges (node_of self.old) before left.now after right.now below.now }
        ensures ready { (before after : List (Held Made))
            → LeftChanges (node_of self.old) before left.now after right.now below.now
            → IfOk result (λ change. (new : List (Held Made))
            × IsCarried self.old.made self.new.made new change
            (made_by (node_of self.old) (rules_in after) (rules_in right.now))) }
        ensures rest { node_of self.new ≡ record (node_of self.old) { made = self.new.made } }
        ensures room { OnOk result (length below.now.come ≤ self.new.lefts.room) }
        ensures steps { (before after : List (Held Made))
            → (l : LeftChanges (node_of self.old) before left.now after right.now below.now)
            → steps.new ≤ steps.old + left_cost self.old.op (rules_in right.now) (rules_in l.ready.coming) }
        ensures memory { OnErr result (self.new.made ≡ self.old.made) }
    {
        let come = olds(alloc, left, below.come())?;
        let fresh = made_by_left(alloc, self.op, self.size, &come, &self.rights, right, steps)?;
        let origins = left_origins(alloc, below.gone())?;
        let lost = made_of(alloc, &self.made, &origins)?;
        self.lefts.reserve(below.come().len())?;
        Change::ready(alloc, &mut self.made, &lost, fresh)
    }

    /// Makes ready what a change of the right operand changes here.
    pub fn ready_right<G: Ledger>(
        &mut self,
        alloc: Global,
        left: &Store<Made>,
        right: &Store<Made>,
        below: &Change,
        steps: &mut Steps<G>,
    ) -> Result<Change, Memory>
        requires { (before after : List (Held Made))
            × RightChanges (node_of self.old) before right.now after left.now below.now }
        ensures ready { (before after : List (Held Made))
            → RightChanges (node_of self.old) before right.now after left.now below.now
            → IfOk result (λ change. (new : List (Held Made))
            × IsCarried self.old.made self.new.made new change
            (made_by (node_of self.old) (rules_in left.now) (rules_in after))) }
        ensures rest { node_of self.new ≡ record (node_of self.old) { made = self.new.made } }
        ensures room { OnOk result (length below.now.come ≤ self.new.rights.room) }
        ensures steps { (before after : List (Held Made))
            → (l : RightChanges (node_of self.old) before right.now after left.now below.now)
            → steps.new ≤ steps.old + right_cost self.old.op (rules_in left.now) (rules_in l.ready.coming) }
        ensures memory { OnErr result (self.new.made ≡ self.old.made) }
    {
        let come = olds(alloc, right, below.come())?;
        let fresh = made_by_right(alloc, self.op, self.size, &come, &self.lefts, left, steps)?;
        let origins = right_origins(alloc, below.gone())?;
        let lost = made_of(alloc, &self.made, &origins)?;
        self.rights.reserve(below.come().len())?;
        Change::ready(alloc, &mut self.made, &lost, fresh)
    }

    /// Settles a change that was made ready here, of which the left operand's is ready: what goes
    /// leaves the store, and the index shows the left rules as they will be. This takes no memory.
    pub fn settle_left(&mut self, left: &Store<Made>, below: &Change, change: Change) -> Vec<Made>
        requires room { length below.now.come ≤ self.old.lefts.room }
        requires shown { (before : List (Held Made)) × (lost : _) × (fresh : List Made)
            × IsReady before left.now lost fresh below.now
            × IsPermutation self.old.lefts.items (filter_map (shown (reach self.old.op)) (rules_in before)) }
        requires wide { AreWide self.old.made change.stays }
        ensures shown { (before : List (Held Made)) → (lost : _) → (fresh : List Made)
            → (r : IsReady before left.now lost fresh below.now)
            → IsPermutation self.old.lefts.items (filter_map (shown (reach self.old.op)) (rules_in before))
            → IsPermutation self.new.lefts.items (filter_map (shown (reach self.old.op)) (rules_in (settled r))) }
        ensures settled { (before : List (Held Made)) → (lost : _) → (fresh : List Made)
            → (u : IsReady before self.old.made lost fresh change) → IsPermutation self.new.made (settled u) }
        ensures left { (before : List (Held Made)) → (lost : _) → (fresh : List Made)
            → (u : IsReady before self.old.made lost fresh change) → result.items ≡ map item_of u.going }
        ensures rest { node_of self.new ≡ record (node_of self.old)
            { made = self.new.made; lefts = self.new.lefts.items } }
    {
        show_change(&mut self.lefts, self.op, Side::Left, left, below);
        change.settle(&mut self.made)
    }

    /// The same where the right operand's is.
    pub fn settle_right(&mut self, right: &Store<Made>, below: &Change, change: Change) -> Vec<Made>
        requires room { length below.now.come ≤ self.old.rights.room }
        requires shown { (before : List (Held Made)) × (lost : _) × (fresh : List Made)
            × IsReady before right.now lost fresh below.now
            × IsPermutation self.old.rights.items (filter_map (shown (asked self.old.op)) (rules_in before)) }
        requires wide { AreWide self.old.made change.stays }
        ensures shown { (before : List (Held Made)) → (lost : _) → (fresh : List Made)
            → (r : IsReady before right.now lost fresh below.now)
            → IsPermutation self.old.rights.items (filter_map (shown (asked self.old.op)) (rules_in before))
            → IsPermutation self.new.rights.items (filter_map (shown (asked self.old.op)) (rules_in (settled r))) }
        ensures settled { (before : List (Held Made)) → (lost : _) → (fresh : List Made)
            → (u : IsReady before self.old.made lost fresh change) → IsPermutation self.new.made (settled u) }
        ensures left { (before : List (Held Made)) → (lost : _) → (fresh : List Made)
            → (u : IsReady before self.old.made lost fresh change) → result.items ≡ map item_of u.going }
        ensures rest { node_of self.new ≡ record (node_of self.old)
            { made = self.new.made; rights = self.new.rights.items } }
    {
        show_change(&mut self.rights, self.op, Side::Right, right, below);
        change.settle(&mut self.made)
    }

    /// A copy of a node of which no change is under way.
    pub fn copy(&self) -> Result<Node, Memory>
        ensures { IfOk result (λ copied. node_of copied ≡ node_of self.now) }
    {
        let made = self.made.copy()?;
        match copies(&self.lefts, &self.rights) {
            Ok((lefts, rights)) => Ok(Node {
                op: self.op,
                size: self.size,
                made,
                lefts,
                rights,
                below: None,
            }),
            Err(memory) => {
                drop(made);
                Err(memory)
            }
        }
    }
}
