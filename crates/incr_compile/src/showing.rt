//! The rules of an operand in the index of a node.
ghost use Rattle.std.specs.Prelude.{◌≡◌, ◌==◌, ◌+◌, ◌<◌, ◌≤◌, ◌++◌, ◌∷◌, [], false, IsPermutation, List, OnOk, filter};
ghost use Rattle.std.specs.Prelude.{filter_map, length, map, option_map, option_to_list};
ghost use Rattle.std.specs.List.{IsDistinct, list_any};
ghost use Rattle.match_index.specs.Items.{has_id};
ghost use Rattle.rule_ancestry.specs.Holding.{Held, id_of};
ghost use Rattle.made_rules.specs.Changing.{IsReady, settled};
ghost use Rattle.made_rules.specs.Rules.{rules_in};
ghost use Rattle.made_rules.specs.declared.made.Made.{Made};
ghost use Rattle.incr_compile.specs.Candidates.{item_for, shown};
ghost use Rattle.incr_compile.specs.Showing.{AreClear, is_clear_of, rule_at, shown_as};

use crate::candidates::{asked, reach};
use cv_io::Memory;
use made_rules::{Change, Made};
use match_index::Index;
use of10_match::Match;
use op_compose::{Op, Side};
use policy_meaning::Rule;
use rule_ancestry::Store;

/// The match by which a rule of an operand is found.
fn found_by(op: Op, side: Side, rule: &Rule) -> Option<Match>
    ensures { result ≡ shown_as op side rule.now }
{
    match side {
        Side::Left => reach(op, rule),
        Side::Right => asked(op, rule),
    }
}

/// Shows a match under an id, if there is one.
fn show_match(index: &mut Index, id: usize, m: Option<Match>)
    requires room { 0 < index.old.room }
    requires new_id { list_any (has_id id) index.old.items ≡ false }
    ensures items { index.new.items ≡ index.old.items ++ option_to_list (option_map (item_for id) m) }
    ensures room { index.old.room ≤ index.new.room + 1 }
{
    if let Some(m) = m {
        index.put(id as u64, 0, &m);
    }
}

/// Shows the rule of an id, if it can be found at all.
fn show_one(index: &mut Index, op: Op, side: Side, store: &Store<Made>, id: usize)
    requires room { 0 < index.old.room }
    requires new_id { list_any (has_id id) index.old.items ≡ false }
    ensures items { index.new.items ≡ index.old.items ++ filter_map (shown (shown_as op side)) (rule_at store.now id) }
    ensures room { index.old.room ≤ index.new.room + 1 }
{
    if let Some(made) = store.get(id) {
        show_match(index, id, found_by(op, side, &made.rule));
    }
}

/// Shows the rules of these ids, which are new in the index.
fn show(index: &mut Index, op: Op, side: Side, store: &Store<Made>, ids: &[usize])
    requires room { length ids.now ≤ index.old.room }
    requires clear { AreClear ids.now index.old.items }
    requires once { IsDistinct ◌==◌ ids.now }
    ensures { (items rest : List (Held Made)) → map id_of items ≡ ids.now → IsPermutation store.now (items ++ rest)
        → index.new.items ≡ index.old.items ++ filter_map (shown (shown_as op side)) (rules_in items) }
{
    // That no two are held under one id.
    let _count = store.len();
    for id in ids {
        show_one(index, op, side, store, *id);
    }
}

/// Shows all rules of an operand in an index that shows nothing yet.
pub(crate) fn show_all(
    index: &mut Index,
    op: Op,
    side: Side,
    store: &Store<Made>,
) -> Result<(), Memory>
    requires { index.old.items ≡ [] }
    ensures { OnOk result (index.new.items ≡ filter_map (shown (shown_as op side)) (rules_in store.now)) }
{
    // That no two are held under one id.
    let _count = store.len();
    let ids = store.ids()?;
    index.reserve(ids.len())?;
    show(index, op, side, store, &ids);
    // What was put in is sorted into groups now, so that no question looks at all of it.
    index.reserve(0)?;
    Ok(())
}

/// Shows the rule of an id no longer.
fn hide_one(index: &mut Index, id: usize)
    ensures items { IsPermutation index.new.items (filter (is_clear_of (id ∷ [])) index.old.items) }
    ensures room { index.new.room ≡ index.old.room }
{
    // That no two are held under one id.
    let _count = index.len();
    index.remove(id as u64);
}

/// Shows the rules of these ids no longer.
fn hide(index: &mut Index, ids: &[usize])
    ensures items { IsPermutation index.new.items (filter (is_clear_of ids.now) index.old.items) }
    ensures room { index.new.room ≡ index.old.room }
{
    for id in ids {
        hide_one(index, *id);
    }
}

/// Shows the rules of an operand as they are once its change is settled. This takes no memory.
pub(crate) fn show_change(
    index: &mut Index,
    op: Op,
    side: Side,
    store: &Store<Made>,
    change: &Change,
)
    requires room { length change.now.come ≤ index.old.room }
    requires shown { (before : List (Held Made)) × (lost : _) × (fresh : List Made)
        × IsReady before store.now lost fresh change.now
        × IsPermutation index.old.items (filter_map (shown (shown_as op side)) (rules_in before)) }
    ensures { (before : List (Held Made)) → (lost : _) → (fresh : List Made)
        → (r : IsReady before store.now lost fresh change.now)
        → IsPermutation index.old.items (filter_map (shown (shown_as op side)) (rules_in before))
        → IsPermutation index.new.items (filter_map (shown (shown_as op side)) (rules_in (settled r))) }
{
    // That no two are held under one id.
    let _count = store.len();
    hide(index, change.gone());
    show(index, op, side, store, change.come());
}
