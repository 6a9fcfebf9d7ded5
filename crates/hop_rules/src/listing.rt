//! Rules in an index, each by a match of it.
ghost use Rattle.std.specs.Prelude.{◌≡◌, ◌+◌, ◌<◌, ◌≤◌, ◌++◌, Option, List, IsPermutation, false, filter};
ghost use Rattle.std.specs.Prelude.{filter_map, option_map, option_to_list};
ghost use Rattle.std.specs.List.{list_any};
ghost use Rattle.match_index.specs.Items.{has_id};
ghost use Rattle.match_index.specs.declared.item.Item.{Item};
ghost use Rattle.policy_meaning.specs.declared.rule.Rule.{Rule};
ghost use Rattle.rule_ancestry.specs.Holding.{Held, is_other, is_outside};
ghost use Rattle.hop_rules.specs.Items.{IsNumbered, item_for};

use match_index::Index;
use of10_match::Match;

/// The rule of an id is found no longer.
pub(crate) fn hide_one(index: &mut Index, id: usize)
    ensures items { (shown : Held Rule → Option Item) → IsNumbered shown → (rules : List (Held Rule))
        → IsPermutation index.old.items (filter_map shown rules)
        → IsPermutation index.new.items (filter_map shown (filter (is_other id) rules)) }
    ensures room { index.new.room ≡ index.old.room }
{
    // That no two are held under one id.
    let _count = index.len();
    index.remove(id as u64);
}

/// The rules of these ids are found no longer.
pub(crate) fn hide(index: &mut Index, ids: &[usize])
    ensures items { (shown : Held Rule → Option Item) → IsNumbered shown → (rules : List (Held Rule))
        → IsPermutation index.old.items (filter_map shown rules)
        → IsPermutation index.new.items (filter_map shown (filter (is_outside ids.now) rules)) }
    ensures room { index.new.room ≡ index.old.room }
{
    for id in ids {
        hide_one(index, *id);
    }
}

/// The rule of an id is found by a match, if there is one. This takes no memory.
pub(crate) fn show(index: &mut Index, id: usize, m: Option<Match>)
    requires room { 0 < index.old.room }
    requires new_id { list_any (has_id id) index.old.items ≡ false }
    ensures items { index.new.items ≡ index.old.items ++ option_to_list (option_map (item_for id) m) }
    ensures room { index.old.room ≤ index.new.room + 1 }
{
    if let Some(m) = m {
        index.put(id as u64, 0, &m);
    }
}
