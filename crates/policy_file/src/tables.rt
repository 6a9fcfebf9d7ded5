//! What stands in tables and lists.
ghost use Rattle.std.specs.Prelude.{◌≡◌, map, option_map};
ghost use Rattle.toml.specs.Data.{get_member};
ghost use Rattle.toml.specs.View.{table_view, view};
ghost use Rattle.policy_file.specs.Shown.{shown_value};
ghost use Rattle.policy_file.specs.Documents.{as_list};

use toml::{Table, Value};

/// The value at a key.
pub(crate) fn at<'a>(table: &'a Table, key: &str) -> Option<&'a Value>
    ensures { shown_value result ≡ get_member key.now (table_view table.now) }
{
    table.get(key)
}

/// The values that a value lists.
#[tactic(auto, using(crate::proofs::Lists::items_in_of))]
pub(crate) fn list(value: &Value) -> Option<&[Value]>
    ensures { option_map (λ vs. map view vs.now) result ≡ as_list (view value.now) }
{
    match value.as_array() {
        Some(items) => Some(items.as_slice()),
        None => None,
    }
}
