//! Tests that the numbers of actions and of tags are in their ranges.
ghost use Rattle.std.specs.Prelude.{◌<◌, ◌↔◌, IfSome, IsTrue};
ghost use Rattle.switch_meaning.specs.Fixed.{AreTagsInRange};
ghost use Rattle.switch_meaning.specs.Tables.{AreTablesInRange, IsTableInRange};

use crate::entry::FlowEntry;
use crate::wiring::Wiring;
use cv_io::List;
use of10_actions::are_in_range;

/// Whether the numbers of all actions of all tables are in their ranges.
pub fn are_tables_in_range(tables: &List<List<FlowEntry>>) -> bool
    ensures { IsTrue result ↔ AreTablesInRange tables.now }
{
    tables
        .as_slice()
        .iter()
        .all(|table| is_table_in_range(table))
}

/// Whether the numbers of all actions of the table are in their ranges.
pub fn is_table_in_range(table: &List<FlowEntry>) -> bool
    ensures { IsTrue result ↔ IsTableInRange table.now }
{
    table
        .as_slice()
        .iter()
        .all(|entry| are_in_range(&entry.actions))
}

/// Whether the tags of ports are numbers of VLANs.
pub fn are_tags_in_range(wiring: &Wiring) -> bool
    ensures { IsTrue result ↔ AreTagsInRange wiring.now }
{
    wiring
        .outside
        .as_slice()
        .iter()
        .all(|o| is_tag_in_range(o.tag))
}

fn is_tag_in_range(tag: Option<u16>) -> bool
    ensures { IsTrue result ↔ IfSome tag (λ t. t < 4096) }
{
    match tag {
        Some(tag) => tag < 4096,
        None => true,
    }
}
