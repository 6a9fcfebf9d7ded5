//! Lists of items, each read after those before it.
ghost use Rattle.toml.specs.View.{view, table_view};
ghost use Rattle.policies.specs.Outcomes.{Gives, with_value};
ghost use Rattle.policy_file.specs.Plans.{items_of, with_item};

use crate::keys::ItemKind;
use crate::listed::items;
use crate::section::Section;
use cv_io::List;
use policies::PolicyFault;
use std::alloc::Global;
use toml::{Table, Value};

/// What reads the items of a kind.
pub(crate) trait ItemReader {
    type Item: Drop;

    ghost use Rattle.std.specs.Prelude.{List as TheList, Result};
    ghost use Rattle.toml.specs.Data.{Members};
    ghost use Rattle.policies.specs.declared.fault.PolicyFault.{PolicyFault as TheFault};
    ghost use Rattle.policy_file.specs.declared.section.Section.{Section as TheSection};

    ghost reads: { Self → TheList Self.Item → TheSection → Members → Result Self.Item TheFault };

    /// The next item, after the earlier ones.
    fn read(
        &self,
        alloc: Global,
        section: Section,
        table: &Table,
        earlier: &[Self::Item],
    ) -> Result<Self::Item, PolicyFault>
        ensures { Gives (reads self.now earlier.now section (table_view table.now)) result };
}

/// Appends the item of a value; what is no table was refused before.
fn add_item<R: ItemReader>(
    alloc: Global,
    reader: &R,
    section: Section,
    value: &Value,
    list: &mut List<R::Item>,
) -> Result<(), PolicyFault>
    ensures { Gives (with_item (R.reads reader.now) section list.old (view value.now)) (with_value list.new result) }
{
    if let Some(table) = value.as_table() {
        let item = reader.read(alloc, section, table, list.as_slice())?;
        list.push(item)?;
    }
    Ok(())
}

/// The items of a kind.
#[tactic(auto, using(policies::proofs::Numbered::rest_viewed, policies::proofs::Numbered::none_viewed))]
pub(crate) fn read_items<R: ItemReader>(
    alloc: Global,
    reader: &R,
    file: &Table,
    kind: ItemKind,
) -> Result<List<R::Item>, PolicyFault>
    ensures { Gives (items_of (R.reads reader.now) kind (table_view file.now)) result }
{
    let values = items(file, kind);
    let mut list = List::new(alloc);
    for (number, value) in values.iter().enumerate() {
        add_item(
            alloc,
            reader,
            Section::Item { kind, number },
            value,
            &mut list,
        )?;
    }
    Ok(list)
}
