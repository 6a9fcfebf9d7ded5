//! Keys that aren't listed, and keys that are missing.
ghost use Rattle.std.specs.Prelude.{◌≡◌, map};
ghost use Rattle.toml.specs.View.{view, table_view};
ghost use Rattle.virtual_topology.specs.Faults.{Answers, first_answer};
ghost use Rattle.policy_file.specs.Shown.{shown_row};
ghost use Rattle.policy_file.specs.Keys.{item_kinds};
ghost use Rattle.policy_file.specs.Listed.{version as version_by, version_of as version_in, items as items_of};
ghost use Rattle.policy_file.specs.Listed.{may_stand as may_stand_of, is_row as is_row_of, is_listed as is_listed_of};
ghost use Rattle.policy_file.specs.Listed.{unlisted, unlisted_key, missing_row, missing, of_table, among_items};
ghost use Rattle.policy_file.specs.Listed.{in_items, unlisted_in, missing_in};

use crate::keys::{ITEM_KINDS, ItemKind, KeyRow, Version};
use crate::section::Section;
use crate::tables::{at, list};
use crate::values::are_same;
use policies::PolicyFault;
use std::alloc::Global;
use toml::{Table, Value};

/// The version of this number.
fn version(value: &Value) -> Option<Version>
    ensures { result ≡ version_by (view value.now) }
{
    match value.as_integer() {
        Some(1) => Some(Version::One),
        Some(2) => Some(Version::Two),
        _ => None,
    }
}

/// The version that a file is in, if it names one.
pub(crate) fn version_of(file: &Table) -> Option<Version>
    ensures { result ≡ version_in (table_view file.now) }
{
    match at(file, "version") {
        Some(value) => version(value),
        None => None,
    }
}

/// The items of a kind.
pub(crate) fn items(file: &Table, kind: ItemKind) -> &[Value]
    ensures { map view result.now ≡ items_of (table_view file.now) kind }
{
    match at(file, kind.key()) {
        Some(value) => match list(value) {
            Some(items) => items,
            None => &[],
        },
        None => &[],
    }
}

/// Whether a key may stand in a version. Where the file names none, both versions' keys may.
fn may_stand(row: &KeyRow, version: Option<Version>) -> bool
    ensures { result ≡ may_stand_of row.now.only version }
{
    match (row.only, version) {
        (Some(only), Some(version)) => only == version,
        _ => true,
    }
}

/// Whether a row is that of a key that may stand in a version.
fn is_row(row: &KeyRow, version: Option<Version>, key: &str) -> bool
    ensures { result ≡ is_row_of version key.now (shown_row row.now) }
{
    are_same(row.key.as_bytes(), key.as_bytes()) && may_stand(row, version)
}

fn is_listed(rows: &[KeyRow], version: Option<Version>, key: &str) -> bool
    ensures { result ≡ is_listed_of (map shown_row rows.now) version key.now }
{
    for row in rows {
        if is_row(row, version, key) {
            return true;
        }
    }
    false
}

/// A key of a section is listed.
fn check_key(
    alloc: Global,
    section: Section,
    version: Option<Version>,
    key: &str,
) -> Result<(), PolicyFault>
    ensures { Answers PolicyFault.Memory result (unlisted_key section version key.now) }
{
    if is_listed(section.rows(), version, key) {
        return Ok(());
    }
    Err(PolicyFault::Key {
        name: section.name(alloc, key)?,
    })
}

/// The keys of a section are listed.
#[tactic(auto, using(crate::proofs::Lists::keys_in_of))]
fn check_listed(
    alloc: Global,
    section: Section,
    version: Option<Version>,
    table: &Table,
) -> Result<(), PolicyFault>
    ensures { Answers PolicyFault.Memory result (unlisted version section (table_view table.now)) }
{
    for key in table.keys() {
        check_key(alloc, section, version, key.as_str())?;
    }
    Ok(())
}

/// A key that has to stand in a section does.
fn check_row(
    alloc: Global,
    section: Section,
    table: &Table,
    row: &KeyRow,
) -> Result<(), PolicyFault>
    ensures { Answers PolicyFault.Memory result (missing_row section (table_view table.now) (shown_row row.now)) }
{
    if !row.needed || at(table, row.key).is_some() {
        return Ok(());
    }
    Err(PolicyFault::Missing {
        name: section.name(alloc, row.key)?,
    })
}

fn check_rows(
    alloc: Global,
    section: Section,
    table: &Table,
    rows: &[KeyRow],
) -> Result<(), PolicyFault>
    ensures { let fault = missing_row section (table_view table.now) in
        Answers PolicyFault.Memory result (first_answer fault (map shown_row rows.now)) }
{
    for row in rows {
        check_row(alloc, section, table, row)?;
    }
    Ok(())
}

/// A section has the keys that it has to have.
fn check_needed(alloc: Global, section: Section, table: &Table) -> Result<(), PolicyFault>
    ensures { Answers PolicyFault.Memory result (missing section (table_view table.now)) }
{
    check_rows(alloc, section, table, section.rows())
}

/// The keys of an item are listed, if it is a table.
fn check_item_listed(
    alloc: Global,
    section: Section,
    version: Option<Version>,
    value: &Value,
) -> Result<(), PolicyFault>
    ensures { Answers PolicyFault.Memory result (of_table (unlisted version section) (view value.now)) }
{
    match value.as_table() {
        Some(table) => check_listed(alloc, section, version, table),
        None => Ok(()),
    }
}

/// An item has the keys that it has to have, if it is a table.
fn check_item_needed(alloc: Global, section: Section, value: &Value) -> Result<(), PolicyFault>
    ensures { Answers PolicyFault.Memory result (of_table (missing section) (view value.now)) }
{
    match value.as_table() {
        Some(table) => check_needed(alloc, section, table),
        None => Ok(()),
    }
}

fn check_items_listed(
    alloc: Global,
    kind: ItemKind,
    version: Option<Version>,
    items: &[Value],
) -> Result<(), PolicyFault>
    ensures { Answers PolicyFault.Memory result (among_items (unlisted version) kind (map view items.now)) }
{
    for (number, value) in items.iter().enumerate() {
        check_item_listed(alloc, Section::Item { kind, number }, version, value)?;
    }
    Ok(())
}

fn check_items_needed(alloc: Global, kind: ItemKind, items: &[Value]) -> Result<(), PolicyFault>
    ensures { Answers PolicyFault.Memory result (among_items missing kind (map view items.now)) }
{
    for (number, value) in items.iter().enumerate() {
        check_item_needed(alloc, Section::Item { kind, number }, value)?;
    }
    Ok(())
}

/// The keys of a file's items of a kind are listed.
fn check_kind_listed(
    alloc: Global,
    kind: ItemKind,
    version: Option<Version>,
    file: &Table,
) -> Result<(), PolicyFault>
    ensures { Answers PolicyFault.Memory result (in_items (unlisted version) (table_view file.now) kind) }
{
    check_items_listed(alloc, kind, version, items(file, kind))
}

/// A file's items of a kind have the keys that they have to have.
fn check_kind_needed(alloc: Global, kind: ItemKind, file: &Table) -> Result<(), PolicyFault>
    ensures { Answers PolicyFault.Memory result (in_items missing (table_view file.now) kind) }
{
    check_items_needed(alloc, kind, items(file, kind))
}

fn check_kinds_listed(
    alloc: Global,
    version: Option<Version>,
    file: &Table,
) -> Result<(), PolicyFault>
    ensures { Answers PolicyFault.Memory result
        (first_answer (in_items (unlisted version) (table_view file.now)) item_kinds) }
{
    for kind in ITEM_KINDS {
        check_kind_listed(alloc, kind, version, file)?;
    }
    Ok(())
}

fn check_kinds_needed(alloc: Global, file: &Table) -> Result<(), PolicyFault>
    ensures { Answers PolicyFault.Memory result (first_answer (in_items missing (table_view file.now)) item_kinds) }
{
    for kind in ITEM_KINDS {
        check_kind_needed(alloc, kind, file)?;
    }
    Ok(())
}

/// The keys of a file are listed.
pub(crate) fn check_all_listed(alloc: Global, file: &Table) -> Result<(), PolicyFault>
    ensures { Answers PolicyFault.Memory result (unlisted_in (table_view file.now)) }
{
    let version = version_of(file);
    check_listed(alloc, Section::Top, version, file)?;
    check_kinds_listed(alloc, version, file)
}

/// A file has the keys that it has to have.
pub(crate) fn check_all_needed(alloc: Global, file: &Table) -> Result<(), PolicyFault>
    ensures { Answers PolicyFault.Memory result (missing_in (table_view file.now)) }
{
    check_needed(alloc, Section::Top, file)?;
    check_kinds_needed(alloc, file)
}
