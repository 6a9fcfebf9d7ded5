//! The top keys.
ghost use Rattle.std.specs.Prelude.{◌≡◌, true, IfOk, codes, map};
ghost use Rattle.toml.specs.View.{view, table_view};
ghost use Rattle.toml.specs.Data.{get_member};
ghost use Rattle.std.specs.Char.{is_ascii};
ghost use Rattle.std.specs.List.{list_all};
ghost use Rattle.policy_file.specs.Values.{number as number_of, address as address_of};
ghost use Rattle.policy_file.specs.Regions.{if_there};
ghost use Rattle.policy_file.specs.Heads.{or_absent, is_table, lists_tables as lists_tables_of, tables as tables_of};
ghost use Rattle.policy_file.specs.Heads.{items_at, first_of, last_of, head_of};
ghost use Rattle.policy_file.specs.Keys.{kind_key};
ghost use Rattle.policy_file.specs.Outcomes.{found};
ghost use Rattle.policies.specs.Outcomes.{Gives};

use crate::keys::{ItemKind, Version};
use crate::listed::version_of;
use crate::section::Section;
use crate::tables::{at, list};
use crate::values::{address, number};
use cv_io::{Memory, Text};
use policies::PolicyFault;
use std::alloc::Global;
use toml::{Table, Value};

/// Where switches connect, if the file doesn't say.
const LISTEN: &str = "127.0.0.1:6633";

/// What the top keys say.
#[derive(Drop)]
pub(crate) struct Head {
    pub(crate) version: Version,
    pub(crate) hops: u32,
    pub(crate) listen: Text,
    pub(crate) standby: Option<Text>,
    pub(crate) rounds: u32,
}

/// A number in a range; what stands if the key is absent.
pub(crate) fn number_or(
    table: &Table,
    key: &str,
    least: u32,
    greatest: u32,
    absent: u32,
) -> Option<u32>
    ensures { result ≡ or_absent absent (number_of least greatest) (get_member key.now (table_view table.now)) }
{
    match at(table, key) {
        Some(value) => number(value, least, greatest),
        None => Some(absent),
    }
}

/// An address of the network; what stands if the key is absent.
pub(crate) fn address_or(
    alloc: Global,
    table: &Table,
    key: &str,
    absent: &str,
) -> Result<Option<Text>, Memory>
    requires { list_all is_ascii absent.now ≡ true }
    ensures { IfOk result (λ t. t ≡ or_absent absent.now address_of (get_member key.now (table_view table.now))) }
{
    match at(table, key) {
        Some(value) => address(alloc, value),
        None => crate::values::ascii(alloc, absent),
    }
}

/// The address of a second proxy, if there is one: Some(None) where the key is absent.
fn standby(alloc: Global, file: &Table) -> Result<Option<Option<Text>>, Memory>
    ensures { IfOk result (λ t. t ≡ if_there address_of (get_member (codes "standby") (table_view file.now))) }
{
    match at(file, "standby") {
        Some(value) => Ok(address(alloc, value)?.map(Some)),
        None => Ok(Some(None)),
    }
}

/// Whether each value is a table.
fn are_tables(items: &[Value]) -> bool
    ensures { result ≡ list_all is_table (map view items.now) }
{
    for item in items {
        if !item.is_table() {
            return false;
        }
    }
    true
}

/// Whether a value is a list of tables.
fn lists_tables(value: &Value) -> bool
    ensures { result ≡ lists_tables_of (view value.now) }
{
    match list(value) {
        Some(items) => are_tables(items),
        None => false,
    }
}

/// That a top key of items lists tables, if it stands.
fn tables(file: &Table, kind: ItemKind) -> Option<()>
    ensures { result ≡ or_absent tt tables_of (get_member (kind_key kind) (table_view file.now)) }
{
    match at(file, kind.key()) {
        Some(value) => { if lists_tables(value) { Some(()) } else { None } }
        None => Some(()),
    }
}

/// A top key of items lists tables, if it stands.
fn check_kind(alloc: Global, file: &Table, kind: ItemKind) -> Result<(), PolicyFault>
    ensures { Gives (items_at (table_view file.now) kind) result }
{
    Section::Top.found(alloc, kind.key(), tables(file, kind))
}

/// Where switches connect, as the file says it.
fn found_listen(alloc: Global, file: &Table) -> Result<Text, PolicyFault>
    ensures { Gives (found Section.Top (codes "listen") (or_absent (codes "127.0.0.1:6633") address_of
        (get_member (codes "listen") (table_view file.now)))) result }
{
    Section::Top.found(alloc, "listen", address_or(alloc, file, "listen", LISTEN)?)
}

/// The top keys from `cable` to `member`: the most hops, and where switches connect.
fn read_first(alloc: Global, file: &Table) -> Result<(u32, Text), PolicyFault>
    ensures { Gives (first_of (table_view file.now)) result }
{
    let top = Section::Top;
    check_kind(alloc, file, ItemKind::Cable)?;
    let hops = top.found(alloc, "hops", number_or(file, "hops", 1, 4, 4))?;
    check_kind(alloc, file, ItemKind::Link)?;
    let listen = found_listen(alloc, file)?;
    check_kind(alloc, file, ItemKind::Member)?;
    Ok((hops, listen))
}

/// Where a second proxy follows, as the file says it.
fn found_standby(alloc: Global, file: &Table) -> Result<Option<Text>, PolicyFault>
    ensures { Gives (found Section.Top (codes "standby")
        (if_there address_of (get_member (codes "standby") (table_view file.now)))) result }
{
    Section::Top.found(alloc, "standby", standby(alloc, file)?)
}

/// The top keys from `rounds` to `virtual`: the rounds, the second proxy, and the version.
fn read_last(alloc: Global, file: &Table) -> Result<(u32, Option<Text>, Version), PolicyFault>
    ensures { Gives (last_of (table_view file.now)) result }
{
    let top = Section::Top;
    let rounds = number_or(file, "rounds", 1, 1_000_000, 1_000);
    let rounds = top.found(alloc, "rounds", rounds)?;
    let standby = found_standby(alloc, file)?;
    check_kind(alloc, file, ItemKind::Switch)?;
    let version = top.found(alloc, "version", version_of(file))?;
    check_kind(alloc, file, ItemKind::Virtual)?;
    Ok((rounds, standby, version))
}

/// The top keys, each looked at in the order of their bytes.
pub(crate) fn read_head(alloc: Global, file: &Table) -> Result<Head, PolicyFault>
    ensures { Gives (head_of (table_view file.now)) result }
{
    let (hops, listen) = read_first(alloc, file)?;
    let (rounds, standby, version) = read_last(alloc, file)?;
    Ok(Head {
        version,
        hops,
        listen,
        standby,
        rounds,
    })
}
