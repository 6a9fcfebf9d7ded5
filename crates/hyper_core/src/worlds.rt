//! What packets are followed over, apart from what else the machine holds.
ghost use Rattle.std.specs.Prelude.{◌≡◌, IfOk, map};
ghost use Rattle.packet_map.specs.Networks.{SeeRising, network_of};
ghost use Rattle.policies.specs.Policies.{plan};
ghost use Rattle.machine_drafts.specs.Machines.{state_in_held};
ghost use Rattle.machine_drafts.specs.Views.{member_of};
ghost use Rattle.hyper_core.specs.Worlds.{AreTablesOf, grant_of, network_in, table_in, table_of};

use cv_io::{Duplicate, List, Memory};
use grants::Grant;
use machine_drafts::held::Held;
use machine_drafts::session::Member;
use machine_drafts::setup::Setup;
use member_table::Table;
use packet_map::World;
use policies::MemberItem;
use std::alloc::Global;

/// Copies of the members' grants and tables.
#[derive(Drop)]
pub struct Tables {
    grants: List<Grant>,
    tables: List<Table>,
}

/// The grants of members.
fn member_grants(alloc: Global, items: &[MemberItem]) -> Result<List<Grant>, Memory>
    ensures { IfOk result (λ grants. grants ≡ map grant_of items.now) }
{
    let mut grants = List::with_capacity(alloc, items.len())?;
    for item in items {
        grants.push(item.grant.copy()?)?;
    }
    Ok(grants)
}

/// A copy of the table of a member.
fn table(member: &Member) -> Result<Table, Memory>
    ensures { IfOk result (λ table. table_in table ≡ table_of (member_of member.now)) }
{
    member.kept.table().copy()
}

/// Copies of the tables of members.
fn member_tables(alloc: Global, members: &[Member]) -> Result<List<Table>, Memory>
    ensures { IfOk result (λ tables. map table_in tables ≡ map table_of (map member_of members.now)) }
{
    let mut tables = List::with_capacity(alloc, members.len())?;
    for member in members {
        tables.push(table(member)?)?;
    }
    Ok(tables)
}

/// Copies of the members' grants and tables.
pub(crate) fn copied_tables(setup: &Setup, held: &Held) -> Result<Tables, Memory>
    ensures { IfOk result (AreTablesOf setup.now (state_in_held held.now)) }
{
    let alloc = setup.alloc();
    Ok(Tables {
        grants: member_grants(alloc, setup.members())?,
        tables: member_tables(alloc, held.members.as_slice())?,
    })
}

/// What packets are followed over.
pub(crate) fn followed<'a>(setup: &'a Setup, held: &'a Held, tables: &'a Tables) -> World<'a>
    requires { AreTablesOf setup.now (state_in_held held.now) tables.now }
    ensures network { network_of result ≡ network_in setup.now (state_in_held held.now) }
    ensures topology { result.topology.now ≡ plan setup.now }
    ensures hops { result.hops ≡ setup.now.hops }
    ensures rising { SeeRising result }
{
    // The proof learns that members' ports rise.
    let _members = setup.members();
    World {
        topology: setup.topology(),
        exprs: &held.exprs,
        grants: &tables.grants,
        tables: &tables.tables,
        hops: setup.policy().hops,
    }
}
