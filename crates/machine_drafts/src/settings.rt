//! What composition reads of a policy and of the state that an event leaves so far.
ghost use Rattle.std.specs.Prelude.{◌≡◌, ◌≤◌, All, IfOk, length, map, zip};
ghost use Rattle.std.specs.List.{enumerate_from};
ghost use Rattle.of10_actions.specs.Ports.{AreRising};
ghost use Rattle.policies.specs.declared.policy.MemberItem.{MemberItem as MemberItemOf};
ghost use Rattle.machine_drafts.specs.Outcomes.{members_in, switches_in};
ghost use Rattle.machine_meaning.specs.Settings.{setting_with, table_of, tables_with, ups_with};

use crate::exprs_draft::Exprs;
use crate::member_draft::MemberDraft;
use crate::setup::Setup;
use crate::switch_draft::SwitchDraft;
use agreement::Setting;
use cv_io::{List, Memory};
use policies::MemberItem;
use policy_meaning::LeafTable;
use std::alloc::Global;

/// The table of a member, with its levels and what its grant lets it see.
fn table(n: u32, item: &MemberItem, member: &MemberDraft<'_>) -> Result<LeafTable, Memory>
    requires { AreRising item.now.grant.ports }
    ensures { IfOk result (λ table. table ≡ table_of (n, (item.now, member.now.now))) }
{
    let kept = member.kept()?;
    let table = kept.state().leaf_table(n, &item.grant);
    drop(kept);
    table
}

/// The tables of all members.
fn tables(
    alloc: Global,
    items: &[MemberItem],
    members: &[MemberDraft<'_>],
) -> Result<List<LeafTable>, Memory>
    requires few { length items.now ≤ 32 }
    requires rising { All (λ (m : MemberItemOf). AreRising m.grant.ports) items.now }
    ensures { IfOk result (λ tables. tables ≡ tables_with items.now (members_in members.now)) }
{
    let mut tables = List::new(alloc);
    for (n, item) in items.iter().enumerate() {
        match members.get(n) {
            Some(member) => tables.push(table(n as u32, item, member)?)?,
            None => return Ok(tables),
        }
    }
    Ok(tables)
}

/// Which switches are up.
pub fn ups(alloc: Global, switches: &[SwitchDraft<'_>]) -> Result<List<bool>, Memory>
    ensures { IfOk result (λ ups. ups ≡ ups_with (switches_in switches.now)) }
{
    let mut ups = List::new(alloc);
    for switch in switches {
        ups.push(switch.is_up())?;
    }
    Ok(ups)
}

/// The setting of a policy in the state that an event leaves so far.
pub fn setting(
    setup: &Setup,
    exprs: &Exprs<'_>,
    members: &[MemberDraft<'_>],
    switches: &[SwitchDraft<'_>],
) -> Result<Setting, Memory>
    ensures { IfOk result (λ s.
        s ≡ setting_with setup.now exprs.now.now (members_in members.now) (switches_in switches.now)) }
{
    let alloc = setup.alloc();
    let exprs = exprs.all(alloc)?;
    let tables = tables(alloc, setup.members(), members)?;
    let ups = ups(alloc, switches)?;
    policy_setting::setting(
        alloc,
        setup.topology(),
        setup.paths(),
        exprs.as_slice(),
        setup.seen(),
        tables,
        ups.as_slice(),
        setup.policy().hops,
    )
}
