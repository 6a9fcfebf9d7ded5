//! The machine as it opens: nothing is up, and tables are empty.
ghost use Rattle.std.specs.Prelude.{◌≡◌, ◌≤◌, All, IfOk, map};
ghost use Rattle.machine_drafts.specs.Machines.{HasAll, HasBits, state_in_held};
ghost use Rattle.event_composes.specs.Settled.{IsSettledState};
ghost use Rattle.machine_meaning.specs.Sound.{IsSoundState};
ghost use Rattle.machine_meaning.specs.States.{new_member as new_member_of, new_switch as new_switch_of};
ghost use Rattle.machine_meaning.specs.States.{nothing_stands, opening};
ghost use Rattle.machine_drafts.specs.Views.{member_of, standing_of, switch_of};

use cv_io::{List, Memory};
use machine_drafts::held::Held;
use machine_drafts::member_draft::FIRST_CONFIG;
use machine_drafts::session::{Member, Switch};
use machine_drafts::setup::Setup;
use member_state::MemberState;
use outbox::{Letters, Outbox};
use policies::MemberItem;
use shared_rows::Rows;
use stats_map::Counts;
use std::alloc::Global;
use switch_state::Known;
use virtual_topology::SwitchItem;

/// A member that never came up.
fn new_member(alloc: Global, item: &MemberItem) -> Member
    requires least { 2 ≤ item.now.bits }
    requires most { item.now.bits ≤ 15 }
    ensures { member_of result ≡ new_member_of item.now }
{
    Member {
        outbox: Outbox::new(alloc),
        config: FIRST_CONFIG,
        kept: MemberState::new(alloc, item.bits, item.entries),
    }
}

/// Members that never came up.
fn new_members(alloc: Global, items: &[MemberItem]) -> Result<List<Member>, Memory>
    requires { All HasBits items.now }
    ensures { IfOk result (λ members. map member_of members ≡ map new_member_of items.now) }
{
    let mut members = List::with_capacity(alloc, items.len())?;
    for item in items {
        members.push(new_member(alloc, item))?;
    }
    Ok(members)
}

/// A switch that never came up.
fn new_switch(alloc: Global, _item: &SwitchItem) -> Switch
    ensures session { switch_of result ≡ new_switch_of _item.now }
    ensures standing { standing_of result ≡ nothing_stands _item.now }
{
    Switch {
        outbox: Outbox::new(alloc),
        known: Known::new(alloc, 0),
        standing: Rows::new(alloc),
    }
}

/// Switches that never came up.
fn new_switches(alloc: Global, items: &[SwitchItem]) -> Result<List<Switch>, Memory>
    ensures sessions { IfOk result (λ switches. map switch_of switches ≡ map new_switch_of items.now) }
    ensures standing { IfOk result (λ switches. map standing_of switches ≡ map nothing_stands items.now) }
{
    let mut switches = List::with_capacity(alloc, items.len())?;
    for item in items {
        switches.push(new_switch(alloc, item))?;
    }
    Ok(switches)
}

/// What a machine holds as it opens.
pub(crate) fn open(setup: &Setup) -> Result<Held, Memory>
    ensures opening { IfOk result (λ held. state_in_held held ≡ opening setup.now) }
    ensures all { IfOk result (HasAll setup.now) }
    ensures settled { IfOk result (λ held. IsSettledState setup.now (state_in_held held)) }
    ensures sound { IfOk result (λ held. IsSoundState setup.now (state_in_held held)) }
{
    let alloc = setup.alloc();
    let policy = setup.policy();
    let exprs = policy.exprs(alloc)?;
    let members = new_members(alloc, policy.members.as_slice())?;
    let switches = new_switches(alloc, policy.switches.as_slice())?;
    let counts = Counts::new(alloc);
    let waiting = List::new(alloc);
    let owed = List::new(alloc);
    let audit = Letters::new(alloc);
    Ok(Held {
        moment: 0,
        exprs,
        members,
        switches,
        counts,
        waiting,
        owed,
        next_cookie: 1,
        audit,
    })
}
