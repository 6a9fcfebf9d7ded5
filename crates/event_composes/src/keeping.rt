//! The composed part is kept beside what the machine holds, under changes of members' tables.
ghost use Rattle.std.specs.Prelude.{◌≡◌, ◌↔◌, ◌<◌, ◌≤◌, ◌+◌, IfOk, IfSome, OnOk, Some, if◌then◌else◌, is_some, true};
ghost use Rattle.composed_tables.specs.Composing.{AreTables};
ghost use Rattle.event_composes.specs.Costs.{building_steps_of, turning_steps};
ghost use Rattle.event_composes.specs.Kept.{IsComposedOf, IsKept, IsKeptBy, IsSoundWhile};
ghost use Rattle.machine_drafts.specs.Serials.{DraftsHaveSerials, HasSerial, StandingHaveSerials};
ghost use Rattle.machine_drafts.specs.Machines.{state_in_held};
ghost use Rattle.machine_drafts.specs.Outcomes.{bases, draft_in};
ghost use Rattle.event_composes.specs.Settled.{WasSettled};
ghost use Rattle.event_composes.specs.Turning.{stood_in};
ghost use Rattle.machine_drafts.specs.Views.{member_of};
ghost use Rattle.machine_meaning.specs.Composing.{compose as compose_of};
ghost use Rattle.machine_meaning.specs.Sound.{HasNumbers, IsSoundState};

use crate::composed::present;
use crate::composing::compose_from;
use crate::sources::Source;
use crate::turning::turn;
use composed_tables::Composed;
use cv_io::{List, Memory, Steps};
use machine_drafts::held::Held;
use machine_drafts::outcome::Outcome;
use machine_drafts::session::Member;
use machine_drafts::setup::Setup;
use setting_laws::laws::settings_are_ready;
use std::mem;
use std::sync::ledger::{Blank, Ledger};
use std::thread::Threads;

/// What is true of what is to stand on each switch.
fn are_tables(composed: &Composed)
    ensures { AreTables composed.now.tables }
{
    // The proof learns that what stands on each switch is a table.
    let _ = composed.count();
}

/// What is kept changes with the draft, and each switch that is up is written the change.
pub(crate) fn compose_on<G: Ledger>(
    setup: &Setup,
    draft: &mut Outcome<'_>,
    composed: &mut Composed,
    steps: &mut Steps<G>,
) -> Result<(), Memory>
    requires settled { WasSettled setup.now (bases draft.old) }
    requires kept { IsKeptBy setup.now (bases draft.old) (draft_in draft.old).state composed.old }
    requires exprs { draft.old.exprs.now ≡ draft.old.exprs.base }
    requires serials { DraftsHaveSerials draft.old.members }
    ensures drafted { OnOk result (draft_in draft.new ≡ compose_of setup.now (draft_in draft.old)) }
    ensures bases { OnOk result (bases draft.new ≡ bases draft.old) }
    ensures kept { OnOk result (IsComposedOf setup.now (draft_in draft.old).state composed.new) }
    ensures steps { steps.new ≤ steps.old + turning_steps setup.now (stood_in draft.old) (draft_in draft.old).state }
{
    // The proof learns what is true of every policy, of settings, and of what is to stand before and after.
    let _policy = setup.policy();
    settings_are_ready();
    are_tables(composed);
    let turned = turn(setup, draft, composed, steps)?;
    are_tables(composed);
    compose_from(setup.alloc(), &Source::Kept(composed, &turned), draft)
}

/// The composed part of what is held.
fn build_from<R: Threads + Sync, G: Ledger>(
    rt: &R,
    setup: &Setup,
    held: &Held,
    steps: &mut Steps<G>,
) -> Result<Composed, Memory>
    requires { IsSoundState setup.now (state_in_held held.now) }
    ensures of { IfOk result (IsComposedOf setup.now (state_in_held held.now)) }
    ensures steps { steps.new ≤ steps.old + building_steps_of setup.now (state_in_held held.now) }
{
    // The proof learns what is true of every policy, and of settings.
    let _policy = setup.policy();
    settings_are_ready();
    let setting = present(setup, held)?;
    let built = Composed::build(rt, setup.alloc(), setup.topology(), &setting, steps);
    drop(setting);
    built
}

/// The composed part of what is held as the machine opens. Its steps belong to no event, so they have a counter of
/// their own.
pub fn build_first<R: Threads + Sync, G: Ledger>(
    rt: &R,
    setup: &Setup,
    held: &Held,
    blank: Blank,
) -> Result<Composed, Memory>
    requires blank { (blank.name ≡ G.name) × (blank.parts ≡ G.parts) × (0 < blank.parts) }
    requires sound { IsSoundState setup.now (state_in_held held.now) }
    ensures kept { IfOk result (λ composed. IsKept setup.now (state_in_held held.now) (Some composed)) }
{
    if !has_numbers(held) {
        return Err(Memory);
    }
    let mut steps = Steps::<G>::new(blank);
    let composed = build_from(rt, setup, held, &mut steps)?;
    Ok(composed)
}

/// The composed part of what is held, if there is memory for it.
fn build<R: Threads + Sync, G: Ledger>(
    rt: &R,
    setup: &Setup,
    held: &Held,
    steps: &mut Steps<G>,
) -> Option<Composed>
    requires { IsSoundState setup.now (state_in_held held.now) }
    ensures of { IfSome result (IsComposedOf setup.now (state_in_held held.now)) }
    ensures steps { steps.new ≤ steps.old + building_steps_of setup.now (state_in_held held.now) }
{
    build_from(rt, setup, held, steps).ok()
}

/// A serial number is left for an entry of a member, always.
fn has_serial(member: &Member)
    ensures { HasSerial (member_of member.now) }
{
    // The proof learns what is true of every table.
    let _table = member.kept.table();
}

/// So it is for each member.
fn have_serials(members: &List<Member>)
    ensures { StandingHaveSerials members.now }
{
    for member in members.as_slice() {
        has_serial(member);
    }
}

/// Whether numbers are left: cookies, and serial numbers of entries.
fn has_numbers(held: &Held) -> bool
    ensures { (result ≡ true) ↔ HasNumbers (state_in_held held.now) }
{
    have_serials(&held.members);
    held.next_cookie < u64::MAX
}

/// This is kept from now on.
pub fn set_kept(kept: &mut Option<Composed>, now: Option<Composed>)
    ensures { kept.new ≡ now }
{
    drop(mem::replace(kept, now));
}

/// What is kept once an event ended: as long as numbers are left, what followed the event, or else what is made anew.
pub fn keep<R: Threads + Sync, G: Ledger>(
    rt: &R,
    setup: &Setup,
    held: &Held,
    composed: &mut Option<Composed>,
    steps: &mut Steps<G>,
)
    requires sound { IsSoundWhile setup.now (state_in_held held.now) }
    requires followed { IfSome composed.old (IsComposedOf setup.now (state_in_held held.now)) }
    ensures kept { IsKept setup.now (state_in_held held.now) composed.new }
    ensures stays { is_some composed.old ≡ true → HasNumbers (state_in_held held.now) → is_some composed.new ≡ true }
    ensures steps { steps.new ≤ steps.old + (if is_some composed.old then 0
        else building_steps_of setup.now (state_in_held held.now)) }
{
    if !has_numbers(held) {
        set_kept(composed, None);
        return;
    }
    if composed.is_some() {
        return;
    }
    let made = build(rt, setup, held, steps);
    set_kept(composed, made);
}
