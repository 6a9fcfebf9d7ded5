//! Each switch that is up is written the change from the entries that stand to those that the setting gives.
ghost use Rattle.std.specs.Prelude.{◌≡◌, ◌==◌, ℕ, ◌<◌, ◌≤◌, ◌+◌, ◌^◌, ◌++◌, [], IfSome, IsTrue, OnOk, Some};
ghost use Rattle.std.specs.Prelude.{false, is_some, length, map, slice_get, true};
ghost use Rattle.agreement.specs.declared.state.Setting.{Setting as SettingOf};
ghost use Rattle.cv_io.specs.declared.leaf.Who.{Who as WhoOf};
ghost use Rattle.install_plan.specs.declared.written.Batch.{Batch as BatchOf};
ghost use Rattle.stats_map.specs.Told.{told};
ghost use Rattle.switch_state.specs.Messages.{switch_messages};
ghost use Rattle.switch_state.specs.Sending.{send_all, sending_of};
ghost use Rattle.machine_meaning.specs.Batches.{counts_after};
ghost use Rattle.event_composes.specs.Composed.{IsWrittenTo, with_composed, with_switch};
ghost use Rattle.machine_meaning.specs.Composing.{compose as compose_of, compose_all as compose_all_of};
ghost use Rattle.machine_meaning.specs.Composing.{compose_at as compose_at_of};
ghost use Rattle.machine_meaning.specs.Drafts.{Draft, letter};
ghost use Rattle.event_composes.specs.Costs.{is_replaced as is_replaced_of, kept_steps, turning_steps};
ghost use Rattle.event_composes.specs.Kept.{IsComposedOf, IsKeptBy};
ghost use Rattle.machine_drafts.specs.Serials.{DraftsHaveSerials};
ghost use Rattle.machine_drafts.specs.Outcomes.{bases, draft_in, standing_in, switch_bases, switches_in};
ghost use Rattle.machine_meaning.specs.Sessions.{is_switch};
ghost use Rattle.event_composes.specs.Settled.{WasSettled};
ghost use Rattle.event_composes.specs.Sources.{CanGive, Gives, GivesAll};
ghost use Rattle.event_composes.specs.Turning.{stood_in};
ghost use Rattle.machine_drafts.specs.SwitchDrafts.{SwitchDraftOf, with_written};

use crate::composed::fitting;
use crate::keeping::{compose_on, set_kept};
use crate::sources::Source;
use crate::unchanged::is_unchanged;
use composed_tables::Composed;
use cv_io::{List, Memory, Steps, Who};
use events::Reply;
use install_plan::Written;
use machine_drafts::member_draft::MemberDraft;
use machine_drafts::outcome::Outcome;
use machine_drafts::setup::Setup;
use machine_drafts::switch_draft::SwitchDraft;
use machine_meaning::Letter;
use outbox::Letters;
use stats_map::Pending;
use std::alloc::Global;
use std::sync::ledger::Ledger;
use told_batches::{Change, can_send};

/// Whether the round of the switch of a number begins.
fn begins(begun: &Option<Who>, n: u32) -> bool
    ensures { result ≡ is_switch n begun.now }
{
    match begun {
        Some(Who::Switch(other)) => *other == n,
        _ => false,
    }
}

/// The cookies of entries that are written to a switch are counted.
fn count_all(counts: &mut Pending<'_>, n: u32, adds: &[Written]) -> Result<(), Memory>
    ensures base { OnOk result (counts.new.base ≡ counts.old.base) }
    ensures counted { OnOk result (told counts.new.now ≡ counts_after n adds.now (told counts.old.now)) }
{
    for written in adds {
        counts.write(n, written)?;
    }
    Ok(())
}

/// Messages are said to a switch.
fn say_all(batches: &mut List<Letter>, n: u32, mut messages: Letters) -> Result<(), Memory>
    ensures { OnOk result (batches.new ≡ batches.old ++ map (letter n) messages) }
{
    while let Some(bytes) = messages.pop() {
        batches.push(Letter { to: n, bytes })?;
    }
    Ok(())
}

/// A change is written to a switch, after its installation where its round begins.
fn write(
    alloc: Global,
    begins: bool,
    n: u32,
    change: Change,
    switch: &mut SwitchDraft<'_>,
    batches: &mut List<Letter>,
) -> Result<(), Memory>
    ensures switch { OnOk result (switch.new ≡ with_written
        (send_all (switch_messages begins change.batch) (sending_of switch.old.now.known [])).known change.standing
        switch.old) }
    ensures batches { OnOk result (batches.new ≡ batches.old ++ map (letter n)
        (send_all (switch_messages begins change.batch) (sending_of switch.old.now.known [])).messages) }
{
    let Change {
        batch,
        standing,
        ..
    } = change;
    if !can_send(&batch) {
        return Err(Memory);
    }
    let mut messages = Letters::new(alloc);
    switch.write(alloc, begins, batch, standing, &mut messages)?;
    say_all(batches, n, messages)
}

/// A switch that is up is written the change to the entries that are wanted of it.
fn compose_at(
    alloc: Global,
    source: &Source<'_>,
    begun: &Option<Who>,
    n: u32,
    switch: &mut SwitchDraft<'_>,
    counts: &mut Pending<'_>,
    next_cookie: &mut u64,
    batches: &mut List<Letter>,
) -> Result<(), Memory>
    requires { CanGive source.now (n + 1) }
    ensures base { OnOk result (switch.new.base ≡ switch.old.base) }
    ensures counts_base { OnOk result (counts.new.base ≡ counts.old.base) }
    ensures composed { OnOk result ((t : SettingOf) → Gives t n source.now switch.old → (d : Draft)
        → IsWrittenTo d n begun.now switch.old (told counts.old.now) next_cookie.old batches.old
        → with_switch n switch.new (told counts.new.now) next_cookie.new batches.new d ≡ compose_at_of t d n) }
{
    if !switch.is_up() {
        return Ok(());
    }
    let begins = begins(begun, n);
    let Some(change) = source.change(alloc, begins, n, *next_cookie, switch)? else {
        return Ok(());
    };
    let next = change.next;
    count_all(counts, n, change.batch.adds.as_slice())?;
    write(alloc, begins, n, change, switch, batches)?;
    *next_cookie = next;
    Ok(())
}

/// The switch of a number is composed.
fn compose_nth(
    alloc: Global,
    source: &Source<'_>,
    begun: &Option<Who>,
    n: u32,
    switches: &mut [SwitchDraft<'_>],
    counts: &mut Pending<'_>,
    next_cookie: &mut u64,
    batches: &mut List<Letter>,
) -> Result<(), Memory>
    requires can { CanGive source.now (n + 1) }
    requires there { n < length switches.old }
    ensures bases { OnOk result (switch_bases switches.new ≡ switch_bases switches.old) }
    ensures long { length switches.new ≡ length switches.old }
    ensures others { (m : ℕ) → (m == n) ≡ false → slice_get switches.new m ≡ slice_get switches.old m }
    ensures counts_base { OnOk result (counts.new.base ≡ counts.old.base) }
    ensures composed { OnOk result ((t : SettingOf)
        → ((x : SwitchDraftOf) → slice_get switches.old n ≡ Some x → Gives t n source.now x)
        → (d : Draft) → d.begun ≡ begun.now
        → with_composed (switches_in switches.new) (standing_in switches.new) (told counts.new.now) next_cookie.new
        batches.new d
        ≡ compose_at_of t (with_composed (switches_in switches.old) (standing_in switches.old)
        (told counts.old.now) next_cookie.old batches.old d) n) }
{
    let place = n as usize;
    compose_at(
        alloc,
        source,
        begun,
        n,
        &mut switches[place],
        counts,
        next_cookie,
        batches,
    )?;
    Ok(())
}

/// Switches are composed in the order of the file.
fn compose_all(
    alloc: Global,
    source: &Source<'_>,
    begun: &Option<Who>,
    switches: &mut [SwitchDraft<'_>],
    counts: &mut Pending<'_>,
    next_cookie: &mut u64,
    batches: &mut List<Letter>,
) -> Result<(), Memory>
    requires can { CanGive source.now (length switches.old) }
    requires few { length switches.old < 2 ^ 32 }
    ensures long { OnOk result (length switches.new ≡ length switches.old) }
    ensures bases { OnOk result (switch_bases switches.new ≡ switch_bases switches.old) }
    ensures counts_base { OnOk result (counts.new.base ≡ counts.old.base) }
    ensures composed { OnOk result ((t : SettingOf) → GivesAll t source.now switches.old
        → (d : Draft) → d.begun ≡ begun.now
        → with_composed (switches_in switches.new) (standing_in switches.new) (told counts.new.now) next_cookie.new
        batches.new d
        ≡ compose_all_of t (with_composed (switches_in switches.old) (standing_in switches.old)
        (told counts.old.now) next_cookie.old batches.old d)) }
{
    let count = switches.len() as u32;
    for n in 0..count {
        compose_nth(
            alloc,
            source,
            begun,
            n,
            switches,
            counts,
            next_cookie,
            batches,
        )?;
    }
    Ok(())
}

/// The switches of a draft are composed of what is wanted of them.
pub(crate) fn compose_from(
    alloc: Global,
    source: &Source<'_>,
    draft: &mut Outcome<'_>,
) -> Result<(), Memory>
    requires { CanGive source.now (length draft.old.switches) }
    ensures drafted { OnOk result ((t : SettingOf) → GivesAll t source.now draft.old.switches
        → draft_in draft.new ≡ compose_all_of t (draft_in draft.old)) }
    ensures bases { OnOk result (bases draft.new ≡ bases draft.old) }
{
    if draft.switches.len() > u32::MAX as usize {
        return Err(Memory);
    }
    compose_all(
        alloc,
        source,
        &draft.begun,
        draft.switches.as_mut_slice(),
        &mut draft.counts,
        &mut draft.next_cookie,
        &mut draft.batches,
    )?;
    Ok(())
}

/// Switches are composed from the setting that the event leaves.
fn compose_anew(setup: &Setup, draft: &mut Outcome<'_>) -> Result<(), Memory>
    ensures drafted { OnOk result (draft_in draft.new ≡ compose_of setup.now (draft_in draft.old)) }
    ensures bases { OnOk result (bases draft.new ≡ bases draft.old) }
{
    let setting = fitting(
        setup,
        &draft.exprs,
        draft.members.as_slice(),
        draft.switches.as_slice(),
    )?;
    let composed = compose_from(setup.alloc(), &Source::Anew(&setting), draft);
    drop(setting);
    composed
}

/// Each member has a serial number left for an entry. So they have, always.
fn have_serials(members: &[MemberDraft<'_>]) -> bool
    ensures { IsTrue result → DraftsHaveSerials members.now }
{
    members.iter().all(|member| member.has_serial())
}

/// An expression was replaced, as the reply says.
fn is_replaced(reply: &Reply) -> bool
    ensures { result ≡ is_replaced_of reply.now }
{
    match reply {
        Reply::Replaced => true,
        _ => false,
    }
}

/// What is kept follows the event. Where the reply says nothing else expressions are as they stand, and serial numbers
/// are left: so it is, always. After want of memory it may have followed in part.
fn compose_kept<G: Ledger>(
    setup: &Setup,
    draft: &mut Outcome<'_>,
    kept: &mut Composed,
    steps: &mut Steps<G>,
) -> Result<(), Memory>
    requires settled { WasSettled setup.now (bases draft.old) }
    requires kept { IsKeptBy setup.now (bases draft.old) (draft_in draft.old).state kept.old }
    ensures drafted { OnOk result (draft_in draft.new ≡ compose_of setup.now (draft_in draft.old)) }
    ensures bases { OnOk result (bases draft.new ≡ bases draft.old) }
    ensures kept { OnOk result (IsComposedOf setup.now (draft_in draft.old).state kept.new) }
    ensures steps { steps.new ≤ steps.old + turning_steps setup.now (stood_in draft.old) (draft_in draft.old).state }
{
    if !draft.exprs.is_kept() || !have_serials(draft.members.as_slice()) {
        return Err(Memory);
    }
    compose_on(setup, draft, kept, steps)
}

/// Each switch that is up is written the change from the entries that stand to those that the setting gives. There is
/// none where the event changed nothing that composition reads. What is kept follows the event, unless an expression is
/// replaced.
pub fn compose<G: Ledger>(
    setup: &Setup,
    draft: &mut Outcome<'_>,
    composed: &mut Option<Composed>,
    steps: &mut Steps<G>,
) -> Result<(), Memory>
    requires settled { WasSettled setup.now (bases draft.old) }
    requires kept { IfSome composed.old (IsKeptBy setup.now (bases draft.old) (draft_in draft.old).state) }
    ensures drafted { OnOk result (draft_in draft.new ≡ compose_of setup.now (draft_in draft.old)) }
    ensures bases { OnOk result (bases draft.new ≡ bases draft.old) }
    ensures kept { OnOk result (IfSome composed.new (IsComposedOf setup.now (draft_in draft.old).state)) }
    ensures follows { is_some composed.old ≡ true → is_replaced_of draft.old.reply ≡ false
        → OnOk result (is_some composed.new ≡ true) }
    ensures steps { steps.new ≤ steps.old + kept_steps composed.old
        (turning_steps setup.now (stood_in draft.old) (draft_in draft.old).state) }
{
    if is_unchanged(draft) {
        return Ok(());
    }
    if is_replaced(&draft.reply) {
        set_kept(composed, None);
        return compose_anew(setup, draft);
    }
    match composed {
        Some(kept) => compose_kept(setup, draft, kept, steps),
        None => compose_anew(setup, draft),
    }
}
