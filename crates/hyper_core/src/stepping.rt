//! An event that isn't answered at once, and is no taking: it is drafted, and what it leaves is moved in.
ghost use Rattle.std.specs.Prelude.{◌≡◌, ◌<◌, ◌≤◌, ◌+◌, ◌^◌, IfOk, IfSome, IsTrue, None, OnErr, OnOk, is_some, true};
ghost use Rattle.machine_meaning.specs.Events.{AreBytes, IsEvent};
ghost use Rattle.machine_meaning.specs.Glances.{glance_of};
ghost use Rattle.machine_meaning.specs.Hearing.{heard};
ghost use Rattle.machine_meaning.specs.Sound.{HasNumbers};
ghost use Rattle.event_composes.specs.Costs.{cost_of, first_steps, followed_cost, is_followed, most_of, stays_kept};
ghost use Rattle.event_composes.specs.Costs.{whole_cost};
ghost use Rattle.event_composes.specs.Kept.{IsBegun, IsComposedOf, IsKept};
ghost use Rattle.machine_drafts.specs.Machines.{HasAll, state_in_held};
ghost use Rattle.machine_drafts.specs.Moments.{taking_in as taking_in_of};
ghost use Rattle.event_acts.specs.Overtaking.{IsHeardOf, IsWhole};
ghost use Rattle.event_composes.specs.Settled.{IsSettledState};
ghost use Rattle.machine_meaning.specs.Phases.{drafted as drafted_of};
ghost use Rattle.machine_meaning.specs.Steps.{done, step_of};

use crate::drafting::draft_event;
use crate::glances::glance;
use crate::overtaking::hear;
use crate::takings::take;
use composed_tables::Composed;
use cv_io::{Memory, Session, Steps};
use event_acts::heard::Heard;
use event_composes::keeping::{keep, set_kept};
use event_ends::moving::move_in;
use event_ends::putting::Drafted;
use events::{Event, Reply};
use machine_drafts::held::Held;
use machine_drafts::setup::Setup;
use machine_meaning::laws::soundness_is_kept;
use std::sync::ledger::Ledger;
use std::thread::Threads;

/// An event is drafted, and what it leaves is moved in.
fn drive<G: Ledger>(
    setup: &Setup,
    held: &mut Held,
    event: &Event,
    heard: &Heard,
    composed: &mut Option<Composed>,
    steps: &mut Steps<G>,
) -> Result<Reply, Memory>
    requires all { HasAll setup.now held.old }
    requires whole { IsWhole event.now }
    requires heard { IsHeardOf event.now heard.now (state_in_held held.old) }
    requires settled { IsSettledState setup.now (state_in_held held.old) }
    requires kept { IfSome composed.old (IsBegun setup.now (state_in_held held.old) event.now) }
    ensures done { IfOk result (λ reply. (reply, state_in_held held.new)
        ≡ done setup.now (drafted_of setup.now (state_in_held held.old) event.now)) }
    ensures all { HasAll setup.now held.new }
    ensures settled { IsSettledState setup.now (state_in_held held.new) }
    ensures kept { OnOk result (IfSome composed.new (IsComposedOf setup.now (state_in_held held.new))) }
    ensures follows { is_some composed.old ≡ true → is_followed setup.now (state_in_held held.old) event.now ≡ true
        → OnOk result (is_some composed.new ≡ true) }
    ensures steps { steps.new ≤ steps.old + first_steps setup.now (state_in_held held.old) event.now }
    ensures memory { OnErr result (state_in_held held.new ≡ state_in_held held.old) }
{
    // The proof learns how many members and switches a policy has.
    let _members = setup.members();
    let _plan = setup.topology().plan();
    let Drafted {
        reply,
        counts,
        parts,
    } = draft_event(setup, held, event, heard, composed, steps)?;
    held.counts.make(counts)?;
    move_in(held, parts);
    Ok(reply)
}

/// The next cookie is a number of 64 bits: its type says so.
fn cookie_fits(held: &Held)
    ensures { held.now.next_cookie < 2 ^ 64 }
{
    let _next = held.next_cookie;
}

/// One step of such an event: what it tells is heard before, and taken back where memory is wanted. What is kept
/// follows it, or is made anew.
pub(crate) fn proceed<R: Threads + Sync, G: Ledger>(
    rt: &R,
    setup: &Setup,
    held: &mut Held,
    event: &Event,
    composed: &mut Option<Composed>,
    steps: &mut Steps<G>,
) -> Result<Reply, Memory>
    requires all { HasAll setup.now held.old }
    requires whole { IsWhole event.now }
    requires given { IsEvent event.now }
    requires changes { glance_of setup.now (state_in_held held.old) event.now ≡ None }
    requires drafted { taking_in_of event.now ≡ None }
    requires settled { IsSettledState setup.now (state_in_held held.old) }
    requires kept { IsKept setup.now (state_in_held held.old) composed.old }
    ensures done { IfOk result (λ reply. (reply, state_in_held held.new)
        ≡ done setup.now (drafted_of setup.now (heard (state_in_held held.old) event.now) event.now)) }
    ensures all { HasAll setup.now held.new }
    ensures settled { IsSettledState setup.now (state_in_held held.new) }
    ensures kept { IsKept setup.now (state_in_held held.new) composed.new }
    ensures memory { OnErr result (state_in_held held.new ≡ state_in_held held.old) }
    ensures stays { is_some composed.old ≡ true
        → is_followed setup.now (heard (state_in_held held.old) event.now) event.now ≡ true
        → HasNumbers (state_in_held held.new) → OnOk result (is_some composed.new ≡ true) }
    ensures cost { is_some composed.old ≡ true
        → steps.new ≤ steps.old + followed_cost setup.now (state_in_held held.old) event.now }
    ensures most { steps.new ≤ steps.old + whole_cost setup.now (state_in_held held.old) event.now }
{
    // The proof learns what is true of every policy, of cookies, and of steps.
    let _policy = setup.policy();
    cookie_fits(held);
    soundness_is_kept();
    let overtaken = hear(setup.alloc(), held, event)?;
    match drive(setup, held, event, &overtaken.heard, composed, steps) {
        Ok(reply) => {
            keep(rt, setup, held, composed, steps);
            Ok(reply)
        }
        Err(Memory) => {
            // It may have followed the event.
            set_kept(composed, None);
            overtaken.take_back(&mut held.counts);
            Err(Memory)
        }
    }
}

/// Bytes are below 256, and fewer than 2^63: no memory has more.
fn are_bytes(bytes: &[u8]) -> bool
    ensures { IsTrue result → AreBytes bytes.now }
{
    bytes.len() < 1 << 63
}

/// The numbers of an event fit their types, as they always do.
fn is_event(event: &Event) -> bool
    ensures { IsTrue result → IsEvent event.now }
{
    match event {
        Event::Msg { session, frame } => {
            let _round = session.round;
            are_bytes(frame.as_slice())
        }
        Event::Policy { v, text } => {
            let _number = *v;
            are_bytes(text.as_bytes())
        }
        Event::Gone { session } | Event::Take { session } => {
            let _round = session.round;
            true
        }
        Event::Tick { second } => {
            let _second = *second;
            true
        }
        Event::Up { .. } => true,
    }
}

/// The session that is taken from, if the event is a taking.
fn taking_in(event: &Event) -> Option<Session>
    ensures { result ≡ taking_in_of event.now }
{
    match event {
        Event::Take { session } => Some(*session),
        _ => None,
    }
}

/// One step.
#[tactic(auto, using(crate::proofs::Stepped::step_glanced, crate::proofs::Stepped::step_taking, crate::proofs::Stepped::step_other, crate::proofs::Stepped::has_all_taken, crate::proofs::Stepped::settled_taken, crate::proofs::Whole::whole_event))]
pub(crate) fn step<R: Threads + Sync, G: Ledger>(
    rt: &R,
    setup: &Setup,
    held: &mut Held,
    event: &Event,
    composed: &mut Option<Composed>,
    steps: &mut Steps<G>,
) -> Result<Reply, Memory>
    requires all { HasAll setup.now held.old }
    requires settled { IsSettledState setup.now (state_in_held held.old) }
    requires kept { IsKept setup.now (state_in_held held.old) composed.old }
    ensures step { IfOk result (λ reply. (reply, state_in_held held.new)
        ≡ step_of setup.now (state_in_held held.old) event.now) }
    ensures all { HasAll setup.now held.new }
    ensures settled { IsSettledState setup.now (state_in_held held.new) }
    ensures kept { IsKept setup.now (state_in_held held.new) composed.new }
    ensures memory { OnErr result (state_in_held held.new ≡ state_in_held held.old) }
    ensures stays { is_some composed.old ≡ true → stays_kept setup.now (state_in_held held.old) event.now ≡ true
        → HasNumbers (state_in_held held.new) → OnOk result (is_some composed.new ≡ true) }
    ensures cost { is_some composed.old ≡ true
        → steps.new ≤ steps.old + cost_of setup.now (state_in_held held.old) event.now }
    ensures most { steps.new ≤ steps.old + most_of setup.now (state_in_held held.old) event.now }
{
    // The proof learns what is true of every policy, of cookies, and of steps.
    let _policy = setup.policy();
    cookie_fits(held);
    soundness_is_kept();
    if let Some(reply) = glance(setup, held, event) {
        return Ok(reply);
    }
    if !is_event(event) {
        return Err(Memory);
    }
    if let Some(session) = taking_in(event) {
        return Ok(take(held, session));
    }
    proceed(rt, setup, held, event, composed, steps)
}
