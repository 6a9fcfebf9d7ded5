//! An event is drafted: it goes through its phases, anew where sessions are put more than they may be.
ghost use Rattle.std.specs.Prelude.{◌≡◌, ◌≤◌, ◌+◌, IfOk, IfSome, OnOk, false, is_some, true};
ghost use Rattle.event_acts.specs.Acts.{IsJudgedFor, WasJudgedFor};
ghost use Rattle.event_ends.specs.Closings.{closing_of};
ghost use Rattle.event_composes.specs.Costs.{first_steps, is_followed, is_replaced, kept_steps, turning_from};
ghost use Rattle.event_composes.specs.Costs.{turning_steps};
ghost use Rattle.hyper_core.specs.Drafting.{IsDraftOf, IsPutOf, settled_from};
ghost use Rattle.event_composes.specs.Kept.{IsBegun, IsComposedOf, IsKeptBy};
ghost use Rattle.machine_drafts.specs.InsideRequests.{AreSendable};
ghost use Rattle.machine_drafts.specs.InsideTicking.{AreFresh};
ghost use Rattle.machine_drafts.specs.Machines.{bases_of, state_in_held};
ghost use Rattle.machine_drafts.specs.Moments.{IsOfEvent, moment_of as moment_of_event};
ghost use Rattle.machine_drafts.specs.Outcomes.{AreTimely, IsBefore, bases, draft_in};
ghost use Rattle.event_acts.specs.Overtaking.{IsHeardOf, IsWhole};
ghost use Rattle.machine_drafts.specs.Outcomes.{HaveNumbers};
ghost use Rattle.event_composes.specs.Settled.{IsSettledState, WasSettled};
ghost use Rattle.machine_meaning.specs.Composing.{compose as compose_of};
ghost use Rattle.machine_meaning.specs.Phases.{draft_of, drafted as drafted_of, settled_of, slow as slow_of};
ghost use Rattle.machine_meaning.specs.Rounds.{close as close_of};
ghost use Rattle.machine_meaning.specs.States.{State};
ghost use Rattle.machine_meaning.specs.Telling.{tell as tell_of};

use composed_tables::Composed;
use cv_io::{Memory, Steps};
use event_acts::acting::{act, judge_event};
use event_acts::heard::Heard;
use event_acts::judging::Judged;
use event_acts::rounds;
use event_composes::composing::compose;
use event_composes::keeping::set_kept;
use event_ends::overfilled::Closing;
use event_ends::putting::{Drafted, Trial, put};
use event_ends::settling::settle;
use event_ends::telling::tell;
use events::Event;
use machine_drafts::beginning::begin_outcome;
use machine_drafts::held::Held;
use machine_drafts::outcome::Outcome;
use machine_drafts::setup::Setup;
use std::alloc::Global;
use std::sync::ledger::Ledger;

/// The moment of an event.
fn moment_of(event: &Event, told: u64) -> u64
    ensures { result ≡ moment_of_event event.now told }
{
    match event {
        Event::Tick { second } => *second,
        _ => told,
    }
}

/// The rounds of sessions end as slow.
fn close(alloc: Global, draft: &mut Outcome<'_>, closing: &Closing) -> Result<(), Memory>
    ensures drafted { OnOk result (draft_in draft.new ≡ close_of (closing_of closing.now) (draft_in draft.old)) }
    ensures bases { OnOk result (bases draft.new ≡ bases draft.old) }
{
    rounds::close(
        alloc,
        draft,
        closing.switches.as_slice(),
        closing.members.as_slice(),
    )
}

/// An event whose frame was judged goes through its phases in a draft that has just begun, where these sessions are
/// closed as slow.
fn go_through<G: Ledger>(
    setup: &Setup,
    draft: &mut Outcome<'_>,
    event: &Event,
    judged: Option<Judged>,
    heard: &Heard,
    closing: &Closing,
    composed: &mut Option<Composed>,
    steps: &mut Steps<G>,
) -> Result<(), Memory>
    requires numbers { HaveNumbers (bases draft.old) }
    requires fresh { AreFresh draft.old.members }
    requires timely { AreTimely (bases draft.old) }
    requires moment { IsOfEvent event.now (bases draft.old) }
    requires whole { IsWhole event.now }
    requires judged { WasJudgedFor setup.now draft.old event.now judged }
    requires heard { IsHeardOf event.now heard.now (draft_in draft.old).state }
    requires unsent { AreSendable draft.old.sent }
    requires settled { WasSettled setup.now (bases draft.old) }
    requires kept { IfSome composed.old (IsKeptBy setup.now (bases draft.old)
        (settled_from setup.now (draft_in draft.old) event.now (closing_of closing.now)).state) }
    ensures drafted { OnOk result ((before : State) → IsBefore (bases draft.old) before
        → draft_in draft.new ≡ tell_of setup.now before (compose_of setup.now
        (settled_from setup.now (draft_in draft.old) event.now (closing_of closing.now)))) }
    ensures bases { OnOk result (bases draft.new ≡ bases draft.old) }
    ensures kept { OnOk result (IfSome composed.new (IsComposedOf setup.now
        (settled_from setup.now (draft_in draft.old) event.now (closing_of closing.now)).state)) }
    ensures follows { is_some composed.old ≡ true
        → is_replaced (settled_from setup.now (draft_in draft.old) event.now (closing_of closing.now)).reply ≡ false
        → OnOk result (is_some composed.new ≡ true) }
    ensures steps { steps.new ≤ steps.old + kept_steps composed.old
        (turning_from setup.now (bases draft.old)
        (settled_from setup.now (draft_in draft.old) event.now (closing_of closing.now)).state) }
{
    act(setup, draft, event, judged, heard)?;
    close(setup.alloc(), draft, closing)?;
    settle(setup, draft)?;
    compose(setup, draft, composed, steps)?;
    tell(setup, draft)?;
    Ok(())
}

/// The draft of an event whose frame was judged, where these sessions are closed as slow.
fn draft<'a, G: Ledger>(
    setup: &Setup,
    held: &'a Held,
    event: &Event,
    judged: Option<Judged>,
    heard: &Heard,
    closing: &Closing,
    composed: &mut Option<Composed>,
    steps: &mut Steps<G>,
) -> Result<Outcome<'a>, Memory>
    requires numbers { HaveNumbers (bases_of (moment_of_event event.now held.now.moment) held.now) }
    requires whole { IsWhole event.now }
    requires judged { IsJudgedFor setup.now held.now event.now judged }
    requires heard { IsHeardOf event.now heard.now (state_in_held held.now) }
    requires settled { IsSettledState setup.now (state_in_held held.now) }
    requires kept { IfSome composed.old (IsBegun setup.now (state_in_held held.now) event.now) }
    ensures draft { IfOk result (λ o.
        draft_in o ≡ draft_of setup.now (state_in_held held.now) event.now (closing_of closing.now)) }
    ensures bases { IfOk result (λ o.
        bases o ≡ bases_of (moment_of_event event.now held.now.moment) held.now) }
    ensures kept { OnOk result (IfSome composed.new (IsComposedOf setup.now
        (settled_of setup.now (state_in_held held.now) event.now (closing_of closing.now)).state)) }
    ensures follows { is_some composed.old ≡ true
        → is_replaced (settled_of setup.now (state_in_held held.now) event.now (closing_of closing.now)).reply ≡ false
        → OnOk result (is_some composed.new ≡ true) }
    ensures steps { steps.new ≤ steps.old + kept_steps composed.old (turning_steps setup.now (state_in_held held.now)
        (settled_of setup.now (state_in_held held.now) event.now (closing_of closing.now)).state) }
{
    let now = moment_of(event, held.moment);
    let mut draft = begin_outcome(setup.alloc(), held, now)?;
    let gone = go_through(
        setup, &mut draft, event, judged, heard, closing, composed, steps,
    );
    match gone {
        Ok(()) => Ok(draft),
        Err(memory) => {
            drop(draft);
            Err(memory)
        }
    }
}

/// An event is judged and drafted, and its draft is put, where these sessions are closed as slow. What is held gets
/// room for a change of a member's table, and stays as it is.
fn attempt<G: Ledger>(
    setup: &Setup,
    held: &mut Held,
    event: &Event,
    heard: &Heard,
    closing: &Closing,
    last: bool,
    composed: &mut Option<Composed>,
    steps: &mut Steps<G>,
) -> Result<Trial, Memory>
    requires numbers { HaveNumbers (bases_of (moment_of_event event.now held.old.moment) held.old) }
    requires whole { IsWhole event.now }
    requires heard { IsHeardOf event.now heard.now (state_in_held held.old) }
    requires settled { IsSettledState setup.now (state_in_held held.old) }
    requires kept { IfSome composed.old (IsBegun setup.now (state_in_held held.old) event.now) }
    ensures put { IfOk result (IsPutOf setup.now held.new event.now (closing_of closing.now) last) }
    ensures state { state_in_held held.new ≡ state_in_held held.old }
    ensures kept { OnOk result (IfSome composed.new (IsComposedOf setup.now
        (settled_of setup.now (state_in_held held.old) event.now (closing_of closing.now)).state)) }
    ensures follows { is_some composed.old ≡ true
        → is_replaced (settled_of setup.now (state_in_held held.old) event.now (closing_of closing.now)).reply ≡ false
        → OnOk result (is_some composed.new ≡ true) }
    ensures steps { steps.new ≤ steps.old + kept_steps composed.old (turning_steps setup.now (state_in_held held.old)
        (settled_of setup.now (state_in_held held.old) event.now (closing_of closing.now)).state) }
{
    let judged = judge_event(setup, held, event)?;
    let drafted = draft(setup, held, event, judged, heard, closing, composed, steps)?;
    put(setup, drafted, last)
}

/// An event is drafted. What is held gets room for a change of a member's table, and stays as it is.
pub(crate) fn draft_event<G: Ledger>(
    setup: &Setup,
    held: &mut Held,
    event: &Event,
    heard: &Heard,
    composed: &mut Option<Composed>,
    steps: &mut Steps<G>,
) -> Result<Drafted, Memory>
    requires numbers { HaveNumbers (bases_of (moment_of_event event.now held.old.moment) held.old) }
    requires whole { IsWhole event.now }
    requires heard { IsHeardOf event.now heard.now (state_in_held held.old) }
    requires settled { IsSettledState setup.now (state_in_held held.old) }
    requires kept { IfSome composed.old (IsBegun setup.now (state_in_held held.old) event.now) }
    ensures draft { IfOk result (IsDraftOf held.new event.now
        (drafted_of setup.now (state_in_held held.old) event.now) setup.now) }
    ensures state { state_in_held held.new ≡ state_in_held held.old }
    ensures kept { OnOk result (IfSome composed.new (IsComposedOf setup.now (settled_of setup.now
        (state_in_held held.old) event.now (slow_of setup.now (state_in_held held.old) event.now)).state)) }
    ensures follows { is_some composed.old ≡ true → is_followed setup.now (state_in_held held.old) event.now ≡ true
        → OnOk result (is_some composed.new ≡ true) }
    ensures steps { steps.new ≤ steps.old + first_steps setup.now (state_in_held held.old) event.now }
{
    let mut closing = Closing::nobody(setup.alloc());
    let mut left = held.switches.len() + held.members.len();
    loop {
        match attempt(
            setup,
            held,
            event,
            heard,
            &closing,
            left == 0,
            composed,
            steps,
        )? {
            Trial::Ready(drafted) => return Ok(drafted),
            Trial::Slow(more) => closing.join(more)?,
        }
        // It may have followed the draft that is dropped.
        set_kept(composed, None);
        left -= 1;
    }
}
