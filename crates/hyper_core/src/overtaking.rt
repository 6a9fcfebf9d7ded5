//! What an event tells is heard: the counts take over what a switch's frame reports, before the event is drafted.
ghost use Rattle.std.specs.Prelude.{◌≡◌, IfOk, OnErr, reverse};
ghost use Rattle.cv_io.specs.declared.leaf.Session.{Session as SessionOf};
ghost use Rattle.of10_frames.specs.Frames.{IsFrame};
ghost use Rattle.stats_map.specs.Told.{HeldOf, told};
ghost use Rattle.event_acts.specs.CookieCounts.{with_counts};
ghost use Rattle.event_acts.specs.Heard.{IsHeard, heard_in};
ghost use Rattle.machine_meaning.specs.Hearing.{heard};
ghost use Rattle.machine_drafts.specs.Machines.{state_in_held};
ghost use Rattle.event_acts.specs.Overtaking.{AreTakenOver, IsHeardOf, IsWhole};

use cv_io::{List, Memory, Who};
use event_acts::heard::{Heard, read_frame};
use event_acts::hearing::{CookieCount, counts_in, take_back, take_over};
use events::Event;
use machine_drafts::held::Held;
use stats_map::Counts;
use std::alloc::Global;
use waitings::Waitings;

/// What an event tells, and what takes back what the counts took over of it.
#[derive(Drop)]
pub(crate) struct Overtaken {
    pub(crate) heard: Heard,
    switch: u32,
    exchanged: List<CookieCount>,
}

impl Overtaken {
    /// Nothing is taken over.
    fn nothing(alloc: Global, heard: Heard) -> Overtaken
        ensures heard { result.heard ≡ heard }
        ensures back { (h : HeldOf) → with_counts result.switch (reverse result.exchanged) (told h) ≡ told h }
    {
        Overtaken {
            heard,
            switch: 0,
            exchanged: List::new(alloc),
        }
    }

    /// What was taken over is taken back.
    pub(crate) fn take_back(self, counts: &mut Counts)
        ensures { told counts.new ≡ with_counts self.switch (reverse self.exchanged) (told counts.old) }
    {
        take_back(counts, self.switch, self.exchanged);
    }
}

/// What a switch's frame tells is heard.
fn hear_switch(alloc: Global, held: &mut Held, n: u32, frame: &[u8]) -> Result<Overtaken, Memory>
    requires { IsFrame frame.now }
    ensures tells { IfOk result (λ o. o.heard ≡ heard_in frame.now) }
    ensures fits { IfOk result (λ o. IsHeard o.heard) }
    ensures heard { IfOk result (λ o. (session : SessionOf) → session.who ≡ Who.Switch n
        → state_in_held held.new ≡ heard (state_in_held held.old) (Event.Msg session frame.now)) }
    ensures last { IfOk result (λ o. AreTakenOver (Who.Switch n) o.heard (state_in_held held.new)) }
    ensures rest { IfOk result (λ o. record held.new { counts = held.old.counts } ≡ held.old) }
    ensures back { IfOk result (λ o.
        with_counts o.switch (reverse o.exchanged) (told held.new.counts) ≡ told held.old.counts) }
    ensures memory { OnErr result (held.new ≡ held.old) }
{
    let heard = read_frame(alloc, frame)?;
    let Some(switch) = held.switches.get(n as usize) else {
        return Ok(Overtaken::nothing(alloc, heard));
    };
    let waiting = Waitings::stay(alloc, &held.waiting);
    let numbers = counts_in(alloc, &waiting, &switch.known, n, &heard)?;
    let exchanged = take_over(&mut held.counts, n, numbers);
    Ok(Overtaken {
        heard,
        switch: n,
        exchanged,
    })
}

/// What an event tells is heard.
pub(crate) fn hear(alloc: Global, held: &mut Held, event: &Event) -> Result<Overtaken, Memory>
    requires { IsWhole event.now }
    ensures hears { IfOk result (λ o. IsHeardOf event.now o.heard (state_in_held held.new)) }
    ensures heard { IfOk result (λ o. state_in_held held.new ≡ heard (state_in_held held.old) event.now) }
    ensures rest { IfOk result (λ o. record held.new { counts = held.old.counts } ≡ held.old) }
    ensures back { IfOk result (λ o.
        with_counts o.switch (reverse o.exchanged) (told held.new.counts) ≡ told held.old.counts) }
    ensures memory { OnErr result (held.new ≡ held.old) }
{
    let Event::Msg { session, frame } = event else {
        return Ok(Overtaken::nothing(alloc, Heard::Nothing));
    };
    let Who::Switch(n) = session.who else {
        return Ok(Overtaken::nothing(alloc, Heard::Nothing));
    };
    hear_switch(alloc, held, n, frame.as_slice())
}
