//! What the lock needs of a machine.
ghost use Rattle.std.specs.Prelude.{◌≡◌, ◌≤◌, ◌+◌, ℕ, Bool, true, false, MatchResult, MatchOption, IfOk};
ghost use denote.Param.Send.{IsSync};

use crate::marks::Marks;
use cv_io::{Memory, Steps};
use std::sync::ledger::Ledger;
use std::thread::Threads;

/// A machine: it takes events one after the other, and answers each.
pub trait Machine: Drop + Send {
    type Event: Drop + Send;

    type Reply: Drop + Send;

    /// What a machine means. No value of it is made: it is a type for contracts.
    type State: Send;

    ghost meaning: { Self → Self.State };

    // The rule: the next meaning, and the reply.
    ghost next: { Self.State → Self.Event → Self.State };

    ghost reply: { Self.State → Self.Event → Self.Reply };

    // The events that `glance` answers. They leave the meaning as it is, as `idle_stays` says.
    ghost idle: { Self.State → Self.Event → Bool };

    // How many steps an event takes at most: `cost` where the machine is ready, and `most` always.
    ghost ready: { Self → Type 0 };

    ghost cost: { Self.State → Self.Event → ℕ };

    ghost most: { Self.State → Self.Event → ℕ };

    /// Takes the event as the rule says, and gives its reply. Without memory the meaning stays.
    fn step<R: Threads + Sync, G: Ledger>(
        &mut self,
        rt: &R,
        event: &Self::Event,
        steps: &mut Steps<G>,
    ) -> Result<Self::Reply, Memory>
        // A caller knows it by the bound on R, who implements this by the clause.
        requires { IsSync R.row }
        ensures cost { ready self.old → steps.new ≤ steps.old + cost (meaning self.old) event.now }
        ensures most { steps.new ≤ steps.old + most (meaning self.old) event.now }
        ensures stepped { MatchResult result
            (λ r. (r ≡ reply (meaning self.old) event.now) × (meaning self.new ≡ next (meaning self.old) event.now))
            (λ _. meaning self.new ≡ meaning self.old) };

    /// The reply of an idle event, and None for every other.
    fn glance(&self, event: &Self::Event) -> Option<Self::Reply>
        ensures { MatchOption result
            (idle (meaning self.now) event.now ≡ false)
            (λ r. (idle (meaning self.now) event.now ≡ true) × (r ≡ reply (meaning self.now) event.now)) };

    /// Whether the event, which has waited so many milliseconds, had better wait on. No promise rests on it.
    fn holds(&self, _event: &Self::Event, _turns: u32) -> bool {
        false
    }

    /// What waits in the machine. No promise rests on it.
    fn marks(&self) -> Marks {
        Marks::none()
    }

    /// A machine with the same meaning.
    fn copy(&self) -> Result<Self, Memory>
        ensures { IfOk result (λ m. meaning m ≡ meaning self.now) };

    /// A copy of an event.
    fn copy_event(event: &Self::Event) -> Result<Self::Event, Memory>
        ensures { IfOk result (λ copied. copied ≡ event.now) };

    ghost idle_stays: { (s : Self.State) (e : Self.Event) → idle s e ≡ true → next s e ≡ s };
}
