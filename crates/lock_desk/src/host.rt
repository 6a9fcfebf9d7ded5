//! What the desk needs of a machine.
ghost use Rattle.std.specs.Prelude.{◌≡◌, ◌<◌, ◌≤◌, ℕ, Bool, true, false, List, IfOk, OnErr};
ghost use Rattle.std.specs.Thread.{IsSync};
ghost use mathlib.Core.List.{IsPrefix};
ghost use Rattle.of10_frames.specs.Frames.{IsFrame};
ghost use Rattle.policy_lock.specs.Post.{IsPosted};
ghost use Rattle.policy_lock.specs.Seat.{IsSeatOf, IsSameSeat, IsLater};
ghost use Rattle.lock_desk.specs.Hosts.{IsDone, IsHeard, IsOpened, IsTaken};

use cv_io::Memory;
use events::{Event, Reply};
use policy_lock::{Machine, PolicyLock, Receipt, Seat};
use std::sync::Wait;
use std::thread::Threads;

/// A machine of sessions. It knows some members and switches, each of which comes up in a round of its own; what a
/// session sends is done, or refused once the session has ended; what waits for it can be taken.
pub trait Host {
    ghost use Rattle.cv_io.specs.declared.leaf.Who.{Who};
    ghost use Rattle.cv_io.specs.declared.leaf.Session.{Session};
    ghost use Rattle.events.specs.declared.event.Event.{Event};
    ghost use Rattle.events.specs.declared.event.Event.TheVariants.{Gone, Msg, Tick};

    type Machine: Machine<Event = Event, Reply = Reply>;

    // It knows this member or switch.
    ghost knows: { Self.Machine.State → Who → Type 0 };

    // It was told of this second, or of a later one.
    ghost is_at: { Self.Machine.State → ℕ → Type 0 };

    /// Posts an event to the machine's lock, as [`crate::post`] does.
    fn post<R: Wait + Threads + Sync>(
        rt: &R,
        lock: &PolicyLock<Self::Machine>,
        seat: &mut Seat<Self::Machine>,
        event: Event,
    ) -> Result<Receipt<Reply>, Memory>
        requires sync { IsSync R.row }
        requires seat { IsSeatOf lock.now seat.old }
        ensures seat { IsSameSeat seat.old seat.new }
        ensures posted { IfOk result (λ receipt. (steps : ℕ) × IsPosted ⟦<Self::Machine as Machine>⟧
            lock.now.start seat.old.pass seat.new.pass event receipt.place receipt.reply 0 steps) }
        ensures memory { OnErr result (IsLater seat.old.pass seat.new.pass) }
        ensures seen { IsPrefix seat.old.pass.seen seat.new.pass.seen };

    /// For which sessions something waited as the machine was last given back, a bit each. No promise.
    fn stirred(lock: &PolicyLock<Self::Machine>) -> u64;

    /// Whether much waited for a switch then. No promise.
    fn is_crowded(lock: &PolicyLock<Self::Machine>) -> bool;

    // And knows it ever after.
    ghost stays_known: { (s : Self.Machine.State) (e : Event) (who : Who) → knows s who
        → knows (Self.Machine.next s e) who };

    ghost opens: { (s : Self.Machine.State) (who : Who) (arp : Bool) → knows s who
        → IsOpened Self.Machine.idle Self.Machine.reply s who arp };

    ghost hears: { (s : Self.Machine.State) (session : Session) (frame : List ℕ) → IsFrame frame
        → IsHeard Self.Machine.idle Self.Machine.reply s session (Msg session frame) };

    ghost goes: { (s : Self.Machine.State) (session : Session)
        → IsHeard Self.Machine.idle Self.Machine.reply s session (Gone session) };

    ghost ticks: { (s : Self.Machine.State) (second : ℕ)
        → IsDone Self.Machine.idle Self.Machine.reply s (Tick second) };

    // A second that is idle it was told of, and of one that isn't it is told then.
    ghost told: { (s : Self.Machine.State) (second : ℕ) → Self.Machine.idle s (Tick second) ≡ true → is_at s second };

    ghost tells: { (s : Self.Machine.State) (second : ℕ) → Self.Machine.idle s (Tick second) ≡ false
        → is_at (Self.Machine.next s (Tick second)) second };

    // Seconds aren't taken back.
    ghost stays_told: { (s : Self.Machine.State) (e : Event) (second : ℕ) → is_at s second
        → is_at (Self.Machine.next s e) second };

    ghost earlier: { (s : Self.Machine.State) (second before : ℕ) → is_at s second → before ≤ second
        → is_at s before };

    ghost takes: { (s : Self.Machine.State) (session : Session)
        → IsTaken Self.Machine.idle Self.Machine.reply s session };
}
