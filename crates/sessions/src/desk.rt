//! Where sessions post.
ghost use Rattle.std.specs.Prelude.{◌≡◌, ◌≤◌, ◌∷◌, ◌++◌, [], ℕ, List, IfOk, OnOk, OnErr};
ghost use Rattle.of10_frames.specs.Frames.{IsFrame};
ghost use Rattle.sessions.specs.Posts.{AddsHeard, AddsTaken, Finds, IsRefusedWhere, MayAdd, StillShows};
ghost use Rattle.sessions.specs.Posts.{coming_up, going, message, second_told};

use cv_io::{Bytes, Memory, Session, Who};
use events::{Event, Reply};
use outside::Clock;

/// A post that was not idle: its event, and the answer to it. Contracts speak of such posts.
#[derive(Drop, Debug)]
pub struct Post {
    pub event: Event,
    pub reply: Reply,
}

/// What became of a frame, or of a going.
#[derive(Clone, Copy, PartialEq, Eq, Debug)]
pub enum Heard {
    /// It was taken.
    Heard,
    /// The session had ended, after so many entries at the latest.
    Closed { at: u64 },
}

/// What became of a taking.
#[derive(Drop, Debug)]
pub enum Taken {
    /// The first message that waited.
    Message(Bytes),
    /// None waited after so many entries.
    Empty { at: u64 },
    /// The session had ended, after so many entries at the latest.
    Closed { at: u64 },
}

/// Where sessions post. Each call that takes a pass is one post, and may wait.
///
/// Who posts has a pass. Contracts see of it the posts that were made with it, each with its answer, without the idle
/// ones, which changed nothing: a refused frame or going, a taking that found nothing, a second that is not above those
/// told before.
pub trait Desk {
    ghost use Rattle.cv_io.specs.declared.leaf.Who.{Who};
    ghost use Rattle.cv_io.specs.declared.leaf.Session.{Session};
    ghost use Rattle.sessions.specs.declared.desk.Post.{Post};

    type Pass;

    // It serves these.
    ghost serves: { Self → Who → Type 0 };

    // The pass is for this desk.
    ghost admits: { Self → Self.Pass → Type 0 };

    // The posts of a pass that were not idle, with their answers, in order.
    ghost posts: { Self.Pass → List Post };

    // After so many entries, as the pass has seen them, the session had ended.
    ghost ended: { Self.Pass → Session → ℕ → Type 0 };

    // After so many entries, as the pass has seen them, nothing waited for the session.
    ghost waits: { Self.Pass → Session → ℕ → Type 0 };

    // As far as the pass has seen, the clock has come to this second.
    ghost shows: { Self.Pass → ℕ → Type 0 };

    /// A member or a switch comes up, in its next round.
    fn up(&self, pass: &mut Self::Pass, who: Who, arp: bool) -> Result<Session, Memory>
        requires pass { admits self.now pass.old }
        requires served { serves self.now who }
        ensures pass { admits self.now pass.new }
        ensures shown { StillShows (shows pass.old) (shows pass.new) }
        ensures who { IfOk result (λ session. session.who ≡ who) }
        ensures posted { IfOk result (λ session. posts pass.new
            ≡ posts pass.old ++ coming_up who arp session.round ∷ []) }
        ensures memory { OnErr result (posts pass.new ≡ posts pass.old) };

    /// The session sent a frame.
    fn hear(&self, pass: &mut Self::Pass, session: &Session, frame: Bytes) -> Result<Heard, Memory>
        requires pass { admits self.now pass.old }
        requires frame { IsFrame frame }
        ensures pass { admits self.now pass.new }
        ensures shown { StillShows (shows pass.old) (shows pass.new) }
        ensures posted { IfOk result (AddsHeard (posts pass.old) (posts pass.new) (message session.now frame)) }
        ensures closed { IfOk result (IsRefusedWhere (ended pass.new session.now)) }
        ensures memory { OnErr result (posts pass.new ≡ posts pass.old) };

    /// The session went.
    fn gone(&self, pass: &mut Self::Pass, session: &Session) -> Result<Heard, Memory>
        requires { admits self.now pass.old }
        ensures pass { admits self.now pass.new }
        ensures shown { StillShows (shows pass.old) (shows pass.new) }
        ensures posted { IfOk result (AddsHeard (posts pass.old) (posts pass.new) (going session.now)) }
        ensures closed { IfOk result (IsRefusedWhere (ended pass.new session.now)) }
        ensures memory { OnErr result (posts pass.new ≡ posts pass.old) };

    /// The clock shows this second.
    fn tick(&self, pass: &mut Self::Pass, second: u64) -> Result<(), Memory>
        requires { admits self.now pass.old }
        ensures pass { admits self.now pass.new }
        ensures shown { StillShows (shows pass.old) (shows pass.new) }
        ensures posted { OnOk result (MayAdd (posts pass.old) (posts pass.new) (second_told second)) }
        ensures shows { OnOk result (shows pass.new second) }
        ensures memory { OnErr result (posts pass.new ≡ posts pass.old) };

    /// Takes the first message that waits for the session.
    fn take(&self, pass: &mut Self::Pass, session: &Session) -> Result<Taken, Memory>
        requires { admits self.now pass.old }
        ensures pass { admits self.now pass.new }
        ensures shown { StillShows (shows pass.old) (shows pass.new) }
        ensures posted { IfOk result (AddsTaken (posts pass.old) (posts pass.new) session.now) }
        ensures found { IfOk result (Finds (ended pass.new session.now) (waits pass.new session.now)) }
        ensures memory { OnErr result (posts pass.new ≡ posts pass.old) };

    /// Whether a second may be posted now. Who may not looks at its clock later.
    fn may_tick(&self) -> bool {
        true
    }

    /// Rests a while, after it rested `turns` times in a row, and no longer than until something waits for the session or
    /// it has ended, if the desk can tell.
    fn rest<C: Clock>(&self, _session: &Session, clock: &mut C, turns: u32)
        ensures greatest { C.greatest clock.new ≡ C.greatest clock.old }
        ensures no_more { (moment : ℕ) → C.may clock.new moment → C.may clock.old moment }
    {
        clock.rest(turns);
    }

    /// Ends a rest for the session, if the desk can.
    fn wake(&self, _session: &Session) {}

    // Where it has come to a second it has come to those before.
    ghost earlier: { (pass : Self.Pass) (second before : ℕ) → shows pass second → before ≤ second → shows pass before };
}
