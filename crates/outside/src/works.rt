//! Works that run beside one another.
ghost use Rattle.std.specs.Prelude.{◌≡◌, ◌≤◌, ℕ, OnOk, OnErr};
ghost use Rattle.outside.specs.Outside.{Rose};
ghost use Rattle.outside.specs.Works.{AllChanged, AllReady};

use crate::calls::Failed;
use cv_io::List;
use std::thread;
use std::thread::Threads;

/// A piece of work.
pub trait Work: Send {
    // What holds of the work before it is done.
    ghost ready: { Self → Type 0 };

    // How the work is after it, from how it was before.
    ghost changes: { Self → Self → Type 0 };

    fn work(&mut self)
        requires { ready self.old }
        ensures { changes self.old self.new };
}

/// What runs works beside one another.
pub trait Spawner {
    // How many calls failed.
    ghost faults: { Self → ℕ };

    /// Whether works may run now.
    fn admit(&mut self) -> Result<(), Failed>
        ensures quiet { OnOk result (faults self.new ≡ faults self.old) }
        ensures fault { OnErr result (Rose (faults self.old) (faults self.new)) }
        ensures never_falls { faults self.old ≤ faults self.new };

    /// Runs every work beside the others, and returns when all have ended. Where it fails none ran.
    final fn all<R: Threads + Sync, W: Work + Send>(
        &mut self,
        rt: &R,
        works: &mut List<W>,
    ) -> Result<(), Failed>
        requires { AllReady W.ready works.old }
        ensures done { OnOk result (AllChanged W.changes works.old works.new) }
        ensures none { OnErr result (works.new ≡ works.old) }
        ensures quiet { OnOk result (faults self.new ≡ faults self.old) }
        ensures fault { OnErr result (Rose (faults self.old) (faults self.new)) }
        ensures never_falls { faults self.old ≤ faults self.new }
    {
        self.admit()?;
        run_all(rt, works.as_mut_slice());
        Ok(())
    }
}

/// Runs works without fail. Where no thread can be had the caller does the work itself.
#[derive(Clone, Copy, Debug)]
pub struct ScopeSpawner {}

impl ScopeSpawner {
    pub fn new() -> Self {
        ScopeSpawner {}
    }
}

impl Spawner for ScopeSpawner {
    ghost faults = { λ _. 0 };

    fn admit(&mut self) -> Result<(), Failed> {
        Ok(())
    }
}

/// Runs each work in a thread of its own, and joins them all. Where no thread can be had the caller
/// does the work itself.
fn run_all<R: Threads + Sync, W: Work + Send>(rt: &R, works: &mut [W])
    requires { AllReady W.ready works.old }
    ensures { AllChanged W.changes works.old works.new }
{
    let threads = works.len().max(1);
    let done = |_: usize, work: &mut W|
        requires { W.ready work.now }
        ensures { W.changes work.entry.now work.exit.now }
    { work.work() };
    thread::for_each_mut(rt, works, threads, &done);
}
