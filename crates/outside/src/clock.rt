//! The clock.
ghost use Rattle.std.specs.Prelude.{◌≡◌, ℕ, max};
ghost use Rattle.outside.specs.Clock.{ClockOf, MayAnswer, first_moment, later_moments};

use cv_io::{Duplicate, List, Memory};
use std::marker::Model;
use std::thread;
use std::time::{self, Duration, SystemTime};

/// A clock of moments, in seconds. Each work has a copy of its own.
pub trait Clock {
    // The greatest moment that it answered.
    ghost greatest: { Self → ℕ };

    // It may answer this moment.
    ghost may: { Self → ℕ → Type 0 };

    /// The moment, in seconds.
    fn now(&mut self) -> u64
        ensures greatest { greatest self.new ≡ max (greatest self.old) result }
        ensures may { may self.old result }
        ensures no_more { (moment : ℕ) → may self.new moment → may self.old moment };

    /// Rests a while, after it rested `turns` times in a row.
    fn rest(&mut self, turns: u32)
        ensures greatest { greatest self.new ≡ greatest self.old }
        ensures no_more { (moment : ℕ) → may self.new moment → may self.old moment };
}

/// A clock that answers listed moments in order, the last one ever after, and 0 where none is listed.
#[derive(Drop, Debug)]
pub struct MemClock {
    seconds: List<u64>,
    at: usize,
    greatest: u64,
}

impl Model for MemClock {
    ghost use Rattle.std.specs.Prelude.{◌≤◌, drop, length};
    ghost use Rattle.outside.specs.Clock.{ClockOf};

    ghost Value = { ClockOf };

    ghost view = { λ c. record { left = drop c.at c.seconds; greatest = c.greatest } };

    ghost invariant = { λ c. c.at ≤ length c.seconds };
}

impl MemClock {
    /// A clock of these moments, in seconds.
    pub fn new(seconds: List<u64>) -> Self
        ensures { result ≡ record { left = seconds; greatest = 0 } }
    {
        MemClock {
            seconds,
            at: 0,
            greatest: 0,
        }
    }
}

impl Clock for MemClock {
    ghost use Rattle.outside.specs.Clock.{MayAnswer};

    ghost greatest = { λ c. c.greatest };

    ghost may = { λ c moment. MayAnswer c.left moment };

    fn now(&mut self) -> u64
        ensures moment { result ≡ first_moment self.old.left }
        ensures left { self.new.left ≡ later_moments self.old.left }
        ensures greatest { self.new.greatest ≡ max self.old.greatest result }
        ensures may { MayAnswer self.old.left result }
        ensures no_more { (moment : ℕ) → MayAnswer self.new.left moment → MayAnswer self.old.left moment }
    {
        let moment = match self.seconds.get(self.at) {
            Some(moment) => *moment,
            None => 0,
        };
        if self.seconds.len() - self.at > 1 {
            self.at += 1;
        }
        self.greatest = self.greatest.max(moment);
        moment
    }

    fn rest(&mut self, _turns: u32)
        ensures { self.new ≡ self.old }
    {
        let _ = &self.at;
    }
}

impl Duplicate for MemClock {
    fn copy(&self) -> Result<Self, Memory> {
        Ok(MemClock {
            seconds: self.seconds.copy()?,
            at: self.at,
            greatest: self.greatest,
        })
    }
}

/// The machine's clock: seconds since the start of 1970, by the universal time. Where it can't be
/// read, the greatest moment that it answered stands.
#[derive(Drop)]
pub struct SystemClock<'a, R> {
    rt: &'a R,
    greatest: u64,
}

impl<'a, R: time::Clock> SystemClock<'a, R> {
    pub fn new(rt: &'a R) -> Self
        ensures { result.greatest ≡ 0 }
    {
        SystemClock { rt, greatest: 0 }
    }

    fn moment(&self) -> u64 {
        match SystemTime::now(self.rt) {
            Ok(now) => match now.duration_since(SystemTime::UNIX_EPOCH) {
                Ok(passed) => passed.as_secs(),
                Err(_) => self.greatest,
            },
            Err(_) => self.greatest,
        }
    }
}

impl<R> Duplicate for SystemClock<'_, R> {
    fn copy(&self) -> Result<Self, Memory> {
        Ok(SystemClock {
            rt: self.rt,
            greatest: self.greatest,
        })
    }
}

impl<R: time::Clock> Clock for SystemClock<'_, R> {
    ghost use Rattle.std.specs.Prelude.{⊤};

    ghost greatest = { λ c. c.greatest };

    // Nothing is known of the time.
    ghost may = { λ _ _. ⊤ };

    fn now(&mut self) -> u64 {
        let moment = self.moment();
        self.greatest = self.greatest.max(moment);
        moment
    }

    /// Rests a sixteenth of a millisecond, twice as long at each further turn, and from the fifth on a millisecond.
    fn rest(&mut self, turns: u32) {
        let microseconds = match turns {
            0 => 62,
            1 => 125,
            2 => 250,
            3 => 500,
            _ => 1000,
        };
        thread::sleep(self.rt, Duration::from_micros(microseconds));
    }
}
