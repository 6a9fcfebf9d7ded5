//! Standard output, as the operator is told of it.
ghost use Rattle.std.specs.Prelude.{◌≡◌};

use log::sink::Console;
use log::{LevelFilter, Logged, error};
use outside::{Failed, Sink};
use std::time::{Clock, Duration, Instant};
use tcp_links::Moment;

// How long it isn't told again, in seconds.
const QUIET: u64 = 60;

/// A sink of which standard error says that it is broken: as it breaks, and at a flush while it is so, once a minute.
#[derive(Drop)]
pub(crate) struct Watched<'a, R, K> {
    rt: &'a R,
    sink: K,
    broken: bool,
    /// When it was told last.
    told: Option<Instant>,
}

impl<'a, R: Clock + Eprint, K: Sink> Watched<'a, R, K> {
    pub(crate) fn new(rt: &'a R, sink: K) -> Self {
        Watched {
            rt,
            sink,
            broken: false,
            told: None,
        }
    }

    /// Tells that it is broken, unless that was told a short while ago.
    fn tell(&mut self)
        ensures { self.new.sink ≡ self.old.sink }
    {
        if let Some(told) = self.told {
            let passed = told.elapsed(self.rt).unwrap_or(Duration::ZERO);
            if passed < Duration::from_secs(QUIET) {
                return;
            }
        }
        self.told = Instant::now(self.rt).ok();
        let log = Logged::new(self.rt, LevelFilter::Error, Console(self.rt));
        error!(log; target: "output", "lost at={}", Moment::now(self.rt));
    }
}

impl<R: Clock + Eprint, K: Sink> Sink for Watched<'_, R, K> {
    ghost held = { λ w. K.held w.sink };

    ghost faults = { λ w. K.faults w.sink };

    ghost wants = { λ w. K.wants w.sink };

    ghost is_reliable = { λ w. K.is_reliable w.sink };

    fn wants(&self) -> u64 {
        self.sink.wants()
    }

    fn write(&mut self, piece: &[u8]) -> Result<usize, Failed> {
        let result = self.sink.write(piece);
        if result.is_err() {
            self.broken = true;
            self.tell();
        }
        result
    }

    fn flush(&mut self) -> Result<(), Failed> {
        let result = self.sink.flush();
        self.broken = self.broken || result.is_err();
        if self.broken {
            self.tell();
        }
        result
    }
}
