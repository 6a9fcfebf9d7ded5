//! Connections of a row. Each says what the row gives it, may wait for what is written to another, and ends once so
//! many bytes were written to it: what is written is then the same however the works of the program take turns.
ghost use Rattle.std.specs.Prelude.{◌≡◌, ◌<◌, ◌≤◌, length};

use cv_io::{Bytes, List, Memory};
use outside::{Dial, Endpoint, Failed, Links, Sink, Source, Spawner};
use std::sync::{Condvar, Mutex, Wait};

/// Who is at the other end, by its number in the policy.
#[derive(Clone, Copy, PartialEq, Eq, Debug)]
pub enum Party {
    Member { index: u32 },
    Switch { index: u32 },
}

impl Party {
    fn of(end: &Endpoint) -> Option<Party> {
        match end {
            Endpoint::Member { index, .. } => Some(Party::Member { index: *index }),
            Endpoint::Switch { index, .. } => Some(Party::Switch { index: *index }),
            _ => None,
        }
    }
}

/// A wait of a connection: before which of its bytes, and until how many were written to whom.
#[derive(Clone, Copy, PartialEq, Eq, Debug)]
pub struct Pause {
    pub at: usize,
    pub party: Party,
    pub until: usize,
}

/// A connection: whose it is, what it says, where it waits meanwhile, and after how many bytes that were written to it
/// it ends.
#[derive(Drop)]
pub struct Wire {
    pub party: Party,
    pub says: Bytes,
    /// At most one at a place, by rising places.
    pub pauses: List<Pause>,
    /// A write by which more bytes than these were written to it lasts until it says nothing more.
    pub holds: usize,
    pub until: usize,
}

/// What was written to a connection, and whether it says nothing more.
#[derive(Drop)]
struct Sheet {
    bytes: Bytes,
    is_silent: bool,
}

#[derive(Drop)]
pub struct Written {
    sheet: Mutex<Sheet>,
    changed: Condvar,
}

impl Written {
    pub fn new(bytes: Bytes) -> Self {
        Written {
            sheet: Mutex::new(Sheet {
                bytes,
                is_silent: false,
            }),
            changed: Condvar::new(),
        }
    }

    /// Tells how many bytes there are then.
    fn append<R: Wait>(&self, rt: &R, piece: &[u8]) -> Result<usize, Memory> {
        let mut sheet = self.sheet.lock(rt);
        sheet.bytes.extend_from_slice(piece)?;
        self.changed.notify_all();
        Ok(sheet.bytes.len())
    }

    fn fall_silent<R: Wait>(&self, rt: &R) {
        self.sheet.lock(rt).is_silent = true;
        self.changed.notify_all();
    }

    /// Waits until there are so many bytes.
    fn reach<R: Wait>(&self, rt: &R, until: usize) {
        let _reached = self
            .changed
            .wait_while(rt, self.sheet.lock(rt), |sheet| sheet.bytes.len() < until);
    }

    /// Waits until the connection says nothing more.
    fn outlast<R: Wait>(&self, rt: &R) {
        let _silent = self
            .changed
            .wait_while(rt, self.sheet.lock(rt), |sheet| !sheet.is_silent);
    }

    /// What was written so far.
    pub fn copy<R: Wait>(&self, rt: &R) -> Result<Bytes, Memory> {
        self.sheet.lock(rt).bytes.copied()
    }
}

/// The connections of a row, with what was written to each.
#[derive(Clone, Copy)]
pub struct Wires<'a> {
    pub wires: &'a [Wire],
    pub written: &'a [Written],
}

impl<'a> Wires<'a> {
    /// The first that is this party's.
    fn find(self, party: Party) -> Option<(&'a Wire, &'a Written)> {
        for (wire, written) in self.wires.iter().zip(self.written) {
            if wire.party == party {
                return Some((wire, written));
            }
        }
        None
    }
}

/// What a connection says.
pub struct Saying<'a, R: Wait> {
    rt: &'a R,
    all: Wires<'a>,
    wire: &'a Wire,
    written: &'a Written,
    /// How many bytes were said, and how many pauses are over.
    at: usize,
    over: usize,
}

impl<R: Wait> Drop for Saying<'_, R> {
    fn drop(self) {
        let Saying {
            rt,
            all: _all,
            wire: _wire,
            written,
            at: _at,
            over: _over,
        } = self;
        written.fall_silent(rt);
    }
}

impl<R: Wait> Saying<'_, R> {
    /// Waits where a pause stands. Returns how far it then says on.
    fn pause(&mut self) -> usize {
        let pauses = self.wire.pauses.as_slice();
        if let Some(pause) = pauses.get(self.over)
            && pause.at <= self.at
        {
            if let Some((_, written)) = self.all.find(pause.party) {
                written.reach(self.rt, pause.until);
            }
            self.over = self.over.saturating_add(1);
        }
        let all = self.wire.says.len();
        match pauses.get(self.over) {
            Some(pause) => pause.at.min(all),
            None => all,
        }
    }
}

impl<R: Wait + Sync> Source for Saying<'_, R> {
    ghost use Rattle.std.specs.Prelude.{None, true};

    ghost remaining = { λ _. None };

    ghost faults = { λ _. 0 };

    ghost is_reliable = { λ _. true };

    fn read(&mut self, into: &mut [u8]) -> Result<usize, Failed> {
        let end = self.pause();
        let left = self.wire.says.as_slice().get(self.at..end).unwrap_or(&[]);
        if left.is_empty() {
            self.written.fall_silent(self.rt);
            self.written.reach(self.rt, self.wire.until);
            return Ok(0);
        }
        let taken = left.len().min(into.len());
        into[..taken].copy_from_slice(&left[..taken]);
        self.at = self.at.saturating_add(taken);
        Ok(taken)
    }
}

/// What is written to a connection.
#[derive(Drop)]
pub struct Writing<'a, R> {
    rt: &'a R,
    wire: &'a Wire,
    written: &'a Written,
    faults: u64,
}

impl<R: Wait + Sync> Sink for Writing<'_, R> {
    ghost use Rattle.std.specs.Prelude.{None, true};

    ghost held = { λ _. None };

    ghost faults = { λ s. s.faults };

    ghost wants = { λ s. s.faults };

    ghost is_reliable = { λ _. true };

    fn wants(&self) -> u64 {
        self.faults
    }

    fn write(&mut self, piece: &[u8]) -> Result<usize, Failed> {
        match self.written.append(self.rt, piece) {
            Ok(written) => {
                if written > self.wire.holds {
                    self.written.outlast(self.rt);
                }
                Ok(piece.len())
            }
            Err(Memory) => {
                self.faults = self.faults.saturating_add(1);
                Err(Failed)
            }
        }
    }
}

/// The connections of an endpoint: the first of the row's that is its own, or none.
#[derive(Drop)]
pub struct RowDial<'a, R> {
    rt: &'a R,
    all: Wires<'a>,
    next: Option<(&'a Wire, &'a Written)>,
}

impl<'a, R: Wait + Sync> Dial for RowDial<'a, R> {
    ghost use Rattle.std.specs.Prelude.{None, true};

    type In = Saying<'a, R>;

    type Out = Writing<'a, R>;

    ghost left = { λ _. None };

    ghost faults = { λ _. 0 };

    ghost is_reliable = { λ _. true };

    fn next(&mut self) -> Result<Option<(Saying<'a, R>, Writing<'a, R>)>, Failed> {
        let Some((wire, written)) = self.next.take() else {
            return Ok(None);
        };
        let saying = Saying {
            rt: self.rt,
            all: self.all,
            wire,
            written,
            at: 0,
            over: 0,
        };
        let writing = Writing {
            rt: self.rt,
            wire,
            written,
            faults: 0,
        };
        Ok(Some((saying, writing)))
    }
}

/// The connections of a row.
#[derive(Drop)]
pub struct RowLinks<'a, R> {
    rt: &'a R,
    all: Wires<'a>,
    /// The next dial fails.
    fails: bool,
    faults: u64,
}

impl<'a, R> RowLinks<'a, R> {
    pub fn new(rt: &'a R, all: Wires<'a>, fails: bool) -> Self {
        RowLinks {
            rt,
            all,
            fails,
            faults: 0,
        }
    }

    fn wire_of(&self, end: &Endpoint) -> Option<(&'a Wire, &'a Written)> {
        self.all.find(Party::of(end)?)
    }
}

impl<'a, R: Wait + Sync> Links for RowLinks<'a, R> {
    ghost use Rattle.std.specs.Prelude.{None, true};

    type Dial = RowDial<'a, R>;

    ghost told = { λ _ _. None };

    ghost is_reliable = { λ _ _. true };

    ghost faults = { λ l. l.faults };

    fn dial(&mut self, end: &Endpoint) -> Result<RowDial<'a, R>, Failed> {
        if self.fails {
            self.fails = false;
            self.faults = self.faults.saturating_add(1);
            return Err(Failed);
        }
        Ok(RowDial {
            rt: self.rt,
            all: self.all,
            next: self.wire_of(end),
        })
    }
}

/// Runs works, or fails.
#[derive(Drop)]
pub struct RowSpawner {
    fails: bool,
    faults: u64,
}

impl RowSpawner {
    pub fn new(fails: bool) -> Self {
        RowSpawner { fails, faults: 0 }
    }
}

impl Spawner for RowSpawner {
    ghost faults = { λ s. s.faults };

    fn admit(&mut self) -> Result<(), Failed> {
        if self.fails {
            self.faults = self.faults.saturating_add(1);
            return Err(Failed);
        }
        Ok(())
    }
}
