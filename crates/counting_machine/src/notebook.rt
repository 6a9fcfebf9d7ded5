//! A machine whose state has a list, and whose events hold bytes.
ghost use Rattle.std.specs.Prelude.{◌≡◌, ◌==◌, length};
ghost use Rattle.counting_machine.specs.Notes.{noted, pages, blank_stays};

use cv_io::{Bytes, Duplicate, List, Memory, Steps};
use policy_lock::Machine;
use std::sync::ledger::Ledger;
use std::thread::Threads;

/// What is written down: bytes, and by whom.
#[derive(Drop)]
pub struct Note {
    pub author: u32,
    pub bytes: Bytes,
}

impl Duplicate for Note {
    fn copy(&self) -> Result<Note, Memory> {
        Ok(Note {
            author: self.author,
            bytes: self.bytes.copy()?,
        })
    }
}

/// Keeps the notes that it is told, and answers each with their number. One without bytes is idle.
#[derive(Drop)]
pub struct Notebook {
    pub notes: List<Note>,
    /// Who wrote the last one.
    pub last: u32,
}

impl Machine for Notebook {
    type Event = Note;

    type Reply = u64;

    type State = Notebook;

    ghost meaning = { λ book. book };

    ghost next = { noted };

    ghost reply = { λ book note. pages (noted book note) };

    ghost idle = { λ book note. length note.bytes == 0 };

    ghost ready = { λ _. Unit {0} };

    ghost cost = { λ _ _. 1 };

    ghost most = { λ _ _. 1 };

    fn step<R: Threads + Sync, G: Ledger>(
        &mut self,
        rt: &R,
        event: &Note,
        steps: &mut Steps<G>,
    ) -> Result<u64, Memory> {
        steps.tick();
        if !event.bytes.is_empty() {
            self.notes.push(event.copy()?)?;
            self.last = event.author;
        }
        Ok(self.notes.len() as u64)
    }

    fn glance(&self, event: &Note) -> Option<u64> {
        event.bytes.is_empty().then_some(self.notes.len() as u64)
    }

    fn copy(&self) -> Result<Notebook, Memory> {
        Ok(Notebook {
            notes: self.notes.copy()?,
            last: self.last,
        })
    }

    fn copy_event(event: &Note) -> Result<Note, Memory> {
        event.copy()
    }

    ghost idle_stays = { blank_stays };
}
