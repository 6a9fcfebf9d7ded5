//! What the words ask for.
ghost use Rattle.std.specs.Prelude.{◌<◌, ◌≤◌, IfSome};

use std::env::Args;

/// What is done.
#[derive(Clone, Copy)]
pub enum Phases {
    /// Entries are added.
    Adds,
    /// And each gets other actions.
    AddsAndModifies,
    /// And each is taken out.
    Each,
    /// Entries are added, and one message takes all out.
    All,
}

/// So many entries, of so many priorities, and what is done.
#[derive(Clone, Copy)]
pub struct Asked {
    pub entries: u16,
    pub phases: Phases,
    pub priorities: u16,
    ghost some: { 0 < priorities },
}

/// Without words: few entries of 64 priorities, each of which is added, changed and taken out.
pub const FEW: Asked = Asked {
    entries: 64,
    phases: Phases::Each,
    priorities: 64,
};

/// The number from 1 to a limit that a word spells.
fn number(word: &str, limit: u16) -> Option<u16>
    ensures { IfSome result (λ n. (0 < n) × (n ≤ limit)) }
{
    let number: u16 = word.parse().ok()?;
    if 0 < number && number <= limit {
        Some(number)
    } else {
        None
    }
}

fn phases_of(word: &str) -> Option<Phases> {
    match word {
        "add" => Some(Phases::Adds),
        "modify" => Some(Phases::AddsAndModifies),
        "delete" => Some(Phases::Each),
        "all" => Some(Phases::All),
        _ => None,
    }
}

/// What the words ask for, after the part's name.
pub fn read(words: &mut Args) -> Option<Asked> {
    let Some(entries) = words.next() else {
        return Some(FEW);
    };
    let done = words.next()?;
    let priorities = words.next()?;
    if words.next().is_some() {
        return None;
    }
    Some(Asked {
        entries: number(&entries, 4096)?,
        phases: phases_of(&done)?,
        priorities: number(&priorities, 4096)?,
    })
}
