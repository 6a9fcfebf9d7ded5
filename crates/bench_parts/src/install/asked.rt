//! What the words ask for.
ghost use Rattle.std.specs.Prelude.{◌<◌, ◌≤◌, IfSome};

use std::env::Args;

/// What is done in each round.
#[derive(Clone, Copy)]
pub enum Phase {
    Nothing,
    /// So many entries change.
    Changes(u32),
    /// One entry changes, and the change is taken back.
    Undone,
    /// All is installed anew.
    Whole,
    /// A switch reports on one entry.
    Report,
    /// The entry of one packet is asked for.
    Best,
}

/// So many entries of so many priorities, what is done in each round, and how many rounds.
#[derive(Clone, Copy)]
pub struct Asked {
    pub entries: u32,
    pub phase: Phase,
    pub rounds: u32,
    pub priorities: u32,
    ghost some: { (0 < entries) × (0 < priorities) × (priorities ≤ 60000) },
}

/// Without words: few entries, of which a hundred change.
pub const FEW: Asked = Asked {
    entries: 200,
    phase: Phase::Changes(100),
    rounds: 3,
    priorities: 64,
};

/// The number from 1 to 60,000 that a word spells.
fn number(word: &str) -> Option<u32>
    ensures { IfSome result (λ n. (0 < n) × (n ≤ 60000)) }
{
    let number: u32 = word.parse().ok()?;
    if 0 < number && number <= 60000 {
        Some(number)
    } else {
        None
    }
}

fn phase_of(word: &str) -> Option<Phase> {
    match word {
        "none" => Some(Phase::Nothing),
        "one" => Some(Phase::Changes(1)),
        "hundred" => Some(Phase::Changes(100)),
        "undo" => Some(Phase::Undone),
        "whole" => Some(Phase::Whole),
        "report" => Some(Phase::Report),
        "best" => Some(Phase::Best),
        _ => None,
    }
}

/// What the words ask for, after the part's name.
pub fn read(words: &mut Args) -> Option<Asked> {
    let Some(entries) = words.next() else {
        return Some(FEW);
    };
    let phase = words.next()?;
    let rounds = words.next()?;
    let priorities = words.next()?;
    if words.next().is_some() {
        return None;
    }
    Some(Asked {
        entries: number(&entries)?,
        phase: phase_of(&phase)?,
        rounds: number(&rounds)?,
        priorities: number(&priorities)?,
    })
}
