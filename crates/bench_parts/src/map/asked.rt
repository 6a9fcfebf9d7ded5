//! What the words ask for.
ghost use Rattle.std.specs.Prelude.{◌<◌, ◌≤◌, IfSome};

use std::env::Args;

/// How many members the policy has.
#[derive(Clone, Copy)]
pub enum Members {
    One,
    Four,
    Twelve,
}

/// So many members with so many entries each, and how many headers come.
#[derive(Clone, Copy)]
pub struct Asked {
    pub members: Members,
    pub entries: u32,
    pub headers: u32,
    ghost some: { (0 < entries) × (entries ≤ 4096) },
}

/// Without words: a few entries of four members.
pub const FEW: Asked = Asked {
    members: Members::Four,
    entries: 64,
    headers: 1000,
};

impl Members {
    pub fn count(self) -> u32 {
        match self {
            Members::One => 1,
            Members::Four => 4,
            Members::Twelve => 12,
        }
    }

    /// How they are composed: those before the last two see packets, and of these the first passes
    /// packets on to the second.
    pub fn expr(self) -> &'static str {
        match self {
            Members::One => "a",
            Members::Four => "a + b + (c >> d)",
            Members::Twelve => "a + b + c + d + e + f + g + h + i + j + (k >> l)",
        }
    }

    /// Whether a member passes packets on.
    pub fn passes(self, member: u32) -> bool {
        match self {
            Members::One => false,
            Members::Four => member == 2,
            Members::Twelve => member == 10,
        }
    }
}

fn members_of(word: &str) -> Option<Members> {
    match word {
        "1" => Some(Members::One),
        "4" => Some(Members::Four),
        "12" => Some(Members::Twelve),
        _ => None,
    }
}

/// The number from 1 to 4,096 that a word spells.
fn entries_of(word: &str) -> Option<u32>
    ensures { IfSome result (λ n. (0 < n) × (n ≤ 4096)) }
{
    let number: u32 = word.parse().ok()?;
    if 0 < number && number <= 4096 {
        Some(number)
    } else {
        None
    }
}

/// What the words ask for, after the part's name.
pub fn read(words: &mut Args) -> Option<Asked> {
    let Some(first) = words.next() else {
        return Some(FEW);
    };
    let second = words.next()?;
    let third = words.next()?;
    if words.next().is_some() {
        return None;
    }
    Some(Asked {
        members: members_of(&first)?,
        entries: entries_of(&second)?,
        headers: third.parse().ok()?,
    })
}
