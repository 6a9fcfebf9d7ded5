//! What the words ask for.
use fitting_changes::Shape;
use std::env::Args;

/// Which packets entries hold.
#[derive(Clone, Copy, PartialEq, Eq)]
pub enum Kind {
    /// One flow each.
    Exact,
    /// Nets of 12 to 32 bits.
    Prefix,
    /// One address each, but for a few of the left member, which hold a protocol.
    Wild,
}

/// What is done with composed rules, a turn each time.
#[derive(Clone, Copy, PartialEq, Eq)]
pub enum Phase {
    /// The rules are counted.
    Count,
    /// An entry comes to the left member.
    Adds,
    /// An entry comes in each turn, and then each of these goes.
    Both,
    /// All is composed anew.
    Anew,
}

/// Two members of so many entries under an operator, and what is done in so many turns.
#[derive(Clone, Copy)]
pub struct Asked {
    pub shape: Shape,
    pub kind: Kind,
    pub rules: u16,
    pub phase: Phase,
    pub turns: u16,
}

/// Few entries come and go.
pub const FEW: Asked = Asked {
    shape: Shape::Parallel,
    kind: Kind::Prefix,
    rules: 64,
    phase: Phase::Both,
    turns: 16,
};

/// What the words ask for, after the part's name.
pub fn read(words: &mut Args) -> Option<Asked> {
    let shape = match words.next()?.as_str() {
        "plus" => Shape::Parallel,
        "seq" => Shape::Sequential,
        "over" => Shape::Override,
        _ => return None,
    };
    let kind = match words.next()?.as_str() {
        "exact" => Kind::Exact,
        "prefix" => Kind::Prefix,
        "wild" => Kind::Wild,
        _ => return None,
    };
    let rules = words.next()?.parse().ok()?;
    let phase = match words.next()?.as_str() {
        "count" => Phase::Count,
        "add" => Phase::Adds,
        "both" => Phase::Both,
        "anew" => Phase::Anew,
        _ => return None,
    };
    let turns = words.next()?.parse().ok()?;
    Some(Asked {
        shape,
        kind,
        rules,
        phase,
        turns,
    })
}
