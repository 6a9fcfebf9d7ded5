//! Entries of a member's table.
ghost use Rattle.std.specs.Prelude.{◌≡◌, ◌↔◌, ◌<◌, ℕ, IsTrue, false};
ghost use Rattle.std.specs.List.{list_any};
ghost use Rattle.member_table.specs.Entries.{identity_of};
ghost use Rattle.member_table.specs.InsideKept.{IsQuietUntil};
ghost use Rattle.member_table.specs.Tables.{is_output_to as is_output_to_of, outputs_to as outputs_to_of};
ghost use Rattle.member_table.specs.Timeouts.{has_passed as has_passed_of, is_hard_due as is_hard_due_of};
ghost use Rattle.member_table.specs.Timeouts.{is_idle_due as is_idle_due_of};

use cv_io::{Duplicate, List, Memory};
use of10_actions::{Action, port};
use of10_match::Match;
use of10_msgs::MATCH;

/// What tells the entries of one table apart: no two have equal ranks and equal matches.
#[derive(Clone, Copy, PartialEq, Eq, Hash, Debug)]
pub struct Identity {
    pub rank: u32,
    pub normal: Match,
}

/// An entry of a member's table.
#[derive(PartialEq, Eq, Debug, Drop)]
pub struct Entry {
    /// Its number, from 1, which the table never gives again.
    pub serial: u64,
    /// The match as it was written.
    pub raw: [u8; MATCH],
    /// The match that it was read as.
    pub normal: Match,
    pub priority: u16,
    /// 65536 where the match was written without a wildcard, else the priority.
    pub rank: u32,
    pub cookie: u64,
    /// The seconds without a packet after which it goes, or 0.
    pub idle: u16,
    /// The seconds after which it goes, or 0.
    pub hard: u16,
    pub flags: u16,
    pub actions: List<Action>,
    /// The second at which it was added.
    pub added: u64,
    /// The second at which its count was last seen to have risen.
    pub last: u64,
}

impl Entry {
    pub fn identity(&self) -> Identity
        ensures { result ≡ identity_of self.now }
    {
        Identity {
            rank: self.rank,
            normal: self.normal,
        }
    }
}

/// Whether an action is an OUTPUT to this number, as it is written.
#[tactic(auto, unfolding(crate::specs::Tables::is_output_to))]
fn is_output_to(action: &Action, port: u16) -> bool
    ensures { result ≡ is_output_to_of port action.now }
{
    match action {
        Action::Output { port: to, .. } => *to == port,
        _ => false,
    }
}

/// Whether an action of these is an OUTPUT to this number.
fn has_output(actions: &[Action], port: u16) -> bool
    ensures { result ≡ list_any (is_output_to_of port) actions.now }
{
    actions.iter().any(|action| is_output_to(action, port))
}

/// Whether a timeout has passed; 0 is none.
fn has_passed(since: u64, timeout: u16, now: u64) -> bool
    ensures { result ≡ has_passed_of since timeout now }
{
    timeout != 0 && since <= now && now - since >= u64::from(timeout)
}

/// A moment before which a timeout doesn't pass; 0 is none.
fn passes_from(since: u64, timeout: u16) -> u64
    ensures { (now : ℕ) → now < result → has_passed_of since timeout now ≡ false }
{
    if timeout == 0 {
        u64::MAX
    } else {
        since.saturating_add(u64::from(timeout))
    }
}

impl Entry {
    /// Whether it has an OUTPUT to the port; `port::NONE` asks for none.
    pub fn outputs_to(&self, port: u16) -> bool
        ensures { result ≡ outputs_to_of port self.now }
    {
        port == port::NONE || has_output(self.actions.as_slice(), port)
    }

    /// Whether it has stood too long.
    pub fn is_hard_due(&self, now: u64) -> bool
        ensures { result ≡ is_hard_due_of now self.now }
    {
        has_passed(self.added, self.hard, now)
    }

    /// Whether its count hasn't risen for too long, and it hasn't stood too long.
    pub fn is_idle_due(&self, now: u64) -> bool
        ensures { result ≡ is_idle_due_of now self.now }
    {
        !self.is_hard_due(now) && has_passed(self.last, self.idle, now)
    }

    /// A moment before which neither of its timeouts passes.
    pub(crate) fn soonest(&self) -> u64
        ensures { IsQuietUntil result self.now }
    {
        passes_from(self.added, self.hard).min(passes_from(self.last, self.idle))
    }
}

/// Whether two entries are the same in every part.
pub fn same_entry(first: &Entry, second: &Entry) -> bool
    ensures { IsTrue result ↔ (first.now ≡ second.now) }
{
    first == second
}

impl Duplicate for Entry {
    fn copy(&self) -> Result<Entry, Memory> {
        Ok(Entry {
            serial: self.serial,
            raw: self.raw,
            normal: self.normal,
            priority: self.priority,
            rank: self.rank,
            cookie: self.cookie,
            idle: self.idle,
            hard: self.hard,
            flags: self.flags,
            actions: self.actions.copy()?,
            added: self.added,
            last: self.last,
        })
    }
}
