//! What is counted of the lines of a script and of their reports.
ghost use Rattle.std.specs.Prelude.{◌≡◌, ◌+◌, IfOk};
ghost use Rattle.replay_report.specs.MadeCounts.{counted, is_accepted, lines_with, nothing};

use cv_io::Memory;

/// How many lines of a text begin so.
fn lines_with(start: &[u8], text: &[u8]) -> u64
    ensures { result ≡ lines_with start.now text.now }
{
    text.split(|byte| *byte == b'\n')
        .filter(|line| line.starts_with(start))
        .count() as u64
}

/// A session sent a message by this line, and of its report no line is that of a denial.
#[tactic(auto, unfolding(crate::specs::MadeCounts::is_accepted))]
fn is_accepted(line: &[u8], report: &[u8]) -> bool
    ensures { result ≡ is_accepted line.now report.now }
{
    line.starts_with(b"from ") && lines_with(b"deny ", report) == 0
}

/// A sum. One that is too large for the type is told as want of memory, since so many lines can't have been held.
fn plus(count: u64, more: u64) -> Result<u64, Memory>
    ensures { IfOk result (λ sum. sum ≡ count + more) }
{
    count.checked_add(more).ok_or(Memory)
}

/// What was counted so far.
#[derive(Clone, Copy, PartialEq, Eq, Debug)]
pub(crate) struct Counts {
    /// The messages of members that were accepted.
    pub accepted: u64,
    /// The messages that were put to the switch.
    pub sent: u64,
}

impl Counts {
    pub(crate) fn new() -> Counts
        ensures { result ≡ nothing }
    {
        Counts {
            accepted: 0,
            sent: 0,
        }
    }

    /// Counts a line, and what was reported of it.
    #[tactic(auto, unfolding(crate::specs::MadeCounts::counted))]
    pub(crate) fn count(&self, line: &[u8], report: &[u8]) -> Result<Counts, Memory>
        ensures { IfOk result (λ counts. counts ≡ counted self.now line.now report.now) }
    {
        Ok(Counts {
            accepted: plus(self.accepted, u64::from(is_accepted(line, report)))?,
            sent: plus(self.sent, lines_with(b"to s1 ", report))?,
        })
    }
}
