//! Removals that switches report.

/// What a FLOW_REMOVED of a switch is.
#[derive(Clone, Copy, PartialEq, Eq, Debug)]
pub enum Removal {
    /// Of an entry that was wiped as the round began: it changes nothing.
    Ignored,
    /// Of an entry that was deleted in this round: its numbers are taken.
    Taken,
    /// Of an entry that nobody deleted: the switch is taken down.
    Strange,
}
