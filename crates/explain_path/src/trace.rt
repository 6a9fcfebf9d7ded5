//! Traces.
use cv_io::List;
use packet_map::Walked;

/// A member that was asked.
#[derive(Clone, Copy, PartialEq, Eq, Debug)]
pub struct LeafTrace {
    pub member: u32,
    /// What of its table the packet meets: 0 is what lies outside its grant, 1 a miss, and 2 and its serial
    /// number an entry.
    pub kind: u64,
    /// Whether what it has counts: not, where it stands in the left operand of a `|>` of which the right
    /// was asked too.
    pub used: bool,
}

/// One evaluation: the virtual switch, the port by which the packet came there, and the members that were
/// asked, in the order of the expression.
#[derive(PartialEq, Eq, Debug, Drop)]
pub struct HopTrace {
    pub v: u32,
    pub port: u16,
    pub leaves: List<LeafTrace>,
}

/// The evaluations of a walk, in order, and what the walk gives.
#[derive(PartialEq, Eq, Debug, Drop)]
pub struct Trace {
    pub hops: List<HopTrace>,
    pub walked: Walked,
}
