//! Laws of placing: each function's contract is the law.
ghost use Rattle.agreement.specs.Followed.{OnePlacedEntry};
ghost use Rattle.place_rules.specs.PlacingLaw.{WiringsAgree};

/// A packet for which the entry of one rule is used is sent, and carried over cables, to where the
/// rule's outs say.
pub fn one_placed_entry()
    ensures { OnePlacedEntry }
{}

/// The plain wiring of a topology has what the topology and its paths have.
pub fn wirings()
    ensures { WiringsAgree }
{}
