//! Laws of gates: each function's contract is the law.
ghost use Rattle.exact_gate.specs.GateLaw.{SameIsInstalled};

/// What is installed of entries that pass does not depend on their order: lists that have the same
/// entries have the same ones installed. So a gate, followed by what keeps one entry for each key,
/// has what the entries from scratch have.
pub fn installing()
    ensures { SameIsInstalled }
{}
