//! Laws of switches in memory: each function's contract is the law.
ghost use Rattle.soft_net.specs.Alike.{BatchesAreSuch, ChoosesAlike, ChoosesAllowed, HoldsAlike, SendsAlike};

/// A switch in memory uses the entry that a switch uses which puts entries without wildcards first, so one that
/// a switch may use, and sends packets where that entry does.
pub fn using()
    ensures chooses { ChoosesAlike }
    ensures allowed { ChoosesAllowed }
    ensures sends { SendsAlike }
{}

/// After messages of the kinds that are written to switches a switch in memory holds what these make of the table
/// that it held; and all that a switch is put for a policy is of these kinds.
pub fn holding()
    ensures holds { HoldsAlike }
    ensures batches { BatchesAreSuch }
{}
