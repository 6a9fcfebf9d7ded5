//! The steps of worked changes, computed: by the definitions that bound what a change of the composed rules may take.
#![tactic(auto)]

ghost use Rattle.worked_changes.specs.WorkedSteps.{StepsOfBuilding, StepsOfOneEntry, StepsOfSettings, StepsOverHops};

/// The steps at `+` of one entry that comes and of one that goes, those over hops, those of both together, and those of
/// making all from scratch.
pub fn worked_steps()
    ensures at_plus { StepsOfOneEntry }
    ensures over_hops { StepsOverHops }
    ensures together { StepsOfSettings }
    ensures from_scratch { StepsOfBuilding }
{}
