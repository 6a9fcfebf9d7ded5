//! Worked examples, each computed by the checker.
ghost use Rattle.exact_gate.specs.Worked.{ExactGivesWay, OthersPass};

/// An entry for one packet gives way to one of greater priority that holds it, and comes back; all
/// others pass.
pub fn worked_examples()
    ensures gives_way { ExactGivesWay }
    ensures others_pass { OthersPass }
{}
