//! Worked examples, each computed by the checker.
ghost use Rattle.made_script.specs.Worked.{ACountIsSpelled, ARouteIsSpelled, FourAreDrawn, TwoLines};

pub fn worked_scripts()
    ensures drawn { FourAreDrawn }
    ensures lines { TwoLines }
    ensures count { ACountIsSpelled }
    ensures route { ARouteIsSpelled }
{}
