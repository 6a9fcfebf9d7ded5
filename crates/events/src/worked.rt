//! The definitions, computed on examples.
ghost use Rattle.events.specs.Worked.{AFrameIsSpelled, BoundsAreKept, OthersAreSpelled};

/// Events are spelled so, and read within their bounds.
pub fn worked_events()
    ensures frame { AFrameIsSpelled }
    ensures others { OthersAreSpelled }
    ensures bounds { BoundsAreKept }
{}
