//! A worked example, computed by the checker.
ghost use Rattle.shared_rows.specs.Worked.{MatchesDecide};

/// Three rows of one priority, given out of order.
pub fn worked_rows()
    ensures { MatchesDecide }
{}
