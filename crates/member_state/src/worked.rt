//! Examples.
ghost use Rattle.member_state.specs.Worked.{OneGoesOneFits, OverlapComesFirst, RanksAreSpread, RanksGo, SixRanksFit};

/// What the definitions give for a member of three bits.
pub fn worked_examples()
    ensures spread { RanksAreSpread }
    ensures six { SixRanksFit }
    ensures fits { OneGoesOneFits }
    ensures overlap { OverlapComesFirst }
    ensures ranks { RanksGo }
{}
