//! Worked examples, computed by the checker.
ghost use Rattle.match_index.specs.Worked.{HigherIsFirst, MatchesMeet, OthersAreInWay, PacketsAreHeld, PlacesAreTold};

/// What is found among four matches, which comes first, and where it is looked for.
pub fn worked_examples()
    ensures packets_are_held { PacketsAreHeld }
    ensures matches_meet { MatchesMeet }
    ensures others_are_in_way { OthersAreInWay }
    ensures higher_is_first { HigherIsFirst }
    ensures places_are_told { PlacesAreTold }
{}
