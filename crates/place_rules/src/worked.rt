//! Worked examples, each computed by the checker.
ghost use Rattle.place_rules.specs.Worked.{FloodIsPlaced, IngressIsWritten, OthersAreDropped, OthersAreNot};
ghost use Rattle.place_rules.specs.Worked.{TagsAreCarried};

/// FLOOD over three switches with the fixed entries of each, hops that end at the port where the packet
/// came in, and a virtual switch that is all of its switch.
pub fn worked_examples()
    ensures flood_is_placed { FloodIsPlaced }
    ensures tags_are_carried { TagsAreCarried }
    ensures ingress_is_written { IngressIsWritten }
    ensures others_are_dropped { OthersAreDropped }
    ensures others_are_not { OthersAreNot }
{}
