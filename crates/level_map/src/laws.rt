//! The definitions, computed.
ghost use Rattle.level_map.specs.Worked.{Dropped, ThreeBits};

/// What the definitions give in examples.
pub fn worked_examples()
    ensures three_bits { ThreeBits }
    ensures dropped { Dropped }
{}
