//! The definitions, computed.
ghost use Rattle.op_compose.specs.Worked.{LevelsOfRules};

/// What the definitions give in examples.
pub fn worked_examples()
    ensures { LevelsOfRules }
{}
