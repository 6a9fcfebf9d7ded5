//! Worked examples, computed by the checker.
ghost use Rattle.grants.specs.Worked.{ActionsInOrder, CommandsFirst, FieldsAreGranted, FloodsAreCounted};
ghost use Rattle.grants.specs.Worked.{KindsAreServed, PacketsAreGranted, RegionsAreMet};

/// What the rows give in examples.
pub fn worked_examples()
    ensures commands_first { CommandsFirst }
    ensures fields_are_granted { FieldsAreGranted }
    ensures regions_are_met { RegionsAreMet }
    ensures actions_in_order { ActionsInOrder }
    ensures floods_are_counted { FloodsAreCounted }
    ensures packets_are_granted { PacketsAreGranted }
    ensures kinds_are_served { KindsAreServed }
{}
