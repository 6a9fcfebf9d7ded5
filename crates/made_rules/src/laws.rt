//! What the definitions that contracts cite keep to.
ghost use Rattle.list_change.specs.Coming.{TellsEqual};
ghost use Rattle.made_rules.specs.Coming.{is_rule};

/// The test of two rules tells whether they are equal.
pub fn rules_are_told()
    ensures { TellsEqual is_rule }
{}
