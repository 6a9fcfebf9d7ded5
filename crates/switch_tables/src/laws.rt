//! Laws of what stands: each function's contract is the law.
ghost use Rattle.switch_tables.specs.StandingLaw.{StandsAsInstalled};

/// What stands behind the gate is what is installed of all entries that are put there.
pub fn standing_is_installed()
    ensures { StandsAsInstalled }
{}
