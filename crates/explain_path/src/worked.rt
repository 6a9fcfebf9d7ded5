//! Worked examples, each computed by the checker.
ghost use Rattle.explain_path.specs.Worked.{FourHops, MissOfTheLeft, RightOfAPass, ThreeHops};

/// Who is asked.
pub fn worked_asking()
    ensures miss_of_the_left { MissOfTheLeft }
    ensures right_of_a_pass { RightOfAPass }
{}

/// Evaluations over links.
pub fn worked_traces()
    ensures three_hops { ThreeHops }
    ensures four_hops { FourHops }
{}
