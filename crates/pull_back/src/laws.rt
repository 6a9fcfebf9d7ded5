//! Laws of pulls and images, for every header and every normal match.
ghost use Rattle.pull_back.specs.Pulls.{ImageHolds, PullIsExact};
ghost use Rattle.pull_back.specs.Worked.{Images, Pulls};

/// A pull holds exactly what it is to hold, and an image holds it at least.
pub fn exactness()
    ensures pull { PullIsExact }
    ensures image { ImageHolds }
{}

/// What the definitions give in examples.
pub fn worked_examples()
    ensures pulls { Pulls }
    ensures images { Images }
{}
