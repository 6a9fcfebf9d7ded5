//! Worked examples, each computed by the checker.
ghost use Rattle.replay_report.specs.Worked.{CountsAreSo};

pub fn worked_counts()
    ensures { CountsAreSo }
{}
