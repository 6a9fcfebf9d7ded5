//! Worked examples, computed by the checker.
ghost use Rattle.sessions.specs.Worked.{AGreetingIsWritten, AnswersAreCounted, FramesAreKnown};

/// What the definitions give in examples.
pub fn worked_examples()
    ensures greeting { AGreetingIsWritten }
    ensures frames { FramesAreKnown }
    ensures taken { AnswersAreCounted }
{}
