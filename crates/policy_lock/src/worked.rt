//! Worked examples, computed by the checker.
ghost use Rattle.policy_lock.specs.Worked.{CallsAreOwn, EventsFollow, SeatsAreMissing};

/// A history of two seats, what follows its places, and which seats are missing.
pub fn worked_examples()
    ensures calls_are_own { CallsAreOwn }
    ensures events_follow { EventsFollow }
    ensures seats_are_missing { SeatsAreMissing }
{}
