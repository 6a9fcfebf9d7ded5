//! Each function's contract is a law.
ghost use Rattle.events.specs.Kept.{NothingElseIsRead, WrittenIsRead};

/// What was written of an event is read as it.
pub fn written_is_read()
    ensures { WrittenIsRead }
{}

/// Bytes that are read as an event are those that are written of it.
pub fn nothing_else_is_read()
    ensures { NothingElseIsRead }
{}
