//! The definitions, computed.
ghost use Rattle.of10_frames.specs.Worked.{BadType, HelloHeader};

/// What the definitions give in examples.
pub fn worked_examples()
    ensures hello { HelloHeader }
    ensures bad_type { BadType }
{}
