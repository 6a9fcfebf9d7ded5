//! Worked examples, computed by the checker.
ghost use Rattle.inner_paths.specs.Worked.{CutIsNamed, HopsLead, TagsCount};

/// A virtual switch over three physical ones in a row, and the same without the second cable.
pub fn worked_examples()
    ensures hops { HopsLead }
    ensures tags { TagsCount }
    ensures cut { CutIsNamed }
{}
