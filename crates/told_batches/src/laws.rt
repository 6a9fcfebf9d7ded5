//! Each function's contract is a law.
ghost use Rattle.told_batches.specs.Told.{BatchesAreTold, ToldChangesAreBetween};

/// The batch of two tables tells, in whatever order their entries are listed, what goes and what comes.
pub fn batches_are_told()
    ensures { BatchesAreTold }
{
    agreement::laws::order_is_free();
}

/// What is told makes the batch: what goes is found by its keys among what stands, in one pass over both, and what
/// comes is numbered.
pub fn told_changes()
    ensures { ToldChangesAreBetween }
{}
