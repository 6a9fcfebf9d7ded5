//! The policy of benchmarks, by its text.
ghost use Rattle.std.specs.Prelude.{IfOk};
ghost use Rattle.replay_report.specs.Bench.{IsBench};

use cv_io::Memory;
use policies::Policy;
use std::alloc::Global;

/// The policy over which scripts are made.
pub(crate) fn policy(alloc: Global) -> Result<Policy, Memory>
    ensures { IfOk result (λ policy. IsBench policy) }
{
    policy_file::bench(alloc)
}
