//! What the machine promises to who serves it. Each function's contract is a law.
ghost use Rattle.policy_serving.specs.Histories.{AuditIsKept};
ghost use Rattle.policy_serving.specs.Proxies.{KnowsItsPolicy};

use hyper_core::Hyper;
use policy_lock::Machine;

/// A machine that was opened knows the members and the switches of its policy.
pub fn opened_knows()
    ensures { KnowsItsPolicy }
{}

/// Each line that is put to the audit in a legal history is taken in it, in its turn and once, or waits after it.
pub fn audit_is_kept()
    ensures { AuditIsKept ⟦<Hyper as Machine>⟧ }
{}
