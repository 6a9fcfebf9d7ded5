use cv_io::{Memory, Text};
use thiserror::Error;

/// Why a text is not an expression over the members.
#[derive(Debug, Drop, Error)]
pub enum ExprFault {
    /// What stands at this byte, or the text's end, cannot stand there.
    #[error("syntax error at byte {at}")]
    Syntax { at: u32 },
    /// No member has this name.
    #[error("there is no member of this name")]
    Unknown { name: Text },
    /// The name stands again.
    #[error("the name stands twice")]
    Twice { name: Text },
    /// The member of this name does not stand in the expression.
    #[error("the member is not used")]
    Unused { name: Text },
    /// There are more leaves than a composed list of actions can hold.
    #[error("{leaves} leaves, of at most 12")]
    TooMany { leaves: u32 },
    /// The member stands in a left operand of `+` and may rewrite, pass or output to a link, which an
    /// action list could not undo for the right operand.
    #[error("a member that may rewrite stands left of +")]
    ParallelLeft { name: Text },
    #[error("out of memory")]
    Memory,
}

impl From<Memory> for ExprFault {
    ghost use Rattle.std.specs.Prelude.{◌≡◌};
    ghost use Rattle.policy_expr.specs.declared.fault.ExprFault.TheVariants as faults;

    ghost from_gives = { λ _ fault. fault ≡ faults.Memory };

    fn from(_wanted: Memory) -> ExprFault {
        ExprFault::Memory
    }
}
