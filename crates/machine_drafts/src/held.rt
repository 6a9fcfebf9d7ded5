//! What the machine holds: all that events change.
use crate::session::{Member, Switch};
use cv_io::List;
use machine_meaning::Owed;
use outbox::Letters;
use policy_expr::Expr;
use stats_map::Counts;
use waitings::Waiting;

/// What the machine holds. Members, switches and expressions stand in it by their numbers in the policy.
#[derive(Drop)]
pub struct Held {
    /// The greatest second told.
    pub moment: u64,
    pub exprs: List<Expr>,
    pub members: List<Member>,
    pub switches: List<Switch>,
    pub counts: Counts,
    /// Polls and members' barriers, as they began.
    pub waiting: List<Waiting>,
    /// Removed entries whose FLOW_REMOVED is owed.
    pub owed: List<Owed>,
    /// The cookie of the next entry that is written.
    pub next_cookie: u64,
    /// The lines of the audit that wait.
    pub audit: Letters,
}
