//! Members and switches, each with its session.
use machine_meaning::Config;
use member_state::MemberState;
use outbox::Outbox;
use shared_rows::Rows;
use switch_state::Known;

/// A member: its session, what SET_CONFIG gave, and its table with the levels of its ranks.
#[derive(Drop)]
pub struct Member {
    pub outbox: Outbox,
    pub config: Config,
    pub kept: MemberState,
}

/// A switch: its session, what is known of it in this round, and the entries that stand on it, by rising
/// key.
#[derive(Drop)]
pub struct Switch {
    pub outbox: Outbox,
    pub known: Known,
    pub standing: Rows,
}
