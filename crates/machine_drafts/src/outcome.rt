//! What an event changes and says, beside the state as it stands.
use crate::exprs_draft::Exprs;
use crate::member_draft::MemberDraft;
use crate::owing::Owing;
use crate::switch_draft::SwitchDraft;
use cv_io::{Bytes, List, Who};
use events::Reply;
use machine_meaning::{Asked, Down, Letter, Sent};
use outbox::Letters;
use stats_map::Pending;
use waitings::Waitings;

/// A draft: each phase of an event changes it, and it is moved in at the end, or dropped where memory is wanted.
#[derive(Drop)]
pub struct Outcome<'a> {
    pub moment: u64,
    pub exprs: Exprs<'a>,
    pub members: List<MemberDraft<'a>>,
    pub switches: List<SwitchDraft<'a>>,
    pub counts: Pending<'a>,
    pub waiting: Waitings<'a>,
    pub owed: Owing<'a>,
    pub next_cookie: u64,
    /// The lines of the audit that wait as the event begins.
    pub audit: &'a Letters,
    pub reply: Reply,
    /// Whose round begins.
    pub begun: Option<Who>,
    /// The polls that begin.
    pub asked: List<Asked>,
    /// The packets that leave.
    pub sent: List<Sent>,
    pub answers: List<Letter>,
    pub ports: List<Letter>,
    pub settled: List<Letter>,
    pub removed: List<Letter>,
    pub told: List<Letter>,
    pub batches: List<Letter>,
    pub polls: List<Letter>,
    pub packets: List<Letter>,
    pub echoes: List<Letter>,
    pub policies: List<Bytes>,
    pub denials: List<Bytes>,
    pub downs: List<Down>,
    pub slows: List<u32>,
    pub notes: List<Bytes>,
}
