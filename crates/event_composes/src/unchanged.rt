//! Whether an event changed what composition reads: expressions, tables with their levels, which switches are up, and
//! what stands on them.
ghost use Rattle.std.specs.Prelude.{◌≡◌, ℕ, false, IsTrue};
ghost use Rattle.std.specs.List.{AllByRecursion};
ghost use Rattle.machine_drafts.specs.MemberDrafts.{IsUnplanned};
ghost use Rattle.event_composes.specs.Settled.{IsUnchanged};
ghost use Rattle.machine_drafts.specs.SwitchDrafts.{IsUnmoved};
ghost use Rattle.machine_meaning.specs.Sessions.{is_switch};

use cv_io::Who;
use machine_drafts::member_draft::MemberDraft;
use machine_drafts::outcome::Outcome;
use machine_drafts::switch_draft::SwitchDraft;

/// The round of no switch begins.
fn begins_none(begun: &Option<Who>) -> bool
    ensures { IsTrue result → (n : ℕ) → is_switch n begun.now ≡ false }
{
    match begun {
        Some(Who::Switch(_)) => false,
        _ => true,
    }
}

/// The tables and levels of members are as they stand.
fn are_unplanned(members: &[MemberDraft<'_>]) -> bool
    ensures { IsTrue result → AllByRecursion IsUnplanned members.now }
{
    members.iter().all(|member| member.is_unplanned())
}

/// Switches are up or down as they were, and have the entries that they had.
fn are_unmoved(switches: &[SwitchDraft<'_>]) -> bool
    ensures { IsTrue result → AllByRecursion IsUnmoved switches.now }
{
    switches.iter().all(|switch| switch.is_unmoved())
}

/// Nothing that composition reads changed since the event began, and no round of a switch begins.
pub(crate) fn is_unchanged(draft: &Outcome<'_>) -> bool
    ensures { IsTrue result → IsUnchanged draft.now }
{
    begins_none(&draft.begun)
        && draft.exprs.is_kept()
        && are_unplanned(draft.members.as_slice())
        && are_unmoved(draft.switches.as_slice())
}
