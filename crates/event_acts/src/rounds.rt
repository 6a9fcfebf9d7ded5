//! Rounds begin and end.
ghost use Rattle.std.specs.Prelude.{◌≡◌, OnOk, fold};
ghost use Rattle.machine_drafts.specs.Outcomes.{bases, draft_in};
ghost use Rattle.machine_meaning.specs.Rounds.{begin_member as begin_member_of, begin_switch as begin_switch_of};
ghost use Rattle.machine_meaning.specs.Rounds.{close as close_of, close_member as close_member_of};
ghost use Rattle.machine_meaning.specs.Rounds.{close_switch as close_switch_of};
ghost use Rattle.machine_meaning.specs.Rounds.{end_member as end_member_of, end_switch as end_switch_of};

use cv_io::{Memory, Who};
use events::Reply;
use machine_drafts::outcome::Outcome;
use machine_drafts::sessions::{
    close_member, close_switch, member_round, open_member, open_switch, switch_round,
};
use machine_meaning::Down;
use script_text::DownCause;
use std::alloc::Global;

/// A member's round ends: what it waited for is dropped.
pub fn end_member(draft: &mut Outcome<'_>, n: u32) -> Result<(), Memory>
    ensures drafted { OnOk result (draft_in draft.new ≡ end_member_of n (draft_in draft.old)) }
    ensures bases { OnOk result (bases draft.new ≡ bases draft.old) }
{
    close_member(draft.members.as_mut_slice(), n);
    draft.waiting.without_member(n)?;
    Ok(())
}

/// A switch's round ends, for a cause: nothing stands on it, and nothing waits for it any more.
pub fn end_switch(
    alloc: Global,
    draft: &mut Outcome<'_>,
    n: u32,
    cause: DownCause,
) -> Result<(), Memory>
    ensures drafted { OnOk result (draft_in draft.new ≡ end_switch_of n cause (draft_in draft.old)) }
    ensures bases { OnOk result (bases draft.new ≡ bases draft.old) }
{
    close_switch(alloc, draft.switches.as_mut_slice(), n);
    draft.counts.down(n)?;
    draft.waiting.without_switch(n)?;
    draft.downs.push(Down { switch: n, cause })?;
    Ok(())
}

/// A member's next round begins, and is answered.
pub fn begin_member(draft: &mut Outcome<'_>, n: u32)
    ensures drafted { draft_in draft.new ≡ begin_member_of n (draft_in draft.old) }
    ensures bases { bases draft.new ≡ bases draft.old }
{
    open_member(draft.members.as_mut_slice(), n);
    let round = member_round(draft.members.as_slice(), n);
    draft.begun = Some(Who::Member(n));
    draft.reply = Reply::Opened { round };
}

/// A switch's next round begins, and is answered.
pub fn begin_switch(alloc: Global, draft: &mut Outcome<'_>, n: u32)
    ensures drafted { draft_in draft.new ≡ begin_switch_of n (draft_in draft.old) }
    ensures bases { bases draft.new ≡ bases draft.old }
{
    let first = draft.next_cookie;
    open_switch(alloc, draft.switches.as_mut_slice(), n, first);
    let round = switch_round(draft.switches.as_slice(), n);
    draft.begun = Some(Who::Switch(n));
    draft.reply = Reply::Opened { round };
}

/// The rounds of these switches end as slow.
fn close_switches(alloc: Global, draft: &mut Outcome<'_>, switches: &[u32]) -> Result<(), Memory>
    ensures drafted { OnOk result (draft_in draft.new ≡ fold close_switch_of (draft_in draft.old) switches.now) }
    ensures bases { OnOk result (bases draft.new ≡ bases draft.old) }
{
    for n in switches {
        end_switch(alloc, draft, *n, DownCause::Slow)?;
    }
    Ok(())
}

/// A member's round ends as slow.
fn close_slow_member(draft: &mut Outcome<'_>, n: u32) -> Result<(), Memory>
    ensures drafted { OnOk result (draft_in draft.new ≡ close_member_of (draft_in draft.old) n) }
    ensures bases { OnOk result (bases draft.new ≡ bases draft.old) }
{
    end_member(draft, n)?;
    draft.slows.push(n)?;
    Ok(())
}

/// The rounds of these members end as slow.
fn close_members(draft: &mut Outcome<'_>, members: &[u32]) -> Result<(), Memory>
    ensures drafted { OnOk result (draft_in draft.new ≡ fold close_member_of (draft_in draft.old) members.now) }
    ensures bases { OnOk result (bases draft.new ≡ bases draft.old) }
{
    for n in members {
        close_slow_member(draft, *n)?;
    }
    Ok(())
}

/// The rounds of these sessions end as slow: switches before members.
pub fn close(
    alloc: Global,
    draft: &mut Outcome<'_>,
    switches: &[u32],
    members: &[u32],
) -> Result<(), Memory>
    ensures drafted { OnOk result (draft_in draft.new
        ≡ close_of (record { switches = switches.now; members = members.now }) (draft_in draft.old)) }
    ensures bases { OnOk result (bases draft.new ≡ bases draft.old) }
{
    close_switches(alloc, draft, switches)?;
    close_members(draft, members)?;
    Ok(())
}
