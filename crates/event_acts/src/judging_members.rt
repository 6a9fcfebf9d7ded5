//! A frame of a member is judged by what stands of it, before its event is drafted.
ghost use Rattle.std.specs.Prelude.{◌≡◌, ◌<◌, IfOk, Some, length, map, slice_get};
ghost use Rattle.of10_frames.specs.Frames.{IsFrame};
ghost use Rattle.event_acts.specs.InsideHearing.{IsJudgedAt};
ghost use Rattle.event_acts.specs.InsideJudging.{IsJudged};
ghost use Rattle.machine_meaning.specs.Names.{all_ports as all_ports_of, virtual_of};
ghost use Rattle.machine_drafts.specs.Views.{member_of};

use crate::judging::{Judged, judge};
use cv_io::Memory;
use machine_drafts::session::Member;
use machine_drafts::setup::Setup;
use member_state::MemberState;
use policies::MemberItem;

/// Judges a frame of a member by its table and levels.
fn judge_kept(
    setup: &Setup,
    m: &MemberItem,
    kept: &mut MemberState,
    frame: &[u8],
    now: u64,
) -> Result<Judged, Memory>
    requires there { m.now.grant.ports.v < length setup.now.virtuals }
    requires frame { IsFrame frame.now }
    ensures judged { IfOk result
        (IsJudged m.now.grant (all_ports_of setup.now (virtual_of m.now)) kept.new now frame.now) }
    ensures state { kept.new.state ≡ kept.old.state }
{
    match setup.all_ports(m.grant.ports.v) {
        Some(ports) => judge(setup.alloc(), &m.grant, ports, kept, frame, now),
        None => unreachable!(),
    }
}

/// Judges a frame of the member of a number, whose item in the policy this is.
fn judge_item(
    setup: &Setup,
    m: &MemberItem,
    members: &mut [Member],
    n: u32,
    frame: &[u8],
    now: u64,
) -> Result<Option<Judged>, Memory>
    requires item { slice_get setup.now.members n ≡ Some m.now }
    requires there { m.now.grant.ports.v < length setup.now.virtuals }
    requires frame { IsFrame frame.now }
    ensures judged { IfOk result (IsJudgedAt setup.now members.new n now frame.now) }
    ensures state { map member_of members.new ≡ map member_of members.old }
{
    if n as usize >= members.len() {
        return Ok(None);
    }
    let judged = judge_kept(setup, m, &mut members[n as usize].kept, frame, now)?;
    Ok(Some(judged))
}

/// Judges a frame of the member of a number, if there is such a member. It takes all memory that a change of the
/// member's table needs, and changes nothing.
pub fn judge_member(
    setup: &Setup,
    members: &mut [Member],
    n: u32,
    frame: &[u8],
    now: u64,
) -> Result<Option<Judged>, Memory>
    requires { IsFrame frame.now }
    ensures judged { IfOk result (IsJudgedAt setup.now members.new n now frame.now) }
    ensures state { map member_of members.new ≡ map member_of members.old }
{
    match setup.member(n) {
        Some(m) => judge_item(setup, m, members, n, frame, now),
        None => Ok(None),
    }
}
