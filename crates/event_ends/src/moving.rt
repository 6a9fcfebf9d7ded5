//! What an event leaves is moved in. It takes no memory.
ghost use Rattle.std.specs.Prelude.{◌≡◌, length, map, unwrap_or};
ghost use Rattle.outbox.specs.Outboxes.{turned};
ghost use Rattle.machine_drafts.specs.Machines.{bases_of, state_in_held};
ghost use Rattle.machine_drafts.specs.Moving.{EachPart, HasPlace, IsMemberPart, IsSwitchPart, after_parts};
ghost use Rattle.event_ends.specs.MovingIn.{AreParts};
ghost use Rattle.machine_drafts.specs.Moving.{member_moved, standing_moved, switch_moved};
ghost use Rattle.event_ends.specs.MovingIn.{moved_in};
ghost use Rattle.machine_meaning.specs.Putting.{put_to};
ghost use Rattle.machine_drafts.specs.Views.{member_of, standing_of, switch_of};

use cv_io::List;
use machine_drafts::exprs_draft::{Replaced, move_exprs};
use machine_drafts::held::Held;
use machine_drafts::member_draft::MemberPart;
use machine_drafts::session::{Member, Switch};
use machine_drafts::switch_draft::SwitchPart;
use machine_meaning::Owed;
use outbox::{Letters, Outbox, Turn};
use waitings::Waiting;

/// What of the state is after an event, but for what is counted. All memory that it needs is in it.
#[derive(Drop)]
pub struct Parts {
    pub moment: u64,
    pub exprs: List<Replaced>,
    pub members: List<MemberPart>,
    pub switches: List<SwitchPart>,
    pub waiting: Option<List<Waiting>>,
    pub owed: Option<List<Owed>>,
    pub next_cookie: u64,
    /// The lines that the audit is put.
    pub lines: Letters,
}

/// An outbox becomes what was planned, and is put messages where the session is up then.
fn move_outbox(outbox: &mut Outbox, turn: Turn, letters: Letters)
    requires { HasPlace outbox.old letters }
    ensures { outbox.new ≡ put_to letters (turned turn outbox.old) }
{
    outbox.turn(turn);
    if outbox.is_up() {
        outbox.put(letters);
    }
}

/// Moves a member's part in.
fn move_member(member: &mut Member, part: MemberPart)
    requires { IsMemberPart member.old part }
    ensures { member_of member.new ≡ member_moved (member_of member.old) part }
{
    let MemberPart {
        turn,
        config,
        planned,
        moment,
        letters,
    } = part;
    move_outbox(&mut member.outbox, turn, letters);
    member.config = config;
    if let Some(planned) = planned {
        member.kept.commit(planned, moment);
    }
}

/// Moves a switch's part in.
fn move_switch(switch: &mut Switch, part: SwitchPart)
    requires { IsSwitchPart switch.old part }
    ensures session { switch_of switch.new ≡ switch_moved (switch_of switch.old) part }
    ensures standing { standing_of switch.new ≡ standing_moved (standing_of switch.old) part }
{
    let SwitchPart {
        turn,
        known,
        standing,
        letters,
    } = part;
    move_outbox(&mut switch.outbox, turn, letters);
    if let Some(known) = known {
        switch.known = known;
    }
    if let Some(standing) = standing {
        switch.standing = standing;
    }
}

/// Moves the parts of all members in.
fn move_members(members: &mut [Member], mut parts: Vec<MemberPart>)
    requires all { length members.old ≡ length parts.items }
    requires each { EachPart IsMemberPart members.old parts.items }
    ensures { map member_of members.new ≡ after_parts member_moved (map member_of members.old) parts.items }
{
    while let Some(part) = parts.pop() {
        let place = parts.len();
        move_member(&mut members[place], part);
    }
}

/// Moves the parts of all switches in.
fn move_switches(switches: &mut [Switch], mut parts: Vec<SwitchPart>)
    requires all { length switches.old ≡ length parts.items }
    requires each { EachPart IsSwitchPart switches.old parts.items }
    ensures sessions { map switch_of switches.new ≡ after_parts switch_moved (map switch_of switches.old) parts.items }
    ensures standing { map standing_of switches.new
        ≡ after_parts standing_moved (map standing_of switches.old) parts.items }
{
    while let Some(part) = parts.pop() {
        let place = parts.len();
        move_switch(&mut switches[place], part);
    }
}

/// What is owed becomes what was drafted, if it changes.
fn move_owed(owed: &mut List<Owed>, change: Option<List<Owed>>)
    ensures { owed.new ≡ unwrap_or change owed.old }
{
    if let Some(changed) = change {
        *owed = changed;
    }
}

/// Moves in what an event leaves.
pub fn move_in(held: &mut Held, parts: Parts)
    requires { AreParts (bases_of parts.moment held.old) parts }
    ensures { state_in_held held.new ≡ moved_in (bases_of parts.moment held.old) parts }
{
    held.moment = parts.moment;
    move_exprs(&mut held.exprs, parts.exprs);
    move_members(held.members.as_mut_slice(), parts.members.into_vec());
    move_switches(held.switches.as_mut_slice(), parts.switches.into_vec());
    waitings::make(&mut held.waiting, parts.waiting);
    move_owed(&mut held.owed, parts.owed);
    held.next_cookie = parts.next_cookie;
    held.audit.join(parts.lines);
}
