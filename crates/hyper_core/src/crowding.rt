//! Which events had better wait, since much waits already of what they may add to, and what waits. No promise rests on
//! it: who is put something by an event that began with too much waiting is closed as slow, however long it was held.
use crate::glances::{is_present, outbox_for};
use cv_io::{Bytes, Who};
use events::Event;
use machine_drafts::held::Held;
use machine_drafts::setup::Setup;
use of10_msgs::Kind;
use outbox::Outbox;
use policy_lock::Marks;

// How many milliseconds an event is held at most for what its own session or a switch has yet to read. What has read
// nothing for half as long is gone by then.
const LONG: u32 = 30_000;

// And for what a member has yet to read: one that doesn't read may not hold a switch. Where many bytes wait it is held
// longer, so that they don't become many more.
const SHORT: u32 = 2;

const HEAVY: u32 = 20;

// So many lines of the audit are many.
const LINES: usize = 65_536;

// The most members and switches that a policy has. In the marks switches come behind members, and then the audit.
const MEMBERS: u32 = 32;

const SWITCHES: u32 = 16;

/// The event had better wait, having waited so many milliseconds.
pub(crate) fn holds(setup: &Setup, held: &Held, event: &Event, turns: u32) -> bool {
    turns < patience(setup, held, event)
}

/// How many milliseconds an event had better wait by what waits now.
fn patience(setup: &Setup, held: &Held, event: &Event) -> u32 {
    match event {
        Event::Up { who, .. } => for_coming(setup, held, *who),
        Event::Gone { session } => for_coming(setup, held, session.who),
        Event::Msg { session, frame } if is_present(held, session) => match session.who {
            Who::Member(n) => for_member(setup, held, n, kind_of(frame)),
            Who::Switch(n) => for_switch(setup, held, n, kind_of(frame)),
            Who::Audit => 0,
        },
        _ => 0,
    }
}

/// The type of a frame.
fn kind_of(frame: &Bytes) -> Option<Kind> {
    match frame.as_slice().get(1) {
        Some(kind) => Kind::from_number(*kind),
        None => None,
    }
}

/// A switch that comes or goes is told to members.
fn for_coming(setup: &Setup, held: &Held, who: Who) -> u32 {
    match who {
        Who::Switch(n) => for_told(setup, held, &[n]),
        _ => 0,
    }
}

/// What a member sends is answered to it, and refused to the audit. Some of it goes to switches, and what it puts out
/// may come to members.
fn for_member(setup: &Setup, held: &Held, n: u32, kind: Option<Kind>) -> u32 {
    if is_crowded(held, Who::Member(n)) || held.audit.len() >= LINES {
        return LONG;
    }
    let Some(member) = setup.member(n) else {
        return 0;
    };
    let switches = setup.switches_of(member.grant.ports.v);
    match kind {
        Some(Kind::FlowMod | Kind::PacketOut | Kind::StatsRequest) if has_crowded(held, switches) =>
            LONG,
        Some(Kind::PacketOut) => for_told(setup, held, switches),
        _ => 0,
    }
}

/// What a switch sends is answered to it where it asks for an echo, may settle what is written to others where it
/// tells its statistics, and may come to members. The rest is never held: it may stop reading while its replies aren't
/// read.
fn for_switch(setup: &Setup, held: &Held, n: u32, kind: Option<Kind>) -> u32 {
    match kind {
        Some(Kind::EchoRequest) if is_full(held, Who::Switch(n)) => LONG,
        Some(Kind::StatsReply) if has_full(held) => LONG,
        Some(Kind::PacketIn | Kind::PortStatus) => for_told(setup, held, &[n]),
        _ => 0,
    }
}

/// For what members may be told whose virtual switches lie on one of these switches.
fn for_told(setup: &Setup, held: &Held, switches: &[u32]) -> u32 {
    let mut longest = 0;
    for n in 0..MEMBERS {
        let patience = for_reader(held, n);
        if patience > longest && lies_on(setup, n, switches) {
            longest = patience;
        }
    }
    longest
}

/// For a member that may be told, by what it has yet to read.
fn for_reader(held: &Held, n: u32) -> u32 {
    match outbox_for(held, Who::Member(n)) {
        Some(outbox) if outbox.is_heavy() => HEAVY,
        Some(outbox) if outbox.is_crowded() => SHORT,
        _ => 0,
    }
}

/// The virtual switch of a member lies on one of these switches.
fn lies_on(setup: &Setup, n: u32, switches: &[u32]) -> bool {
    let Some(member) = setup.member(n) else {
        return false;
    };
    for own in setup.switches_of(member.grant.ports.v) {
        if switches.contains(own) {
            return true;
        }
    }
    false
}

/// Much waits for one of these switches.
fn has_crowded(held: &Held, switches: &[u32]) -> bool {
    for n in switches {
        if is_crowded(held, Who::Switch(*n)) {
            return true;
        }
    }
    false
}

/// As much waits for a switch as may.
fn has_full(held: &Held) -> bool {
    held.switches
        .as_slice()
        .iter()
        .any(|switch| switch.outbox.is_full())
}

/// Much waits for a session: many messages, or many bytes.
fn is_crowded(held: &Held, who: Who) -> bool {
    match outbox_for(held, who) {
        Some(outbox) => is_much(outbox),
        None => false,
    }
}

/// Much waits.
fn is_much(outbox: &Outbox) -> bool {
    outbox.is_crowded() || outbox.is_heavy()
}

/// As much waits for a session as may.
fn is_full(held: &Held, who: Who) -> bool {
    match outbox_for(held, who) {
        Some(outbox) => outbox.is_full(),
        None => false,
    }
}

/// Something waits for a session.
fn has_some(held: &Held, who: Who) -> bool {
    match outbox_for(held, who) {
        Some(outbox) => outbox.glance(outbox.round()).is_none(),
        None => false,
    }
}

/// What waits: for each member a bit, for each switch, and for the audit.
pub(crate) fn marks(held: &Held) -> Marks {
    let mut marks = Marks {
        stirred: member_bits(held) | switch_bits(held) << MEMBERS,
        crowded: held
            .switches
            .as_slice()
            .iter()
            .any(|switch| is_much(&switch.outbox)),
    };
    if !held.audit.is_empty() {
        marks.stirred |= 1 << (MEMBERS + SWITCHES);
    }
    marks
}

fn member_bits(held: &Held) -> u64 {
    let mut bits = 0;
    for n in 0..MEMBERS {
        if has_some(held, Who::Member(n)) {
            bits |= 1 << n;
        }
    }
    bits
}

fn switch_bits(held: &Held) -> u64 {
    let mut bits = 0;
    for n in 0..SWITCHES {
        if has_some(held, Who::Switch(n)) {
            bits |= 1 << n;
        }
    }
    bits
}
