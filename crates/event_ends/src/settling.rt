//! What waits for nothing any more settles, in the order in which it began.
ghost use Rattle.std.specs.Prelude.{◌≡◌, ◌∷◌, ◌≤◌, [], IfOk, IfSome, IsTrue, OnOk, fold, length, slice_get};
ghost use Rattle.member_replies.specs.Statistics.{AreShort, aggregate, flows, messages};
ghost use Rattle.member_table.specs.declared.entry.Entry.{Entry as EntryOf};
ghost use Rattle.of10_msgs.specs.declared.message.Body.{Body};
ghost use Rattle.stats_map.specs.Counting.{count};
ghost use Rattle.stats_map.specs.Told.{told};
ghost use Rattle.machine_meaning.specs.Counted.{leaf_at};
ghost use Rattle.machine_meaning.specs.Drafts.{message};
ghost use Rattle.machine_drafts.specs.Outcomes.{AreTimely, bases, draft_in, state_in};
ghost use Rattle.machine_meaning.specs.Settling.{aggregate_replies as aggregate_replies_of};
ghost use Rattle.machine_meaning.specs.Settling.{flow_replies as flow_replies_of};
ghost use Rattle.machine_meaning.specs.Settling.{port_replies as port_replies_of, settle as settle_of};
ghost use Rattle.machine_meaning.specs.Settling.{settle_for as settle_for_of, settle_one as settle_one_of};
ghost use Rattle.machine_meaning.specs.Settling.{settled_with};

use crate::doubts::decide_all;
use cv_io::{Bytes, List, Memory};
use machine_drafts::answering::address_all;
use machine_drafts::counting::MemberCounts;
use machine_drafts::member_draft::MemberDraft;
use machine_drafts::outcome::Outcome;
use machine_drafts::setup::Setup;
use member_replies::{Filter, aggregate_reply, barrier_reply, flow_reply, port_reply};
use member_table::Table;
use of10_stats::PortStat;
use std::alloc::Global;
use waitings::{Asker, Purpose, Waiting};

/// The list of actions of the entry at a place is short.
fn is_short(table: &Table, place: usize) -> bool
    ensures { IsTrue result
        → IfSome (slice_get table.now.table.entries place) (λ (e : EntryOf). length e.actions ≤ 64) }
{
    match table.at(place) {
        Some(entry) => entry.actions.len() <= 64,
        None => true,
    }
}

/// Each list of actions is short, as all are that grants let through.
fn are_short(table: &Table) -> bool
    ensures { IsTrue result → AreShort table.now.table.entries }
{
    for place in 0..table.len() {
        if !is_short(table, place) {
            return false;
        }
    }
    true
}

/// FLOW: the entries of a member's table at the moment, with their counts.
fn flows_in(
    alloc: Global,
    table: &Table,
    counts: &MemberCounts<'_>,
    asker: &Asker,
    filter: &Filter,
    moment: u64,
) -> Result<List<Bytes>, Memory>
    ensures { IfOk result (λ sent. sent ≡ messages asker.now.xid (flows moment
        (λ serial. count (told counts.now.counts.now.now) (leaf_at counts.now.member serial)) filter.now
        table.now.table.entries)) }
{
    if !are_short(table) {
        return Err(Memory);
    }
    flow_reply(alloc, asker.xid, table, filter, counts, moment)
}

/// FLOW: the entries of a member at the moment, with their counts.
fn flows_of(
    alloc: Global,
    member: &MemberDraft<'_>,
    counts: &MemberCounts<'_>,
    asker: &Asker,
    filter: &Filter,
    moment: u64,
) -> Result<List<Bytes>, Memory>
    ensures { IfOk result (λ sent. sent ≡ messages asker.now.xid (flows moment
        (λ serial. count (told counts.now.counts.now.now) (leaf_at counts.now.member serial)) filter.now
        member.now.now.kept.table.entries)) }
{
    let kept = member.kept()?;
    let sent = flows_in(alloc, kept.state().table(), counts, asker, filter, moment);
    drop(kept);
    sent
}

/// FLOW: no entries.
fn no_flows(
    alloc: Global,
    counts: &MemberCounts<'_>,
    asker: &Asker,
    filter: &Filter,
    moment: u64,
) -> Result<List<Bytes>, Memory>
    ensures { IfOk result (λ sent. sent ≡ messages asker.now.xid (flows moment
        (λ serial. count (told counts.now.counts.now.now) (leaf_at counts.now.member serial)) filter.now [])) }
{
    let none = Table::new(alloc, 0);
    flow_reply(alloc, asker.xid, &none, filter, counts, moment)
}

/// FLOW: the entries of the asker at the moment, with their counts.
fn flow_replies(
    alloc: Global,
    draft: &Outcome<'_>,
    asker: &Asker,
    filter: &Filter,
) -> Result<List<Bytes>, Memory>
    ensures { IfOk result (λ sent. sent ≡ flow_replies_of (state_in draft.now) asker.now filter.now) }
{
    let counts = MemberCounts {
        counts: &draft.counts,
        member: asker.member,
    };
    match draft.members.get(asker.member as usize) {
        Some(member) => flows_of(alloc, member, &counts, asker, filter, draft.moment),
        None => no_flows(alloc, &counts, asker, filter, draft.moment),
    }
}

/// AGGREGATE: the sums of the counts of a member's entries.
fn aggregate_of(
    alloc: Global,
    member: &MemberDraft<'_>,
    counts: &MemberCounts<'_>,
    asker: &Asker,
    filter: &Filter,
) -> Result<List<Bytes>, Memory>
    ensures { IfOk result (λ sent. sent ≡ messages asker.now.xid (aggregate
        (λ serial. count (told counts.now.counts.now.now) (leaf_at counts.now.member serial)) filter.now
        member.now.now.kept.table.entries)) }
{
    let kept = member.kept()?;
    let sent = aggregate_reply(alloc, asker.xid, kept.state().table(), filter, counts);
    drop(kept);
    sent
}

/// AGGREGATE: the sums of no counts.
fn no_aggregate(
    alloc: Global,
    counts: &MemberCounts<'_>,
    asker: &Asker,
    filter: &Filter,
) -> Result<List<Bytes>, Memory>
    ensures { IfOk result (λ sent. sent ≡ messages asker.now.xid (aggregate
        (λ serial. count (told counts.now.counts.now.now) (leaf_at counts.now.member serial)) filter.now [])) }
{
    let none = Table::new(alloc, 0);
    aggregate_reply(alloc, asker.xid, &none, filter, counts)
}

/// AGGREGATE: the sums of the counts of the asker's entries.
fn aggregate_replies(
    alloc: Global,
    draft: &Outcome<'_>,
    asker: &Asker,
    filter: &Filter,
) -> Result<List<Bytes>, Memory>
    ensures { IfOk result (λ sent. sent ≡ aggregate_replies_of (state_in draft.now) asker.now filter.now) }
{
    let counts = MemberCounts {
        counts: &draft.counts,
        member: asker.member,
    };
    match draft.members.get(asker.member as usize) {
        Some(member) => aggregate_of(alloc, member, &counts, asker, filter),
        None => no_aggregate(alloc, &counts, asker, filter),
    }
}

/// FLOW: the asker is answered.
fn settle_flow(
    alloc: Global,
    draft: &mut Outcome<'_>,
    asker: &Asker,
    filter: &Filter,
) -> Result<(), Memory>
    ensures drafted { OnOk result (draft_in draft.new ≡ settled_with asker.now
        (flow_replies_of (state_in draft.old) asker.now filter.now) (draft_in draft.old)) }
    ensures bases { OnOk result (bases draft.new ≡ bases draft.old) }
{
    let replies = flow_replies(alloc, draft, asker, filter)?;
    address_all(&mut draft.settled, asker.member, replies)?;
    Ok(())
}

/// AGGREGATE: the asker is answered.
fn settle_aggregate(
    alloc: Global,
    draft: &mut Outcome<'_>,
    asker: &Asker,
    filter: &Filter,
) -> Result<(), Memory>
    ensures drafted { OnOk result (draft_in draft.new ≡ settled_with asker.now
        (aggregate_replies_of (state_in draft.old) asker.now filter.now) (draft_in draft.old)) }
    ensures bases { OnOk result (bases draft.new ≡ bases draft.old) }
{
    let replies = aggregate_replies(alloc, draft, asker, filter)?;
    address_all(&mut draft.settled, asker.member, replies)?;
    Ok(())
}

/// PORT: the ports that the member sees.
fn port_replies(
    setup: &Setup,
    asker: &Asker,
    port_no: u16,
    told: &[PortStat],
) -> Result<List<Bytes>, Memory>
    ensures { IfOk result (λ sent. sent
        ≡ port_replies_of (slice_get setup.now.members asker.now.member) asker.now port_no told.now) }
{
    let alloc = setup.alloc();
    // The proof learns that each member sees few ports.
    let _ = setup.policy();
    match setup.member(asker.member) {
        Some(member) => port_reply(alloc, asker.xid, port_no, &member.grant.ports, told),
        None => Ok(List::new(alloc)),
    }
}

/// The message that a member's barrier is passed.
fn barrier_replies(alloc: Global, asker: &Asker) -> Result<List<Bytes>, Memory>
    ensures { IfOk result (λ sent. sent ≡ message asker.now.xid Body.BarrierReply ∷ []) }
{
    let mut replies = List::new(alloc);
    replies.push(barrier_reply(alloc, asker.xid)?)?;
    Ok(replies)
}

/// What is done for a purpose that waits for nothing any more.
fn settle_for(setup: &Setup, draft: &mut Outcome<'_>, purpose: &Purpose) -> Result<(), Memory>
    requires { AreTimely (bases draft.old) }
    ensures drafted { OnOk result (draft_in draft.new ≡ settle_for_of setup.now purpose.now (draft_in draft.old)) }
    ensures bases { OnOk result (bases draft.new ≡ bases draft.old) }
{
    let alloc = setup.alloc();
    match purpose {
        Purpose::Flow { asker, filter } => settle_flow(alloc, draft, asker, filter),
        Purpose::Aggregate { asker, filter } => settle_aggregate(alloc, draft, asker, filter),
        Purpose::Port {
            asker,
            port_no,
            told,
        } => {
            let replies = port_replies(setup, asker, *port_no, told.as_slice())?;
            address_all(&mut draft.settled, asker.member, replies)
        }
        Purpose::Idle { doubts } => decide_all(draft, doubts.as_slice()),
        Purpose::Barrier { asker } => {
            let replies = barrier_replies(alloc, asker)?;
            address_all(&mut draft.settled, asker.member, replies)
        }
    }
}

/// What is done settles, one after the other.
fn settle_all(setup: &Setup, draft: &mut Outcome<'_>, done: &[Waiting]) -> Result<(), Memory>
    requires { AreTimely (bases draft.old) }
    ensures drafted { OnOk result (draft_in draft.new
        ≡ fold (settle_one_of setup.now) (draft_in draft.old) done.now) }
    ensures bases { OnOk result (bases draft.new ≡ bases draft.old) }
{
    for waiting in done {
        settle_for(setup, draft, &waiting.purpose)?;
    }
    Ok(())
}

/// What waits for nothing any more settles, one after the other, and waits no more.
pub fn settle(setup: &Setup, draft: &mut Outcome<'_>) -> Result<(), Memory>
    requires { AreTimely (bases draft.old) }
    ensures drafted { OnOk result (draft_in draft.new ≡ settle_of setup.now (draft_in draft.old)) }
    ensures bases { OnOk result (bases draft.new ≡ bases draft.old) }
{
    let done = draft.waiting.take_done()?;
    settle_all(setup, draft, done.as_slice())
}
