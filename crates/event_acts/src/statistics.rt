//! A member asks for statistics.
ghost use Rattle.std.specs.Prelude.{◌≡◌, ◌<◌, IfOk, OnOk, Some, length, slice_get};
ghost use Rattle.member_replies.specs.Statistics.{description, messages, tables};
ghost use Rattle.machine_meaning.specs.Drafts.{answering};
ghost use Rattle.machine_drafts.specs.MemberDrafts.{MemberDraftOf};
ghost use Rattle.machine_meaning.specs.Names.{virtual_dpid, virtual_name, virtual_of};
ghost use Rattle.machine_drafts.specs.Outcomes.{bases, draft_in};
ghost use Rattle.machine_meaning.specs.Statistics.{asked as asked_of};

use cv_io::{Bytes, List, Memory};
use machine_drafts::answering::answer_all;
use machine_drafts::member_draft::MemberDraft;
use machine_drafts::outcome::Outcome;
use machine_drafts::polls::begin_poll;
use machine_drafts::setup::Setup;
use member_replies::{Filter, desc_reply, table_reply};
use of10_stats::StatsRequest;
use policies::MemberItem;
use std::alloc::Global;
use waitings::{Asker, Purpose};

/// The DESC reply of a virtual switch.
fn described(setup: &Setup, v: u32, xid: u32) -> Result<List<Bytes>, Memory>
    requires { v < length setup.now.virtuals }
    ensures { IfOk result (λ sent. sent
        ≡ messages xid (description (virtual_dpid setup.now v) (virtual_name setup.now v))) }
{
    match setup.virtual_at(v) {
        Some(item) => desc_reply(setup.alloc(), xid, item.dpid, &item.name),
        None => unreachable!(),
    }
}

/// The TABLE reply of the member of a number.
fn tables_at(
    alloc: Global,
    members: &[MemberDraft<'_>],
    n: u32,
    xid: u32,
) -> Result<List<Bytes>, Memory>
    requires { n < length members.now }
    ensures { (x : MemberDraftOf) → slice_get members.now n ≡ Some x
        → IfOk result (λ sent. sent ≡ messages xid (tables x.now.kept.table.limit x.now.kept.table.entries)) }
{
    let kept = members[n as usize].kept()?;
    let table = kept.state().table();
    let sent = table_reply(alloc, xid, table.limit(), table);
    drop(kept);
    sent
}

/// A request for what the table holds is answered.
fn tables_asked(setup: &Setup, draft: &mut Outcome<'_>, n: u32, xid: u32) -> Result<(), Memory>
    requires { n < length draft.old.members }
    ensures drafted { (x : MemberDraftOf) → slice_get draft.old.members n ≡ Some x
        → OnOk result (draft_in draft.new
        ≡ answering n (messages xid (tables x.now.kept.table.limit x.now.kept.table.entries)) (draft_in draft.old)) }
    ensures bases { OnOk result (bases draft.new ≡ bases draft.old) }
{
    let sent = tables_at(setup.alloc(), draft.members.as_slice(), n, xid)?;
    answer_all(draft, n, sent)
}

/// DESC and TABLE are answered at once; for all else the virtual switch is polled.
pub fn asked(
    setup: &Setup,
    draft: &mut Outcome<'_>,
    n: u32,
    m: &MemberItem,
    xid: u32,
    request: StatsRequest,
) -> Result<(), Memory>
    requires there { m.now.grant.ports.v < length setup.now.virtuals }
    requires member { n < length draft.old.members }
    ensures drafted { (x : MemberDraftOf) → slice_get draft.old.members n ≡ Some x
        → OnOk result (draft_in draft.new
        ≡ asked_of setup.now n (virtual_of m.now) x.now xid request (draft_in draft.old)) }
    ensures bases { OnOk result (bases draft.new ≡ bases draft.old) }
{
    let v = m.grant.ports.v;
    let asker = Asker { member: n, xid };
    match request {
        StatsRequest::Desc => {
            let sent = described(setup, v, xid)?;
            answer_all(draft, n, sent)
        }
        StatsRequest::Table => tables_asked(setup, draft, n, xid),
        StatsRequest::Flow {
            m: wanted,
            table_id,
            out_port,
        } => {
            let filter = Filter::new(&wanted, table_id, out_port);
            begin_poll(setup, draft, v, Purpose::Flow { asker, filter })
        }
        StatsRequest::Aggregate {
            m: wanted,
            table_id,
            out_port,
        } => {
            let filter = Filter::new(&wanted, table_id, out_port);
            begin_poll(setup, draft, v, Purpose::Aggregate { asker, filter })
        }
        StatsRequest::Port { port_no } => {
            let told = List::new(setup.alloc());
            begin_poll(
                setup,
                draft,
                v,
                Purpose::Port {
                    asker,
                    port_no,
                    told,
                },
            )
        }
    }
}
