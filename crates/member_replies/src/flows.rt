//! Statistics of entries (`ofp_flow_stats` and `ofp_aggregate_stats_reply`, section 5.3.5 of the standard).
ghost use Rattle.std.specs.Prelude.{◌≡◌, ◌≤◌, All, IfOk, length, map, option_to_list, take};
ghost use Rattle.std.specs.List.{slice_get};
ghost use Rattle.of10_actions.specs.Actions.{AreInRange};
ghost use Rattle.of10_stats.specs.Ranges.{CanWriteEntry};
ghost use Rattle.switch_meaning.specs.Counts.{Numbers};
ghost use Rattle.member_table.specs.Sound.{IsSound};
ghost use Rattle.member_replies.specs.Filters.{listed};
ghost use Rattle.member_replies.specs.InsideSums.{sums_of, sums_with};
ghost use Rattle.member_replies.specs.Statistics.{AreShort, aggregate, flow_stat as stat_of, flows, messages};

use crate::counting::EntryCounts;
use crate::filter::Filter;
use crate::packets::{match_of, seconds};
use cv_io::{Bytes, List, Memory};
use member_table::{Entry, Table};
use of10_actions::write_list;
use of10_stats::{FlowStat, ReplyBody, StatsReply, write_reply};
use std::alloc::Global;

/// The FLOW reply of a table: the entries that the filter lists, each with its count, at a moment.
pub fn flow_reply<C: EntryCounts>(
    alloc: Global,
    xid: u32,
    table: &Table,
    filter: &Filter,
    counts: &C,
    moment: u64,
) -> Result<List<Bytes>, Memory>
    requires { AreShort table.now.table.entries }
    ensures { IfOk result
        (λ sent. sent ≡ messages xid (flows moment (C.numbers counts.now) filter.now table.now.table.entries)) }
{
    let mut entries = List::new(alloc);
    for place in 0..table.len() {
        entries.push_some(stat_at(alloc, table, place, filter, counts, moment)?)?;
    }
    let reply = StatsReply {
        more: false,
        body: ReplyBody::Flow { entries },
    };
    write_reply(alloc, &reply, xid)
}

/// The statistics of the entry at a place, if the filter lists it.
fn stat_at<C: EntryCounts>(
    alloc: Global,
    table: &Table,
    place: usize,
    filter: &Filter,
    counts: &C,
    moment: u64,
) -> Result<Option<FlowStat>, Memory>
    requires sound { IsSound table.now.table }
    requires short { AreShort table.now.table.entries }
    ensures stats { IfOk result (λ stat. option_to_list stat
        ≡ map (λ e. stat_of moment (C.numbers counts.now e.serial) e)
        (listed filter.now (option_to_list (slice_get table.now.table.entries place)))) }
    ensures writable { IfOk result (λ stat. All CanWriteEntry (option_to_list stat)) }
{
    let Some(entry) = table.at(place) else {
        return Ok(None);
    };
    if !filter.lists(entry) {
        return Ok(None);
    }
    let (packets, bytes) = counts.count(entry.serial);
    let stat = flow_stat(alloc, entry, packets, bytes, moment)?;
    Ok(Some(stat))
}

/// The statistics of an entry with its packets and bytes, at a moment.
fn flow_stat(
    alloc: Global,
    entry: &Entry,
    packets: u64,
    bytes: u64,
    moment: u64,
) -> Result<FlowStat, Memory>
    requires in_range { AreInRange entry.now.actions }
    requires short { length entry.now.actions ≤ 64 }
    ensures stat { IfOk result (λ stat. stat ≡ stat_of moment (record { packets = packets; bytes = bytes }) entry.now) }
    ensures writable { IfOk result CanWriteEntry }
{
    Ok(FlowStat {
        table_id: 0,
        m: match_of(entry),
        duration_sec: seconds(entry, moment),
        duration_nsec: 0,
        priority: entry.priority,
        idle: entry.idle,
        hard: entry.hard,
        cookie: entry.cookie,
        packets,
        bytes,
        actions: write_list(alloc, &entry.actions)?,
    })
}

/// Sums over entries, each of which stands still at its type's end.
#[derive(Clone, Copy, PartialEq, Eq, Debug)]
pub struct Sums {
    pub packets: u64,
    pub bytes: u64,
    pub flows: u32,
}

/// The AGGREGATE reply of a table: the sums over the entries that the filter lists.
pub fn aggregate_reply<C: EntryCounts>(
    alloc: Global,
    xid: u32,
    table: &Table,
    filter: &Filter,
    counts: &C,
) -> Result<List<Bytes>, Memory>
    ensures { IfOk result
        (λ sent. sent ≡ messages xid (aggregate (C.numbers counts.now) filter.now table.now.table.entries)) }
{
    let mut sums = Sums {
        packets: 0,
        bytes: 0,
        flows: 0,
    };
    for place in 0..table.len() {
        sums = with_entry_at(sums, table, place, filter, counts);
    }
    let reply = StatsReply {
        more: false,
        body: ReplyBody::Aggregate {
            packets: sums.packets,
            bytes: sums.bytes,
            flows: sums.flows,
        },
    };
    write_reply(alloc, &reply, xid)
}

/// Sums with the entry at a place, if the filter lists it.
fn with_entry_at<C: EntryCounts>(
    sums: Sums,
    table: &Table,
    place: usize,
    filter: &Filter,
    counts: &C,
) -> Sums
    requires { IsSound table.now.table }
    ensures { result ≡ sums_with (C.numbers counts.now) sums
        (listed filter.now (option_to_list (slice_get table.now.table.entries place))) }
{
    let Some(entry) = table.at(place) else {
        return sums;
    };
    if !filter.lists(entry) {
        return sums;
    }
    let (packets, bytes) = counts.count(entry.serial);
    Sums {
        packets: sums.packets.saturating_add(packets),
        bytes: sums.bytes.saturating_add(bytes),
        flows: sums.flows.saturating_add(1),
    }
}
