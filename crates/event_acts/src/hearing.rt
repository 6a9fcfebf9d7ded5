//! What a switch's frame tells of counts is taken over before the event is drafted, and taken back where the draft
//! ends for want of memory.
ghost use Rattle.std.specs.Prelude.{◌≡◌, IfOk, map, reverse};
ghost use Rattle.stats_map.specs.Told.{told};
ghost use Rattle.switch_state.specs.Reports.{removal};
ghost use Rattle.event_acts.specs.CookieCounts.{counts_in as counts_in_of, entry_count, with_count, with_counts};

use crate::heard::Heard;
use cv_io::{List, Memory};
use of10_stats::FlowStat;
use stats_map::Counts;
use std::alloc::Global;
use switch_state::{Known, Removal};
use waitings::Waitings;

/// What a switch counted under a cookie.
#[derive(Clone, Copy, PartialEq, Eq, Debug)]
pub struct CookieCount {
    pub cookie: u64,
    pub packets: u64,
    pub bytes: u64,
}

/// The numbers of entries, in an answer to a poll.
fn entry_counts(alloc: Global, entries: &List<FlowStat>) -> Result<List<CookieCount>, Memory>
    ensures { IfOk result (λ counts. counts ≡ map entry_count entries.now) }
{
    let mut counts = List::with_capacity(alloc, entries.len())?;
    for entry in entries.as_slice() {
        counts.push(CookieCount {
            cookie: entry.cookie,
            packets: entry.packets,
            bytes: entry.bytes,
        })?;
    }
    Ok(counts)
}

/// What is taken over of what a switch tells.
pub fn counts_in(
    alloc: Global,
    waiting: &Waitings<'_>,
    known: &Known,
    switch: u32,
    heard: &Heard,
) -> Result<List<CookieCount>, Memory>
    ensures { IfOk result (λ counts. counts ≡ counts_in_of waiting.now.now known.now switch heard.now) }
{
    match heard {
        Heard::Flows { xid, entries, .. } => {
            if waiting.waits_for_flows(switch, *xid) {
                entry_counts(alloc, entries)
            } else {
                Ok(List::new(alloc))
            }
        }
        Heard::FlowRemoved {
            cookie,
            packets,
            bytes,
        } => {
            let mut counts = List::new(alloc);
            if let Removal::Taken = known.removal(*cookie) {
                counts.push(CookieCount {
                    cookie: *cookie,
                    packets: *packets,
                    bytes: *bytes,
                })?;
            }
            Ok(counts)
        }
        _ => Ok(List::new(alloc)),
    }
}

/// The counts take the numbers of a cookie over. What takes that back.
fn exchange(counts: &mut Counts, switch: u32, count: CookieCount) -> CookieCount
    ensures told { told counts.new ≡ with_count switch (told counts.old) count }
    ensures back { with_count switch (told counts.new) result ≡ told counts.old }
{
    let CookieCount {
        cookie,
        packets,
        bytes,
    } = count;
    let before = counts.numbers(switch, cookie);
    counts.report(switch, cookie, packets, bytes, false);
    match before {
        Some(numbers) => CookieCount {
            cookie,
            packets: numbers.0,
            bytes: numbers.1,
        },
        None => count,
    }
}

/// The counts take over what a switch counted. What takes that back, the last one first.
pub fn take_over(counts: &mut Counts, switch: u32, numbers: List<CookieCount>) -> List<CookieCount>
    ensures told { told counts.new ≡ with_counts switch numbers (told counts.old) }
    ensures back { with_counts switch (reverse result) (told counts.new) ≡ told counts.old }
{
    let mut exchanged = numbers.into_vec();
    for count in exchanged.iter_mut() {
        *count = exchange(counts, switch, *count);
    }
    List::from_vec(exchanged)
}

/// What was taken over is taken back.
pub fn take_back(counts: &mut Counts, switch: u32, numbers: List<CookieCount>)
    ensures { told counts.new ≡ with_counts switch (reverse numbers) (told counts.old) }
{
    let mut left = numbers;
    while let Some(
        CookieCount {
            cookie,
            packets,
            bytes,
        },
    ) = left.pop()
    {
        counts.report(switch, cookie, packets, bytes, false);
    }
}
