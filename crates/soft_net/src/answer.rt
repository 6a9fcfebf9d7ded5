//! What a switch answers.
ghost use Rattle.std.specs.Prelude.{◌≡◌, IfOk};
ghost use Rattle.soft_net.specs.Answers.{removal as removal_of, stat as stat_of};
ghost use Rattle.soft_net.specs.Entries.{IsAsWritten};

use crate::entry::SoftEntry;
use cv_io::Memory;
use of10_actions::write_list;
use of10_msgs::number::REMOVED;
use of10_msgs::{Body, Message};
use of10_stats::{FlowStat, StatsReply};
use std::alloc::Global;

/// What a switch answers.
#[derive(PartialEq, Eq, Debug, Drop)]
pub enum Answer {
    /// A message without statistics.
    Message(Message),
    /// A STATS_REPLY, which is written in parts where it is long.
    Statistics { xid: u32, reply: StatsReply },
}

/// The FLOW_REMOVED of an entry that was deleted (section 5.4.2), with its counts. Timeouts and times
/// aren't kept, so they are zero.
pub(crate) fn removal(entry: &SoftEntry) -> Message
    ensures { result ≡ removal_of entry.now }
{
    Message {
        xid: 0,
        body: Body::FlowRemoved {
            m: entry.raw,
            cookie: entry.cookie,
            priority: entry.flow.priority,
            reason: REMOVED,
            duration_sec: 0,
            duration_nsec: 0,
            idle_timeout: 0,
            packet_count: entry.packets,
            byte_count: entry.bytes,
        },
    }
}

/// What statistics tell of an entry (section 5.3.5).
pub(crate) fn stat(alloc: Global, entry: &SoftEntry) -> Result<FlowStat, Memory>
    requires { IsAsWritten entry.now }
    ensures { IfOk result (λ told. told ≡ stat_of entry.now) }
{
    Ok(FlowStat {
        table_id: 0,
        m: entry.raw,
        duration_sec: 0,
        duration_nsec: 0,
        priority: entry.flow.priority,
        idle: 0,
        hard: 0,
        cookie: entry.cookie,
        packets: entry.packets,
        bytes: entry.bytes,
        actions: write_list(alloc, &entry.flow.actions)?,
    })
}
