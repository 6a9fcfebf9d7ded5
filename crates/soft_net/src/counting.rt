//! The counts of ports.
ghost use Rattle.std.specs.Prelude.{◌≡◌};
ghost use Rattle.soft_net.specs.Counting.{changed_port, received as received_of, sent as sent_of};
ghost use Rattle.soft_net.specs.Counting.{zero_port as zero_port_of};

use of10_stats::PortStat;
use std::collections::BTreeMap;

/// A port without counts. What isn't kept is zero: in memory nothing is lost or damaged.
pub(crate) fn zero_port(port_no: u16) -> PortStat
    ensures { result ≡ zero_port_of port_no }
{
    PortStat {
        port_no,
        rx_packets: 0,
        tx_packets: 0,
        rx_bytes: 0,
        tx_bytes: 0,
        rx_dropped: 0,
        tx_dropped: 0,
        rx_errors: 0,
        tx_errors: 0,
        rx_frame_err: 0,
        rx_over_err: 0,
        rx_crc_err: 0,
        collisions: 0,
    }
}

/// A port by which one packet more came.
fn received(stat: &PortStat, bytes: u64) -> PortStat
    ensures { result ≡ received_of bytes stat.now }
{
    PortStat {
        rx_packets: stat.rx_packets.saturating_add(1),
        rx_bytes: stat.rx_bytes.saturating_add(bytes),
        ..*stat
    }
}

/// A port at which one packet more went out.
fn sent(stat: &PortStat, bytes: u64) -> PortStat
    ensures { result ≡ sent_of bytes stat.now }
{
    PortStat {
        tx_packets: stat.tx_packets.saturating_add(1),
        tx_bytes: stat.tx_bytes.saturating_add(bytes),
        ..*stat
    }
}

/// Counts a packet that came by a port.
pub(crate) fn count_received(ports: &mut BTreeMap<u16, PortStat>, port: u16, bytes: u64)
    ensures { ports.new.entries ≡ changed_port port (received_of bytes) ports.old.entries }
{
    match ports.get_mut(&port) {
        Some(stat) => *stat = received(stat, bytes),
        None => {}
    }
}

/// Counts a packet that went out at a port.
pub(crate) fn count_sent(ports: &mut BTreeMap<u16, PortStat>, port: u16, bytes: u64)
    ensures { ports.new.entries ≡ changed_port port (sent_of bytes) ports.old.entries }
{
    match ports.get_mut(&port) {
        Some(stat) => *stat = sent(stat, bytes),
        None => {}
    }
}
