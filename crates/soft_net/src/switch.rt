//! A switch in memory.
ghost use Rattle.std.specs.Prelude.{◌≡◌, [], IfOk, IfSome, OnOk};
ghost use Rattle.std.specs.Option.{option_copied};
ghost use Rattle.of10_actions.specs.Actions.{AreInRange};
ghost use Rattle.of10_msgs.specs.Ranges.{IsInRange};
ghost use Rattle.soft_net.specs.Counting.{counted_all, counted_by, port_counted, ports_counted, zero_ports};
ghost use Rattle.soft_net.specs.Entries.{IsAsWritten};
ghost use Rattle.soft_net.specs.Passing.{both_passed, handled_by, passes, sends_out, sent_by};

use crate::counting::{count_received, count_sent, zero_port};
use crate::entry::SoftEntry;
use crate::passed::{Hit, Passed};
use crate::table::Table;
use cv_io::{List, Memory};
use of10_actions::NO_MATCH;
use of10_msgs::number::NO_BUFFER;
use of10_msgs::{Body, PacketOut};
use of10_stats::PortStat;
use pkt_bytes::header_of;
use std::alloc::Global;
use std::collections::BTreeMap;

/// A switch: its flow table, and the counts of its ports by their numbers.
#[derive(Drop)]
pub struct SoftSwitch {
    pub(crate) alloc: Global,
    pub(crate) table: Table,
    pub(crate) ports: BTreeMap<u16, PortStat>,
}

impl SoftSwitch {
    /// A switch with these ports, an empty table, and zero counts.
    pub fn new(alloc: Global, ports: &[u16]) -> Result<SoftSwitch, Memory>
        ensures table { IfOk result (λ switch. switch.table ≡ record { entries = []; next = 0 }) }
        ensures ports { IfOk result (λ switch. switch.ports.entries ≡ zero_ports ports.now) }
    {
        let mut counts = BTreeMap::new(alloc);
        for port in ports {
            counts.insert(*port, zero_port(*port))?;
        }
        Ok(SoftSwitch {
            alloc,
            table: Table::new(alloc),
            ports: counts,
        })
    }

    /// What the switch makes of a packet that comes by a port, and what is to be counted for it. Nothing
    /// is changed.
    pub fn pass(&self, port: u16, frame: &[u8]) -> Result<Passed, Memory>
        ensures { IfOk result (λ passed. passed ≡ passes self.now.table.entries port frame.now) }
    {
        let mut passed = Passed::new(self.alloc);
        passed.hits.push(Hit::Received {
            port,
            bytes: frame.len() as u64,
        })?;
        self.handle(
            &mut passed,
            self.table.best(&header_of(frame, port)),
            port,
            frame,
        )?;
        Ok(passed)
    }

    /// Appends what the entry that handles a packet makes of it; without one a copy goes to the controller.
    fn handle(
        &self,
        passed: &mut Passed,
        best: Option<&SoftEntry>,
        port: u16,
        frame: &[u8],
    ) -> Result<(), Memory>
        requires { IfSome (option_copied best) IsAsWritten }
        ensures { OnOk result (passed.new ≡ both_passed passed.old (handled_by (option_copied best.entry) port frame.now)) }
    {
        match best {
            Some(entry) => {
                passed.hits.push(Hit::Entry {
                    serial: entry.serial,
                    bytes: frame.len() as u64,
                })?;
                passed.perform(self.alloc, &entry.flow.actions, port, frame)
            }
            None => passed.copy(NO_MATCH, port, List::from_slice(self.alloc, frame)?),
        }
    }

    /// What the switch makes of a PACKET_OUT (section 5.3.6). It has no buffers.
    pub fn send(&self, out: &PacketOut) -> Result<Passed, Memory>
        requires { AreInRange out.now.actions }
        ensures { IfOk result (λ passed. passed ≡ sends_out out.now) }
    {
        let mut passed = Passed::new(self.alloc);
        if out.buffer_id == NO_BUFFER {
            passed.perform(self.alloc, &out.actions, out.in_port, out.bytes.as_slice())?;
        }
        Ok(passed)
    }

    /// What the switch makes of what a message sends.
    pub(crate) fn sent(&self, body: &Body) -> Result<Passed, Memory>
        requires { IsInRange body.now }
        ensures { IfOk result (λ passed. passed ≡ sent_by body.now) }
    {
        match body {
            Body::PacketOut(out) => self.send(out),
            _ => Ok(Passed::new(self.alloc)),
        }
    }

    /// Counts what is to be counted. It takes no memory.
    pub fn count(&mut self, hits: &[Hit])
        ensures table { self.new.table ≡ counted_all hits.now self.old.table }
        ensures ports { self.new.ports.entries ≡ ports_counted hits.now self.old.ports.entries }
    {
        for hit in hits {
            self.count_one(*hit);
        }
    }

    pub(crate) fn count_one(&mut self, hit: Hit)
        ensures table { self.new.table ≡ counted_by hit self.old.table }
        ensures ports { self.new.ports.entries ≡ port_counted hit self.old.ports.entries }
    {
        match hit {
            Hit::Entry { serial, bytes } => self.table.count(serial, bytes),
            Hit::Received { port, bytes } => count_received(&mut self.ports, port, bytes),
            Hit::Sent { port, bytes } => count_sent(&mut self.ports, port, bytes),
        }
    }
}
