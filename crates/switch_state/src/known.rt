//! What is known of a switch in its round.
ghost use Rattle.std.specs.Prelude.{◌≡◌, ◌<◌, IfOk, OnErr, OnOk, length};
ghost use Rattle.switch_state.specs.Reports.{tells_down as tells_down_of};

use crate::barrier::Barrier;
use crate::messages::{flow_request, packet_out, port_request};
use crate::outstanding::{OfXid, has, insert, numbers, remove};
use crate::removal::Removal;
use crate::sending::{begin, send, write_batch};
use cv_io::{Bytes, Duplicate, List, Memory};
use install_plan::Batch;
use of10_msgs::number::PORT_DELETED;
use of10_msgs::{Body, Command, FlowMod, PhyPort};
use outbox::Letters;
use shared_list::SharedList;
use std::alloc::Global;
use std::collections::BTreeSet;
use std::marker::Model;

/// What is known of a switch in its round: it is thrown away as the round ends. Copies share what is outstanding.
#[derive(Drop)]
pub struct Known {
    /// Of the last message that took one.
    xid: u32,
    /// The first cookie that the round can write.
    first: u64,
    /// How many barriers were sent.
    begun: u64,
    /// Those that aren't answered, the oldest first.
    barriers: SharedList<Barrier>,
    /// Whether one was answered.
    answered: bool,
    /// The ports that are down.
    dark: BTreeSet<u16>,
    /// The cookies whose entries were deleted, and whose removals weren't reported; they rise.
    deleted: SharedList<u64>,
}

impl Model for Known {
    ghost use Rattle.switch_state.specs.InsideKnown.{Rise};
    ghost use Rattle.switch_state.specs.Known.{KnownOf};

    ghost Value = { KnownOf };

    ghost view = { λ a. record {
      xid = a.xid;
      first = a.first;
      begun = a.begun;
      barriers = a.barriers;
      answered = a.answered;
      dark = a.dark.keys;
      deleted = a.deleted;
    } };

    ghost invariant = { λ a. Rise a.deleted };
}

impl Known {
    ghost use Rattle.switch_state.specs.Fitting.{CanSend};
    ghost use Rattle.switch_state.specs.Known.{is_dark as is_dark_of, nothing_known, unanswered as unanswered_of};
    ghost use Rattle.switch_state.specs.Messages.{flow_request as flow_request_of, packet_out as packet_out_of};
    ghost use Rattle.switch_state.specs.Messages.{port_request as port_request_of, switch_messages};
    ghost use Rattle.switch_state.specs.Reports.{answered_number, barrier_reply as barrier_reply_of};
    ghost use Rattle.switch_state.specs.Reports.{flow_removed as flow_removed_of, port_status as port_status_of};
    ghost use Rattle.switch_state.specs.Reports.{removal as removal_of};
    ghost use Rattle.switch_state.specs.Sending.{IsPartlySent, known_after, send as send_of, send_all, sending_of};

    /// As a round begins, in which this cookie is the first that can be written. It takes no memory.
    pub fn new(alloc: Global, first: u64) -> Known
        ensures { result ≡ nothing_known first }
    {
        Known {
            xid: 0,
            first,
            begun: 0,
            barriers: SharedList::new(alloc),
            answered: false,
            dark: BTreeSet::new(alloc),
            deleted: SharedList::new(alloc),
        }
    }

    /// The xid of the last message that took one; 0 before the first.
    pub fn xid(&self) -> u32
        ensures { result ≡ self.now.xid }
    {
        self.xid
    }

    /// The last PORT_STATUS of the port said that it is down.
    pub fn is_dark(&self, port: u16) -> bool
        ensures { result ≡ is_dark_of self.now port }
    {
        self.dark.contains(&port)
    }

    /// The numbers of the barriers that wait for their answers, the oldest first.
    pub fn unanswered(&self, alloc: Global) -> Result<List<u64>, Memory>
        ensures { IfOk result (λ numbers. numbers ≡ unanswered_of self.now) }
    {
        numbers(alloc, &self.barriers)
    }

    /// Sends a batch, and before it the installation where the round begins.
    pub fn write(
        &mut self,
        alloc: Global,
        begins: bool,
        batch: Batch,
        messages: &mut Letters,
    ) -> Result<(), Memory>
        requires { CanSend batch }
        ensures sent { OnOk result (sending_of self.new messages.new
            ≡ send_all (switch_messages begins batch) (sending_of self.old messages.old)) }
        ensures memory { OnErr result (IsPartlySent (switch_messages begins batch)
            (sending_of self.old messages.old) (sending_of self.new messages.new)) }
    {
        begin(alloc, self, begins, messages)?;
        write_batch(alloc, self, batch, messages)
    }

    /// Asks for the numbers of all entries. `xid` tells the xid of the request.
    pub fn poll_flows(&mut self, alloc: Global, messages: &mut Letters) -> Result<(), Memory>
        ensures sent { OnOk result (sending_of self.new messages.new
            ≡ send_of (sending_of self.old messages.old) flow_request_of) }
        ensures memory { OnErr result ((self.new ≡ self.old) × (messages.new ≡ messages.old)) }
    {
        let body = flow_request(alloc)?;
        send(alloc, self, body, messages)
    }

    /// Asks for the numbers of all ports.
    pub fn poll_ports(&mut self, alloc: Global, messages: &mut Letters) -> Result<(), Memory>
        ensures sent { OnOk result (sending_of self.new messages.new
            ≡ send_of (sending_of self.old messages.old) port_request_of) }
        ensures memory { OnErr result ((self.new ≡ self.old) × (messages.new ≡ messages.old)) }
    {
        let body = port_request(alloc)?;
        send(alloc, self, body, messages)
    }

    /// Sends a packet that is to leave by a port. A packet of a PACKET_OUT that has an action is short enough.
    pub fn send_packet(
        &mut self,
        alloc: Global,
        port: u16,
        bytes: Bytes,
        messages: &mut Letters,
    ) -> Result<(), Memory>
        requires { length bytes < 65512 }
        ensures sent { OnOk result (sending_of self.new messages.new
            ≡ send_of (sending_of self.old messages.old) (packet_out_of port bytes)) }
        ensures memory { OnErr result ((self.new ≡ self.old) × (messages.new ≡ messages.old)) }
    {
        let body = packet_out(alloc, port, bytes)?;
        send(alloc, self, body, messages)
    }

    /// Notes a message that is sent.
    pub(crate) fn note(&mut self, body: &Body, xid: u32) -> Result<(), Memory>
        ensures noted { OnOk result (self.new ≡ known_after body.now xid self.old) }
        ensures memory { OnErr result (self.new ≡ self.old) }
    {
        match body {
            Body::BarrierRequest => self.note_barrier(xid),
            Body::FlowMod(f) => self.note_flow_mod(f, xid),
            _ => {
                self.xid = xid;
                Ok(())
            }
        }
    }

    /// A barrier waits for its answer.
    fn note_barrier(&mut self, xid: u32) -> Result<(), Memory>
        ensures noted { OnOk result (self.new ≡ known_after Body.BarrierRequest xid self.old) }
        ensures memory { OnErr result (self.new ≡ self.old) }
    {
        let number = self.begun.saturating_add(1);
        self.barriers.push(Barrier { number, xid })?;
        self.begun = number;
        self.xid = xid;
        Ok(())
    }

    /// The cookie of a DELETE_STRICT waits for its removal.
    fn note_flow_mod(&mut self, f: &FlowMod, xid: u32) -> Result<(), Memory>
        ensures noted { OnOk result (self.new ≡ known_after (Body.FlowMod f.now) xid self.old) }
        ensures memory { OnErr result (self.new ≡ self.old) }
    {
        if f.command == Command::DeleteStrict.number() {
            insert(&mut self.deleted, f.cookie)?;
        }
        self.xid = xid;
        Ok(())
    }

    /// A switch answers a barrier: the oldest of that xid that waits. Its number in the round; None where there is
    /// none, so that the answer is ignored.
    pub fn barrier_reply(&mut self, xid: u32) -> Result<Option<u64>, Memory>
        ensures number { IfOk result (λ number. number ≡ answered_number xid self.old) }
        ensures answered { OnOk result (self.new ≡ barrier_reply_of xid self.old) }
        ensures memory { OnErr result (self.new ≡ self.old) }
    {
        match self.barriers.take_first(&OfXid { xid })? {
            Some(barrier) => {
                self.answered = true;
                Ok(Some(barrier.number))
            }
            None => Ok(None),
        }
    }

    /// What a removal of this cookie is.
    pub fn removal(&self, cookie: u64) -> Removal
        ensures { result ≡ removal_of self.now cookie }
    {
        if !self.answered || cookie < self.first {
            Removal::Ignored
        } else if has(&self.deleted, cookie) {
            Removal::Taken
        } else {
            Removal::Strange
        }
    }

    /// A switch reports the removal of a cookie.
    pub fn flow_removed(&mut self, cookie: u64) -> Result<Removal, Memory>
        ensures removal { IfOk result (λ removal. removal ≡ removal_of self.old cookie) }
        ensures known { OnOk result (self.new ≡ flow_removed_of cookie self.old) }
        ensures memory { OnErr result (self.new ≡ self.old) }
    {
        let removal = self.removal(cookie);
        if let Removal::Taken = removal {
            remove(&mut self.deleted, cookie)?;
        }
        Ok(removal)
    }

    /// A switch reports the state of a port.
    pub fn port_status(&mut self, reason: u8, port: &PhyPort) -> Result<(), Memory>
        ensures known { OnOk result (self.new ≡ port_status_of reason port.now self.old) }
        ensures memory { OnErr result (self.new ≡ self.old) }
    {
        if !tells_down(reason, port) {
            self.dark.remove(&port.port_no);
            return Ok(());
        }
        self.dark.insert(port.port_no)?;
        Ok(())
    }
}

/// Whether a PORT_STATUS tells that the port is down: it was deleted, or its link is down.
fn tells_down(reason: u8, port: &PhyPort) -> bool
    ensures { result ≡ tells_down_of reason port.now }
{
    reason == PORT_DELETED || port.state % 2 == 1
}

impl Duplicate for Known {
    fn copy(&self) -> Result<Known, Memory> {
        Ok(Known {
            xid: self.xid,
            first: self.first,
            begun: self.begun,
            barriers: self.barriers.copy()?,
            answered: self.answered,
            dark: self.dark.clone()?,
            deleted: self.deleted.copy()?,
        })
    }
}
