//! How a packet passes through a switch.
ghost use Rattle.std.specs.Prelude.{◌≡◌, ◌<◌, ◌^◌, IfOk, OnOk, length};
ghost use Rattle.of10_actions.specs.Actions.{AreInRange};
ghost use Rattle.soft_net.specs.Passing.{bare, both_passed, done, output as output_of, sends, sent_at, told, unpassed};

use crate::dress::Dress;
use crate::passed::{Hit, Packet, Passed};
use cv_io::{Bytes, List, Memory};
use of10_actions::port::{CONTROLLER, IN_PORT};
use of10_actions::{ACTION, Action};
use of10_msgs::number::NO_BUFFER;
use of10_msgs::{Body, Message};
use std::alloc::Global;

impl Passed {
    /// Nothing is sent, told or counted.
    pub(crate) fn new(alloc: Global) -> Passed
        ensures { result ≡ unpassed }
    {
        Passed {
            outs: List::new(alloc),
            copies: List::new(alloc),
            hits: List::new(alloc),
        }
    }

    /// Appends what a list of actions makes of a packet that came by a port.
    pub(crate) fn perform(
        &mut self,
        alloc: Global,
        actions: &List<Action>,
        in_port: u16,
        frame: &[u8],
    ) -> Result<(), Memory>
        requires { AreInRange actions.now }
        ensures { OnOk result (self.new ≡ both_passed self.old (done actions.now (bare frame.now) in_port frame.now)) }
    {
        let mut dress = Dress::of(frame);
        for action in actions.as_slice() {
            self.send(alloc, action, &dress, in_port, frame)?;
            dress = dress.set(action);
        }
        Ok(())
    }

    /// Appends what an action sends.
    fn send(
        &mut self,
        alloc: Global,
        action: &Action,
        dress: &Dress,
        in_port: u16,
        frame: &[u8],
    ) -> Result<(), Memory>
        ensures { OnOk result (self.new ≡ both_passed self.old (sends action.now dress.now in_port frame.now)) }
    {
        match *action {
            Action::Output { port, .. } | Action::Enqueue { port, .. } => {
                self.output(alloc, port, dress, in_port, frame)
            }
            _ => Ok(()),
        }
    }

    /// Appends a packet that goes out at a port, or its copy to the controller. A switch sends nothing
    /// back by number, but to IN_PORT.
    fn output(
        &mut self,
        alloc: Global,
        port: u16,
        dress: &Dress,
        in_port: u16,
        frame: &[u8],
    ) -> Result<(), Memory>
        ensures { OnOk result (self.new ≡ both_passed self.old (output_of port dress.now in_port frame.now)) }
    {
        if port == CONTROLLER {
            self.copy(ACTION, in_port, dress.on(alloc, frame)?)
        } else if port == IN_PORT {
            self.go(in_port, dress.on(alloc, frame)?)
        } else if port == in_port {
            Ok(())
        } else {
            self.go(port, dress.on(alloc, frame)?)
        }
    }

    /// Appends a packet that goes out.
    fn go(&mut self, port: u16, bytes: Bytes) -> Result<(), Memory>
        ensures { OnOk result (self.new ≡ both_passed self.old (sent_at port bytes)) }
    {
        let length = bytes.len() as u64;
        self.hits.push(Hit::Sent {
            port,
            bytes: length,
        })?;
        self.outs.push(Packet { port, bytes })
    }

    /// Appends a PACKET_IN (section 5.4.1), whole and without a buffer.
    pub(crate) fn copy(&mut self, reason: u8, in_port: u16, bytes: Bytes) -> Result<(), Memory>
        ensures { OnOk result (self.new ≡ both_passed self.old (told reason in_port bytes)) }
    {
        self.copies.push(Message {
            xid: 0,
            body: Body::PacketIn {
                buffer_id: NO_BUFFER,
                total_len: bytes.len().min(65535) as u16,
                in_port,
                reason,
                bytes,
            },
        })
    }
}
