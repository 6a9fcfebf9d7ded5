//! What an event makes of a switch, beside the switch as it stands.
ghost use Rattle.std.specs.Prelude.{◌≡◌, ◌<◌, [], IfOk, IsTrue, OnOk, length, unwrap_or};
ghost use Rattle.switch_state.specs.Fitting.{CanSend};
ghost use Rattle.switch_state.specs.Known.{nothing_known};
ghost use Rattle.switch_state.specs.Messages.{flow_request, packet_out, port_request, switch_messages};
ghost use Rattle.switch_state.specs.Reports.{answered_number, barrier_reply as barrier_reply_of};
ghost use Rattle.switch_state.specs.Reports.{flow_removed as flow_removed_of, port_status as port_status_of};
ghost use Rattle.switch_state.specs.Reports.{removal};
ghost use Rattle.switch_state.specs.Sending.{send, send_all, sending_of};
ghost use Rattle.machine_meaning.specs.Rounds.{begun_switch, ended_switch};
ghost use Rattle.machine_drafts.specs.Moving.{IsSwitchPart, standing_moved, switch_moved, switch_put};
ghost use Rattle.machine_drafts.specs.SwitchDrafts.{IsStill, IsUnmoved, standing_switch};
ghost use Rattle.machine_drafts.specs.SwitchDrafts.{with_known, with_round, with_written};
ghost use Rattle.machine_drafts.specs.Views.{standing_of, switch_of};

use crate::session::Switch;
use cv_io::{Bytes, Duplicate, Memory};
use install_plan::Batch;
use of10_msgs::PhyPort;
use outbox::{Letters, Outbox, Turn};
use shared_rows::Rows;
use std::alloc::Global;
use std::marker::Model;
use switch_state::{Known, Removal};

/// What of a switch is after the event, where it changes.
#[derive(Drop)]
pub struct SwitchPart {
    pub turn: Turn,
    pub known: Option<Known>,
    pub standing: Option<Rows>,
    /// What it is put.
    pub letters: Letters,
}

/// A switch as it stands, and what an event makes of it.
#[derive(Drop)]
pub struct SwitchDraft<'a> {
    base: &'a Switch,
    turn: Turn,
    known: Option<Known>,
    standing: Option<Rows>,
    /// A port may have gone dark, or have come back: it was told of, or the round ended or began.
    turned: bool,
}

impl<'a> Model for SwitchDraft<'a> {
    ghost use Rattle.std.specs.Prelude.{◌≡◌, false, unwrap_or};
    ghost use Rattle.machine_drafts.specs.SwitchDrafts.{IsAsDark, SwitchDraftOf, switch_after};

    ghost Value = { SwitchDraftOf };

    ghost view = { λ a. record {
      base = a.base.now;
      now = switch_after a.base.now a.turn a.known;
      standing = unwrap_or a.standing a.base.now.standing;
    } };

    // Where no port was told of, ports are as dark as they were.
    ghost invariant = { λ a. a.turned ≡ false → IsAsDark a.base.now.known (unwrap_or a.known a.base.now.known) };
}

/// What is known so far, to be changed: a copy at the first change.
fn known_so_far(known: &mut Option<Known>, base: &Known) -> Result<Known, Memory>
    ensures known { IfOk result (λ k. k ≡ unwrap_or known.old base.now) }
    ensures taken { known.new ≡ None }
{
    match known.take() {
        Some(known) => Ok(known),
        None => base.copy(),
    }
}

impl<'a> SwitchDraft<'a> {
    /// The switch stays as it is.
    pub fn stay(base: &'a Switch) -> SwitchDraft<'a>
        ensures { result ≡ standing_switch base.now }
    {
        SwitchDraft {
            base,
            turn: base.outbox.stay(),
            known: None,
            standing: None,
            turned: false,
        }
    }

    /// The session is up.
    pub fn is_up(&self) -> bool
        ensures { result ≡ self.now.now.outbox.up }
    {
        self.turn.up
    }

    /// The present round, or the last one.
    pub fn round(&self) -> u64
        ensures { result ≡ self.now.now.outbox.round }
    {
        self.turn.round
    }

    /// Its session as the event began.
    pub fn outbox(&self) -> &Outbox
        ensures { result.now ≡ self.now.base.outbox }
    {
        &self.base.outbox
    }

    /// What is known of the switch.
    pub fn known(&self) -> &Known
        ensures { result.now ≡ self.now.now.known }
    {
        match &self.known {
            Some(known) => known,
            None => &self.base.known,
        }
    }

    /// What was known of the switch as the event began.
    pub fn known_before(&self) -> &Known
        ensures { result.now ≡ self.now.base.known }
    {
        &self.base.known
    }

    /// The entries that stand on the switch, by rising key.
    pub fn standing(&self) -> &Rows
        ensures { result.now ≡ self.now.standing }
    {
        match &self.standing {
            Some(standing) => standing,
            None => &self.base.standing,
        }
    }

    /// It is up or down as it was, and has the entries that it had.
    pub fn is_unmoved(&self) -> bool
        ensures { IsTrue result → IsUnmoved self.now }
    {
        self.turn.up == self.base.outbox.is_up() && self.standing.is_none()
    }

    /// It is up or down as it was, and its ports are as dark as they were.
    pub fn is_still(&self) -> bool
        ensures { IsTrue result → IsStill self.now }
    {
        self.turn.up == self.base.outbox.is_up() && !self.turned
    }

    /// The round ends: nothing is known of the switch any more, and nothing stands on it.
    pub fn close(&mut self, alloc: Global)
        ensures { self.new ≡ with_round ended_switch self.old }
    {
        self.turn.close();
        self.turned = true;
        self.known = Some(Known::new(alloc, 0));
        self.standing = Some(Rows::new(alloc));
    }

    /// The next round begins, in which this cookie is the first that can be written.
    pub fn open(&mut self, alloc: Global, first: u64)
        ensures { self.new ≡ with_round (begun_switch first) self.old }
    {
        self.turn.open();
        self.turned = true;
        self.known = Some(Known::new(alloc, first));
        self.standing = Some(Rows::new(alloc));
    }

    /// The switch answers a barrier. Its number in the round, if one of that xid waits.
    pub fn barrier_reply(&mut self, xid: u32) -> Result<Option<u64>, Memory>
        ensures number { IfOk result (λ number. number ≡ answered_number xid self.old.now.known) }
        ensures known { OnOk result (self.new ≡ with_known (barrier_reply_of xid self.old.now.known) self.old) }
    {
        let mut known = known_so_far(&mut self.known, &self.base.known)?;
        let number = known.barrier_reply(xid);
        self.known = Some(known);
        number
    }

    /// The switch reports the removal of a cookie.
    pub fn flow_removed(&mut self, cookie: u64) -> Result<Removal, Memory>
        ensures removal { IfOk result (λ r. r ≡ removal self.old.now.known cookie) }
        ensures known { OnOk result (self.new ≡ with_known (flow_removed_of cookie self.old.now.known) self.old) }
    {
        let mut known = known_so_far(&mut self.known, &self.base.known)?;
        let removal = known.flow_removed(cookie);
        self.known = Some(known);
        removal
    }

    /// The switch reports the state of a port.
    pub fn port_status(&mut self, reason: u8, port: &PhyPort) -> Result<(), Memory>
        ensures { OnOk result (self.new ≡ with_known (port_status_of reason port.now self.old.now.known) self.old) }
    {
        let mut known = known_so_far(&mut self.known, &self.base.known)?;
        self.turned = true;
        let noted = known.port_status(reason, port);
        self.known = Some(known);
        noted
    }

    /// The switch is written a batch, and before it the installation where its round begins. These entries stand
    /// then.
    pub fn write(
        &mut self,
        alloc: Global,
        begins: bool,
        batch: Batch,
        standing: Rows,
        messages: &mut Letters,
    ) -> Result<(), Memory>
        requires { CanSend batch }
        ensures written { OnOk result (self.new ≡ with_written
            (send_all (switch_messages begins batch) (sending_of self.old.now.known messages.old)).known
            standing self.old) }
        ensures messages { OnOk result (messages.new
            ≡ (send_all (switch_messages begins batch) (sending_of self.old.now.known messages.old)).messages) }
    {
        let mut known = known_so_far(&mut self.known, &self.base.known)?;
        let written = known.write(alloc, begins, batch, messages);
        self.known = Some(known);
        self.standing = Some(standing);
        written
    }

    /// The switch is asked for the numbers of all entries.
    pub fn poll_flows(&mut self, alloc: Global, messages: &mut Letters) -> Result<(), Memory>
        ensures known { OnOk result (self.new
            ≡ with_known (send (sending_of self.old.now.known messages.old) flow_request).known self.old) }
        ensures messages { OnOk result (messages.new
            ≡ (send (sending_of self.old.now.known messages.old) flow_request).messages) }
    {
        let mut known = known_so_far(&mut self.known, &self.base.known)?;
        let sent = known.poll_flows(alloc, messages);
        self.known = Some(known);
        sent
    }

    /// The switch is asked for the numbers of all ports.
    pub fn poll_ports(&mut self, alloc: Global, messages: &mut Letters) -> Result<(), Memory>
        ensures known { OnOk result (self.new
            ≡ with_known (send (sending_of self.old.now.known messages.old) port_request).known self.old) }
        ensures messages { OnOk result (messages.new
            ≡ (send (sending_of self.old.now.known messages.old) port_request).messages) }
    {
        let mut known = known_so_far(&mut self.known, &self.base.known)?;
        let sent = known.poll_ports(alloc, messages);
        self.known = Some(known);
        sent
    }

    /// The switch is sent a packet that is to leave by a port.
    pub fn send_packet(
        &mut self,
        alloc: Global,
        port: u16,
        bytes: Bytes,
        messages: &mut Letters,
    ) -> Result<(), Memory>
        requires { length bytes < 65512 }
        ensures known { OnOk result (self.new
            ≡ with_known (send (sending_of self.old.now.known messages.old) (packet_out port bytes)).known self.old) }
        ensures messages { OnOk result (messages.new
            ≡ (send (sending_of self.old.now.known messages.old) (packet_out port bytes)).messages) }
    {
        let mut known = known_so_far(&mut self.known, &self.base.known)?;
        let sent = known.send_packet(alloc, port, bytes, messages);
        self.known = Some(known);
        sent
    }

    /// What is moved in, with what the switch is put. There is a place for that on any machine.
    pub fn into_part(self, letters: Letters) -> Result<SwitchPart, Memory>
        ensures after { IfOk result (λ part.
            switch_moved (switch_of self.entry.base) part ≡ switch_put letters self.entry.now) }
        ensures standing { IfOk result (λ part.
            standing_moved (standing_of self.entry.base) part ≡ self.entry.standing) }
        ensures part { IfOk result (IsSwitchPart self.entry.base) }
    {
        if !self.base.outbox.has_place(&letters) {
            return Err(Memory);
        }
        Ok(SwitchPart {
            turn: self.turn,
            known: self.known,
            standing: self.standing,
            letters,
        })
    }
}
