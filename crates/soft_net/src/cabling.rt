//! Where packets go over the cables of a net.
ghost use Rattle.std.specs.Prelude.{◌≡◌, IfOk, OnOk};
ghost use Rattle.virtual_topology.specs.Wires.{far_end_of};
ghost use Rattle.soft_net.specs.Nets.{both, goes_out, net_passes, passed_on, taken_up};

use crate::cabled::{NetPacket, NetPassed};
use crate::net::Net;
use crate::passed::{Packet, Passed};
use cv_io::Memory;

impl Net {
    /// What the net makes of a packet that comes in at a port of a switch, and what is to be counted for it.
    /// Over cables it gets to switches that are up, one after the other, as many times as there are switches.
    /// Nothing is changed.
    pub fn pass(&self, switch: u32, port: u16, frame: &[u8]) -> Result<NetPassed, Memory>
        ensures { IfOk result (λ passed. passed ≡ net_passes self.now switch port frame.now) }
    {
        let mut passed = NetPassed::new(self.alloc);
        self.take_up(&mut passed, self.turns() + 1, switch, port, frame)?;
        Ok(passed)
    }

    /// Appends what the net makes of a packet that comes in at a port of a switch, and that so many switches
    /// take up in turn.
    #[cycle(passing)]
    fn take_up(
        &self,
        all: &mut NetPassed,
        turns: usize,
        switch: u32,
        port: u16,
        frame: &[u8],
    ) -> Result<(), Memory>
        ensures { OnOk result (all.new ≡ both all.old (taken_up self.now turns switch port frame.now)) }
    {
        if turns == 0 {
            return Ok(());
        }
        match self.switches.get(&switch) {
            Some(at) => {
                let passed = at.pass(port, frame)?;
                self.spread(all, turns - 1, switch, passed)
            }
            None => Ok(()),
        }
    }

    /// Appends what comes of what a switch made of a packet.
    #[cycle(passing)]
    pub(crate) fn spread(
        &self,
        all: &mut NetPassed,
        turns: usize,
        switch: u32,
        passed: Passed,
    ) -> Result<(), Memory>
        ensures { OnOk result (all.new
            ≡ both all.old (passed_on self.now.plan (taken_up self.now turns) switch passed)) }
    {
        let Passed { outs, copies, hits } = passed;
        all.note(switch, copies, &hits)?;
        for packet in outs.into_vec() {
            self.go(all, turns, switch, packet)?;
        }
        Ok(())
    }

    /// Appends what comes of a packet that a switch sends out.
    #[cycle(passing)]
    fn go(
        &self,
        all: &mut NetPassed,
        turns: usize,
        switch: u32,
        packet: Packet,
    ) -> Result<(), Memory>
        ensures { OnOk result (all.new
            ≡ both all.old (goes_out (far_end_of self.now.plan switch packet.port) switch packet
            (taken_up self.now turns))) }
    {
        match self.topology.far_end(switch, packet.port) {
            Some((far, port)) => self.take_up(all, turns, far, port, packet.bytes.as_slice()),
            None => all.outs.push(NetPacket { switch, packet }),
        }
    }
}
