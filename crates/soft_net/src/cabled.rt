//! What a net of switches makes of packets.
ghost use Rattle.std.specs.Prelude.{◌≡◌, ◌++◌, OnOk, map};
ghost use Rattle.soft_net.specs.Nets.{answer_at, at_switch, both, hit_at, nothing};

use crate::passed::{Hit, Packet};
use cv_io::{List, Memory};
use of10_msgs::Message;
use std::alloc::Global;

/// A packet that leaves a net at a port of a switch that has no cable.
#[derive(PartialEq, Eq, Debug, Drop)]
pub struct NetPacket {
    pub switch: u32,
    pub packet: Packet,
}

/// A PACKET_IN that a switch sends to the controller.
#[derive(PartialEq, Eq, Debug, Drop)]
pub struct NetAnswer {
    pub switch: u32,
    pub message: Message,
}

/// What a switch is to count.
#[derive(Clone, Copy, PartialEq, Eq, Debug)]
pub struct NetHit {
    pub switch: u32,
    pub hit: Hit,
}

/// What a net makes of packets.
#[derive(PartialEq, Eq, Debug, Drop)]
pub struct NetPassed {
    pub outs: List<NetPacket>,
    pub copies: List<NetAnswer>,
    pub hits: List<NetHit>,
}

impl NetPassed {
    /// Nothing leaves, is told or is counted.
    pub(crate) fn new(alloc: Global) -> NetPassed
        ensures { result ≡ nothing }
    {
        NetPassed {
            outs: List::new(alloc),
            copies: List::new(alloc),
            hits: List::new(alloc),
        }
    }

    /// Appends what a switch tells the controller and is to count.
    pub(crate) fn note(
        &mut self,
        switch: u32,
        copies: List<Message>,
        hits: &List<Hit>,
    ) -> Result<(), Memory>
        ensures { OnOk result (self.new ≡ both self.old (at_switch switch copies hits.now)) }
    {
        tell(&mut self.copies, switch, copies)?;
        hit_all(&mut self.hits, switch, hits)
    }
}

/// Appends what a switch tells the controller.
fn tell(told: &mut List<NetAnswer>, switch: u32, copies: List<Message>) -> Result<(), Memory>
    ensures { OnOk result (told.new ≡ told.old ++ map (answer_at switch) copies) }
{
    for message in copies.into_vec() {
        told.push(NetAnswer { switch, message })?;
    }
    Ok(())
}

/// Appends what a switch is to count.
fn hit_all(noted: &mut List<NetHit>, switch: u32, hits: &List<Hit>) -> Result<(), Memory>
    ensures { OnOk result (noted.new ≡ noted.old ++ map (hit_at switch) hits.now) }
{
    for hit in hits.as_slice() {
        noted.push(NetHit { switch, hit: *hit })?;
    }
    Ok(())
}
