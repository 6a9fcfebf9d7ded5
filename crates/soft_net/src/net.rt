//! A net: switches in memory, with the cables of a plan between them.
ghost use Rattle.std.specs.Prelude.{◌≡◌, ◌≤◌, [], IfOk, OnOk, OnErr, length, option_map, slice_get};
ghost use Rattle.of10_msgs.specs.Ranges.{IsInRange, IsMessage};
ghost use Rattle.soft_net.specs.Nets.{changed_switch, counted, fresh as fresh_of, heard, net_after, net_answers};
ghost use Rattle.soft_net.specs.Nets.{net_counted, net_passes, net_sends, switch_of, with_down, with_up};

use crate::answer::Answer;
use crate::cabled::{NetHit, NetPassed};
use crate::stations::{count_in, hear_in};
use crate::switch::SoftSwitch;
use cv_io::{Duplicate, List, Memory};
use of10_msgs::{Body, Message};
use std::alloc::Global;
use std::collections::BTreeMap;
use std::marker::Model;
use virtual_topology::Topology;

/// The switches of a plan that are up, and the cables of the plan between them.
#[derive(Drop)]
pub struct Net {
    pub(crate) alloc: Global,
    pub(crate) topology: Topology,
    pub(crate) switches: BTreeMap<u32, SoftSwitch>,
}

impl Model for Net {
    ghost use Rattle.soft_net.specs.Nets.{NetOf, numbered};

    ghost Value = { NetOf };

    ghost view = { λ a. record { plan = a.topology; switches = numbered a.switches.entries } };
}

/// What a message to a switch comes to.
#[derive(PartialEq, Eq, Debug, Drop)]
pub struct Heard {
    /// What the switch answers.
    pub answers: List<Answer>,
    /// What the net makes of the packet of a PACKET_OUT.
    pub passed: NetPassed,
}

impl Net {
    /// The net of a plan, whose switches are all down.
    pub fn new(alloc: Global, topology: &Topology) -> Result<Net, Memory>
        ensures { IfOk result (λ net. net ≡ record { plan = topology.now; switches = [] }) }
    {
        Ok(Net {
            alloc,
            switches: BTreeMap::new(alloc),
            topology: topology.copy()?,
        })
    }

    /// How many switches a packet gets to over cables: as many as the plan has.
    pub(crate) fn turns(&self) -> usize
        ensures turns { result ≡ length self.now.plan.switches }
        ensures few { result ≤ 16 }
    {
        self.topology.plan().switches.len()
    }

    /// A switch of the plan comes up: its table is empty, and its counts are zero. The net stays as it was where
    /// memory is wanted.
    pub fn up(&mut self, switch: u32) -> Result<(), Memory>
        ensures up { OnOk result (self.new ≡ with_up switch self.old) }
        ensures memory { OnErr result (self.new ≡ self.old) }
    {
        match self.fresh(switch)? {
            Some(fresh) => {
                self.switches.insert(switch, fresh)?;
                Ok(())
            }
            None => Ok(()),
        }
    }

    /// A switch of the plan as it comes up.
    fn fresh(&self, switch: u32) -> Result<Option<SoftSwitch>, Memory>
        ensures { IfOk result (λ made. option_map switch_of made
            ≡ option_map fresh_of (slice_get self.now.plan.switches switch)) }
    {
        match self.topology.plan().switches.get(switch as usize) {
            Some(item) => Ok(Some(SoftSwitch::new(self.alloc, item.ports.as_slice())?)),
            None => Ok(None),
        }
    }

    /// A switch goes down. It takes no memory.
    pub fn down(&mut self, switch: u32)
        ensures { self.new ≡ with_down switch self.old }
    {
        self.switches.remove(&switch);
    }

    /// A packet comes in at a port of a switch: it passes, and is counted. The net stays as it was where memory
    /// is wanted.
    pub fn enter(&mut self, switch: u32, port: u16, frame: &[u8]) -> Result<NetPassed, Memory>
        ensures passed { IfOk result (λ passed. passed ≡ net_passes self.old switch port frame.now) }
        ensures counted { OnOk result (self.new
            ≡ net_counted (net_passes self.old switch port frame.now).hits self.old) }
        ensures memory { OnErr result (self.new ≡ self.old) }
    {
        let passed = self.pass(switch, port, frame)?;
        self.count(passed.hits.as_slice());
        Ok(passed)
    }

    /// A switch does what a message asks for; one that is down does nothing. The packet of a PACKET_OUT passes,
    /// and is counted. The net stays as it was where memory is wanted.
    pub fn hear(&mut self, switch: u32, message: &Message) -> Result<Heard, Memory>
        requires { IsMessage message.now }
        ensures answers { IfOk result (λ heard. heard.answers ≡ net_answers self.old switch message.now) }
        ensures passed { IfOk result (λ heard. heard.passed ≡ net_sends self.old switch message.now.body) }
        ensures net { OnOk result (self.new ≡ net_after self.old switch message.now) }
        ensures memory { OnErr result (self.new ≡ self.old) }
    {
        let passed = self.send(switch, &message.body)?;
        let answers = self.apply(switch, message)?;
        self.count(passed.hits.as_slice());
        Ok(Heard { answers, passed })
    }

    /// What the net makes of the packet of a PACKET_OUT to a switch. Nothing is changed.
    fn send(&self, switch: u32, body: &Body) -> Result<NetPassed, Memory>
        requires { IsInRange body.now }
        ensures { IfOk result (λ passed. passed ≡ net_sends self.now switch body.now) }
    {
        let mut passed = NetPassed::new(self.alloc);
        match self.switches.get(&switch) {
            Some(at) => {
                let sent = at.sent(body)?;
                self.spread(&mut passed, self.turns(), switch, sent)?;
                Ok(passed)
            }
            None => Ok(passed),
        }
    }

    /// A switch changes its table by a message, and answers.
    fn apply(&mut self, switch: u32, message: &Message) -> Result<List<Answer>, Memory>
        requires { IsMessage message.now }
        ensures answers { IfOk result (λ answers. answers ≡ net_answers self.old switch message.now) }
        ensures net { OnOk result (self.new ≡ changed_switch switch (heard message.now.body) self.old) }
        ensures memory { OnErr result (self.new ≡ self.old) }
    {
        hear_in(self.alloc, &mut self.switches, switch, message)
    }

    /// Counts what is to be counted. It takes no memory.
    pub fn count(&mut self, hits: &[NetHit])
        ensures { self.new ≡ net_counted hits.now self.old }
    {
        for hit in hits {
            self.count_one(*hit);
        }
    }

    fn count_one(&mut self, hit: NetHit)
        ensures { self.new ≡ changed_switch hit.switch (counted hit.hit) self.old }
    {
        count_in(&mut self.switches, hit);
    }
}
