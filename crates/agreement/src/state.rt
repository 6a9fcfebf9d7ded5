//! What the machine reads of a policy and of its state.
ghost use Rattle.std.specs.Prelude.{◌<◌, ◌^◌, ◌↔◌, All, IsTrue, length};
ghost use Rattle.agreement.specs.Fitting.{IsFittingSetting, SizesFit};
ghost use Rattle.policy_meaning.specs.Fitting.{IsFittingTable};

use alg_priority::WIDEST;
use cv_io::{Duplicate, List, Memory};
use policy_meaning::{Network, hop_size, tables_fit};
use switch_meaning::{Wiring, are_tags_in_range};

/// A physical switch.
#[derive(Debug, Drop)]
pub struct PhysicalSwitch {
    /// The ports that the policy lists.
    pub ports: List<u16>,
    pub up: bool,
}

/// What the machine reads of a policy and of its state.
#[derive(Debug, Drop)]
pub struct Setting {
    /// The members' tables, and the virtual switches with their expressions and links.
    pub network: Network,
    /// So many evaluations are made of a packet at most.
    pub hops: u32,
    /// Where outside ports lie, the cables, and the ways between switches.
    pub wiring: Wiring,
    /// The physical switches, by number.
    pub switches: List<PhysicalSwitch>,
}

impl Duplicate for PhysicalSwitch {
    fn copy(&self) -> Result<PhysicalSwitch, Memory> {
        Ok(PhysicalSwitch {
            ports: self.ports.copy()?,
            up: self.up,
        })
    }
}

impl Duplicate for Setting {
    fn copy(&self) -> Result<Setting, Memory> {
        Ok(Setting {
            network: self.network.copy()?,
            hops: self.hops,
            wiring: self.wiring.copy()?,
            switches: self.switches.copy()?,
        })
    }
}

impl Setting {
    /// Whether the entries of its switches can be made: levels, kinds of leaves, numbers of virtual
    /// switches and tags fit their types, and packets have a hop.
    pub fn fits(&self) -> bool
        ensures { IsTrue result ↔ IsFittingSetting self.now }
    {
        tables_fit(&self.network.tables)
            && self.hops > 0
            && self.network.switches.len() < 1 << 32
            && self.sizes_fit()
            && are_tags_in_range(&self.wiring)
    }

    /// Whether the sizes over hops leave room for priorities, which are one above levels: 65,535 is for
    /// fixed entries.
    fn sizes_fit(&self) -> bool
        requires tables { All IsFittingTable self.now.network.tables }
        requires switches { length self.now.network.switches < 2 ^ 32 }
        ensures { IsTrue result ↔ SizesFit self.now }
    {
        for v in 0..self.network.switches.len() {
            if hop_size(&self.network, self.hops, v as u32) > WIDEST {
                return false;
            }
        }
        true
    }
}
