//! What a policy file says of the network.
ghost use Rattle.std.specs.Prelude.{◌≡◌};

use cv_io::{Duplicate, List, Memory, Text};

/// A port of a switch, physical or virtual, by the switch's name.
#[derive(PartialEq, Eq, Debug, Drop)]
pub struct PortPlace {
    pub name: Text,
    pub port: u16,
}

/// A physical switch.
#[derive(PartialEq, Eq, Debug, Drop)]
pub struct SwitchItem {
    pub name: Text,
    /// The datapath id that it tells in its FEATURES_REPLY (OpenFlow 1.0, section 5.3.1).
    pub dpid: u64,
    pub ports: List<u16>,
}

/// A cable between two physical ports, or a link between two virtual ones.
#[derive(PartialEq, Eq, Debug, Drop)]
pub struct PairItem {
    pub a: PortPlace,
    pub b: PortPlace,
}

/// A port of a virtual switch.
#[derive(PartialEq, Eq, Debug, Drop)]
pub struct VirtualPort {
    pub port: u16,
    /// The physical port that an outside port is; a link port has none.
    pub at: Option<PortPlace>,
}

/// A virtual switch.
#[derive(PartialEq, Eq, Debug, Drop)]
pub struct VirtualItem {
    pub name: Text,
    /// The datapath id that its controllers are told (OpenFlow 1.0, section 5.3.1).
    pub dpid: u64,
    pub ports: List<VirtualPort>,
    /// How its members are composed.
    pub expr: Text,
}

/// The switches, in the order of the file, the cables between physical ones and the links between
/// virtual ones.
#[derive(PartialEq, Eq, Debug, Drop)]
pub struct TopologyPlan {
    pub switches: List<SwitchItem>,
    pub cables: List<PairItem>,
    pub virtuals: List<VirtualItem>,
    pub links: List<PairItem>,
}

impl Duplicate for PortPlace {
    fn copy(&self) -> Result<PortPlace, Memory> {
        Ok(PortPlace {
            name: self.name.copy()?,
            port: self.port,
        })
    }
}

impl Duplicate for SwitchItem {
    fn copy(&self) -> Result<SwitchItem, Memory> {
        Ok(SwitchItem {
            name: self.name.copy()?,
            dpid: self.dpid,
            ports: self.ports.copy()?,
        })
    }
}

impl Duplicate for PairItem {
    fn copy(&self) -> Result<PairItem, Memory> {
        Ok(PairItem {
            a: self.a.copy()?,
            b: self.b.copy()?,
        })
    }
}

impl Duplicate for VirtualPort {
    fn copy(&self) -> Result<VirtualPort, Memory> {
        let at = match &self.at {
            None => None,
            Some(place) => Some(place.copy()?),
        };
        Ok(VirtualPort {
            port: self.port,
            at,
        })
    }
}

impl Duplicate for VirtualItem {
    fn copy(&self) -> Result<VirtualItem, Memory> {
        Ok(VirtualItem {
            name: self.name.copy()?,
            dpid: self.dpid,
            ports: self.ports.copy()?,
            expr: self.expr.copy()?,
        })
    }
}

impl Duplicate for TopologyPlan {
    fn copy(&self) -> Result<TopologyPlan, Memory> {
        Ok(TopologyPlan {
            switches: self.switches.copy()?,
            cables: self.cables.copy()?,
            virtuals: self.virtuals.copy()?,
            links: self.links.copy()?,
        })
    }
}
