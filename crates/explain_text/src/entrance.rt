//! Where a packet comes in.
ghost use Rattle.std.specs.Prelude.{◌≡◌, ◌<◌, IfSome, length, position};
ghost use Rattle.explain_text.specs.Entering.{entrance_of, is_named, switch_at as switch_at_of};

use cv_io::Text;
use virtual_topology::{SwitchItem, Topology};

/// A port of a physical switch, and the outside port of a virtual switch that it is. Switches are known by
/// their numbers in the policy.
#[derive(Clone, Copy, PartialEq, Eq, Debug)]
pub struct Entrance {
    pub switch: u32,
    pub port: u16,
    pub v: u32,
    /// The port of the virtual switch.
    pub by: u16,
}

fn has_name(switch: &SwitchItem, name: &Text) -> bool
    ensures { result ≡ is_named name.now switch.now }
{
    switch.name == *name
}

/// The place of the switch of a name.
fn place_of(switches: &[SwitchItem], name: &Text) -> Option<usize>
    ensures place { result ≡ position (is_named name.now) switches.now }
    ensures within { IfSome result (λ place. place < length switches.now) }
{
    switches.iter().position(|switch| has_name(switch, name))
}

/// The number of the switch of a name.
fn switch_at(topology: &Topology, name: &Text) -> Option<u32>
    ensures { result ≡ switch_at_of topology.now name.now }
{
    match place_of(topology.plan().switches.as_slice(), name) {
        Some(place) => Some(place as u32),
        None => None,
    }
}

/// Where a packet comes in by a port of the switch of a name. There is none where no switch has the name,
/// or its port is no outside port of a virtual switch.
pub fn find_entrance(topology: &Topology, name: &Text, port: u16) -> Option<Entrance>
    ensures { result ≡ entrance_of topology.now name.now port }
{
    let switch = switch_at(topology, name)?;
    let (v, by) = topology.entering(switch, port)?;
    Some(Entrance {
        switch,
        port,
        v,
        by,
    })
}
