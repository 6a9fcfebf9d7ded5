//! What lies where, by the maps of a topology and its paths.
ghost use Rattle.std.specs.Prelude.{◌≡◌};
ghost use Rattle.place_rules.specs.Joined.{wiring_of};
ghost use Rattle.switch_meaning.specs.Placing.{way_across as way_across_of, way_of as way_of_of, way_to as way_to_of};
ghost use Rattle.switch_meaning.specs.Placing.{written_port as written_port_of};
ghost use Rattle.switch_meaning.specs.Wirings.{far_end as far_end_of, next_hop as next_hop_of};
ghost use Rattle.switch_meaning.specs.Wirings.{outside_at as outside_at_of};

use inner_paths::Paths;
use of10_actions::Dest;
use of10_actions::port::IN_PORT;
use switch_meaning::{Outside, SwitchPort, Way};
use virtual_topology::Topology;

/// The outside port of that number of a virtual switch.
pub fn outside_at(topology: &Topology, paths: &Paths, v: u32, port: u16) -> Option<Outside>
    requires { paths.now ≡ topology.now }
    ensures { result ≡ outside_at_of (wiring_of topology.now) v port }
{
    match topology.outside(v, port) {
        Some(at) => Some(Outside {
            v,
            port,
            at: SwitchPort {
                switch: at.0,
                port: at.1,
            },
            tag: paths.tag(v, port),
        }),
        None => None,
    }
}

/// The port by which packets from one switch to another leave the first.
pub fn next_hop(paths: &Paths, from: u32, to: u32) -> Option<u16>
    ensures { result ≡ next_hop_of (wiring_of paths.now) from to }
{
    paths.next_hop(from, to)
}

/// Where a packet gets to that leaves by a port with a cable.
pub fn far_end(topology: &Topology, at: SwitchPort) -> Option<SwitchPort>
    ensures { result ≡ far_end_of (wiring_of topology.now) at }
{
    match topology.far_end(at.switch, at.port) {
        Some(end) => Some(SwitchPort {
            switch: end.0,
            port: end.1,
        }),
        None => None,
    }
}

/// The port as it is written: IN_PORT where the packet came by it.
fn written_port(ingress: Option<u16>, port: u16) -> u16
    ensures { result ≡ written_port_of ingress port }
{
    if ingress == Some(port) { IN_PORT } else { port }
}

/// The way to an outside port of another switch: with its tag, by the port of the next hop.
fn way_across(tag: Option<u16>, port: Option<u16>) -> Option<Way>
    ensures { result ≡ way_across_of tag port }
{
    match tag {
        Some(_) => match port {
            Some(port) => Some(Way { tag, port }),
            None => None,
        },
        None => None,
    }
}

/// The way from a switch to an outside port.
fn way_to(paths: &Paths, switch: u32, ingress: Option<u16>, o: Outside) -> Option<Way>
    ensures { result ≡ way_to_of (wiring_of paths.now) switch ingress o }
{
    if o.at.switch == switch {
        Some(Way {
            tag: None,
            port: written_port(ingress, o.at.port),
        })
    } else {
        way_across(o.tag, next_hop(paths, switch, o.at.switch))
    }
}

/// The way from a switch to where an out goes. A telling has none.
pub fn way_of(
    topology: &Topology,
    paths: &Paths,
    switch: u32,
    ingress: Option<u16>,
    dest: Dest,
) -> Option<Way>
    requires { paths.now ≡ topology.now }
    ensures { result ≡ way_of_of (wiring_of topology.now) switch ingress dest }
{
    match dest {
        Dest::Port { v, port } | Dest::Flood { v, port } => {
            match outside_at(topology, paths, v, port) {
                Some(o) => way_to(paths, switch, ingress, o),
                None => None,
            }
        }
        Dest::Ingress => Some(Way {
            tag: None,
            port: IN_PORT,
        }),
        Dest::Tell { .. } => None,
    }
}
