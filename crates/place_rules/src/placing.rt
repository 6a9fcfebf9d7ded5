//! The entry that is put on a switch for a rule.
ghost use Rattle.std.specs.Prelude.{◌≡◌, ◌<◌, Some, if◌then◌else◌, option_map, IfOk};
ghost use Rattle.std.specs.Option.{option_and_then};
ghost use Rattle.agreement.specs.Entries.{flat};
ghost use Rattle.of10_match.specs.Fields.{MatchOf};
ghost use Rattle.of10_match.specs.Matching.{meet};
ghost use Rattle.place_rules.specs.InsideActions.{entry_by};
ghost use Rattle.place_rules.specs.Joined.{wiring_of};
ghost use Rattle.place_rules.specs.Placed.{first_port as first_port_of, home_of, placed_of};
ghost use Rattle.place_rules.specs.Placed.{port_meant as port_meant_of};
ghost use Rattle.switch_meaning.specs.Placing.{entry_of, untagged as untagged_of};
ghost use Rattle.switch_meaning.specs.Wirings.{outside_at};
ghost use Rattle.switch_meaning.specs.declared.wiring.Outside.{Outside};

use crate::actions::actions_of;
use cv_io::{Duplicate, Memory};
use inner_paths::Paths;
use of10_match::{Match, UNTAGGED};
use policy_meaning::Rule;
use std::alloc::Global;
use switch_meaning::{PhysEntry, Site};
use virtual_topology::Topology;

/// The entry of a rule, on the physical switch of an outside port of a virtual switch. The rule's match
/// names that port; it becomes the physical one. Port 0 stands for all ports, where they all lie on one
/// switch: the match may then name a port or none. None where no header is left, since a spread
/// virtual switch takes no packets with a tag, and where there is no such port.
pub fn place(
    alloc: Global,
    topology: &Topology,
    paths: &Paths,
    v: u32,
    port: u16,
    rule: &Rule,
) -> Result<Option<PhysEntry>, Memory>
    requires paths { paths.now ≡ topology.now }
    requires level { rule.now.level < 65535 }
    ensures { IfOk result (λ entry. entry ≡ placed_of topology.now v port rule.now) }
{
    match home(topology, v, port) {
        Some(switch) => {
            let site = Site {
                v,
                switch,
                spread: topology.is_spread(v),
                whole: port == 0,
            };
            place_at(alloc, topology, paths, site, rule)
        }
        None => Ok(None),
    }
}

/// The entry of a rule at a site.
fn place_at(
    alloc: Global,
    topology: &Topology,
    paths: &Paths,
    site: Site,
    rule: &Rule,
) -> Result<Option<PhysEntry>, Memory>
    requires paths { paths.now ≡ topology.now }
    requires level { rule.now.level < 65535 }
    ensures { IfOk result (λ entry. entry ≡ entry_of (wiring_of topology.now) site (flat rule.now)) }
{
    let ingress = ingress_of(topology, site.v, rule);
    let m = match match_written(site.spread, ingress, &rule.m) {
        Some(m) => m,
        None => return Ok(None),
    };
    Ok(Some(entry_with(alloc, topology, paths, site, ingress, m, rule)?))
}

/// The entry of a rule at a site, with this match.
fn entry_with(
    alloc: Global,
    topology: &Topology,
    paths: &Paths,
    site: Site,
    ingress: Option<u16>,
    m: Match,
    rule: &Rule,
) -> Result<PhysEntry, Memory>
    requires paths { paths.now ≡ topology.now }
    requires level { rule.now.level < 65535 }
    ensures { IfOk result (λ entry. entry ≡ entry_by (wiring_of topology.now) site ingress m rule.now) }
{
    let outs = rule.outs.as_slice();
    Ok(PhysEntry {
        m,
        priority: (rule.level + 1) as u16,
        actions: actions_of(alloc, topology, paths, site, rule.m.in_port, ingress, outs)?,
        ancestry: rule.ancestry.copy()?,
    })
}

/// The port itself; 0 stands for all, and so for the first.
fn port_meant(topology: &Topology, v: u32, port: u16) -> Option<u16>
    ensures { result ≡ port_meant_of topology.now v port }
{
    if port == 0 {
        first_port(topology, v)
    } else {
        Some(port)
    }
}

/// The first port of a virtual switch.
fn first_port(topology: &Topology, v: u32) -> Option<u16>
    ensures { result ≡ first_port_of topology.now v }
{
    let item = topology.plan().virtuals.get(v as usize)?;
    let port = item.ports.get(0)?;
    Some(port.port)
}

/// The physical switch on which the rules of a port are put.
fn home(topology: &Topology, v: u32, port: u16) -> Option<u32>
    ensures { result ≡ home_of topology.now v port }
{
    let port = port_meant(topology, v, port)?;
    let (switch, _) = topology.outside(v, port)?;
    Some(switch)
}

/// The physical port that an outside port is.
fn physical(topology: &Topology, v: u32, port: u16) -> Option<u16>
    ensures { result ≡ option_map (λ (o : Outside). o.at.port) (outside_at (wiring_of topology.now) v port) }
{
    match topology.outside(v, port) {
        Some(at) => Some(at.1),
        None => None,
    }
}

/// The physical port that a rule names, if it names one.
fn ingress_of(topology: &Topology, v: u32, rule: &Rule) -> Option<u16>
    ensures { result
        ≡ option_and_then (λ p. option_map (λ (o : Outside). o.at.port) (outside_at (wiring_of topology.now) v p))
        rule.now.m.in_port }
{
    match rule.m.in_port {
        Some(port) => physical(topology, v, port),
        None => None,
    }
}

/// The match of packets without a tag.
fn untagged() -> Match
    ensures { result ≡ untagged_of }
{
    Match {
        dl_vlan: Some(UNTAGGED),
        ..Match::everything()
    }
}

/// The match as it is written, or none where no header is left.
fn match_written(spread: bool, ingress: Option<u16>, m: &Match) -> Option<Match>
    ensures { result ≡ option_map (λ (n : MatchOf). record n { in_port = ingress })
        (if spread then meet m.now untagged_of else Some m.now) }
{
    let met = if spread {
        m.meet(&untagged())
    } else {
        Some(*m)
    };
    match met {
        Some(met) => Some(Match {
            in_port: ingress,
            ..met
        }),
        None => None,
    }
}
