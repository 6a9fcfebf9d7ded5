//! The places of a policy.
ghost use Rattle.std.specs.Prelude.{◌≡◌, ◌<◌, ◌^◌, ◌++◌, IfOk, OnOk, length, map};
ghost use Rattle.std.specs.List.{enumerate_from};
ghost use Rattle.policy_serving.specs.Places.{dpid_of, member_place, places_of, switch_place};

use cv_io::{Duplicate, List, Memory, Text};
use endpoint_works::Side;
use outside::Endpoint;
use policies::{MemberItem, Policy};
use serving::Place;
use std::alloc::Global;
use virtual_topology::SwitchItem;

/// The places of a policy: that of each member, and then one for each switch, in the order of the file. Whichever
/// switch of the policy connects at the place of a switch is served there.
#[tactic(auto, unfolding(crate::specs::Places::places_of))]
pub fn places(alloc: Global, policy: &Policy) -> Result<List<Place>, Memory>
    ensures { IfOk result (λ places. places ≡ places_of policy.now) }
{
    policy.is_sound();
    let mut places = List::new(alloc);
    add_members(&mut places, policy.members.as_slice(), policy.rounds)?;
    add_switches(
        alloc,
        &mut places,
        policy.switches.as_slice(),
        &policy.listen,
        policy.rounds,
    )?;
    Ok(places)
}

/// Appends the places of members, with so many connections each.
fn add_members(places: &mut List<Place>, members: &[MemberItem], rounds: u32) -> Result<(), Memory>
    requires { length members.now < 2 ^ 32 }
    ensures { OnOk result (places.new ≡ places.old ++ map (member_place rounds) (enumerate_from 0 members.now)) }
{
    for (n, member) in members.iter().enumerate() {
        places.push(Place {
            end: Endpoint::Member {
                index: n as u32,
                address: member.address.copy()?,
                rounds,
            },
            side: Side::Member { index: n as u32 },
        })?;
    }
    Ok(())
}

/// Appends the places of switches, with so many connections each.
fn add_switches(
    alloc: Global,
    places: &mut List<Place>,
    switches: &[SwitchItem],
    listen: &Text,
    rounds: u32,
) -> Result<(), Memory>
    requires { length switches.now < 2 ^ 32 }
    ensures { OnOk result (places.new ≡ places.old
        ++ map (switch_place listen.now rounds (map dpid_of switches.now)) (enumerate_from 0 switches.now)) }
{
    for (n, switch) in switches.iter().enumerate() {
        places.push(Place {
            end: Endpoint::Switch {
                index: n as u32,
                listen: listen.copy()?,
                rounds,
                dpid: switch.dpid,
            },
            side: Side::Switch {
                dpids: dpids(alloc, switches)?,
            },
        })?;
    }
    Ok(())
}

/// The datapath ids of switches, in their order.
fn dpids(alloc: Global, switches: &[SwitchItem]) -> Result<List<u64>, Memory>
    ensures { IfOk result (λ dpids. dpids ≡ map dpid_of switches.now) }
{
    let mut dpids = List::new(alloc);
    for switch in switches {
        dpids.push(switch.dpid)?;
    }
    Ok(dpids)
}
