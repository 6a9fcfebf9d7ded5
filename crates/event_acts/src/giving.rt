//! What the actions of a PACKET_OUT give, and where the policy takes the packet up.
ghost use Rattle.std.specs.Prelude.{◌≡◌, ◌++◌, IfOk, OnOk, Some, filter_map, map, slice_get};
ghost use Rattle.of10_actions.specs.Actions.{AreInRange};
ghost use Rattle.of10_actions.specs.Ports.{AreRising};
ghost use Rattle.of10_actions.specs.Rewriting.{and_then, no_rewrite};
ghost use Rattle.grants.specs.Rows.{is_to_table as is_to_table_of};
ghost use Rattle.policy_meaning.specs.HopFact.{leaving as leaving_of};
ghost use Rattle.policy_meaning.specs.Hops.{leads as leads_of, peer_of as peer_of_links};
ghost use Rattle.of10_actions.specs.declared.effects.Out.{Out as OutOf};
ghost use Rattle.policy_meaning.specs.Walk.{both_walked as both_walked_of, port_out as port_out_of};
ghost use Rattle.policy_meaning.specs.Walk.{telling as telling_of, walked_after, what_follows};
ghost use Rattle.policy_meaning.specs.declared.walking.PortOut.{PortOut as PortOutOf};
ghost use Rattle.policy_meaning.specs.declared.walking.Told.{Told as ToldOf};
ghost use Rattle.policy_meaning.specs.Networks.{switch_links};
ghost use Rattle.packet_map.specs.Sending.{emitted as emitted_of, given as given_of, ingress_of, table_from};
ghost use Rattle.packet_map.specs.Sending.{taken_up as taken_up_of};
ghost use Rattle.machine_meaning.specs.Packets.{sent_in as sent_in_of, walk_in as walk_in_of};

use crate::packet_parts::walk_in;
use agreement::Setting;
use cv_io::{List, Memory};
use of10_actions::meaning::effects;
use of10_actions::port::{MAX, TABLE};
use of10_actions::{Action, Dest, Out, PortView, Rewrite, Tail};
use of10_match::Header;
use of10_msgs::PacketOut;
use packet_map::arriving;
use policy_meaning::{Link, Onward, Place, PortOut, Told, Walked};
use std::alloc::Global;

/// Where a packet came in: at a virtual switch, with the number of a port, and by that port if it is one.
#[derive(Clone, Copy)]
struct Gate {
    v: u32,
    in_port: u16,
    ingress: Option<u16>,
}

/// The gate of a packet of a virtual switch.
fn gate_of(v: u32, in_port: u16) -> Gate
    ensures { result ≡ record { v = v; in_port = in_port; ingress = ingress_of in_port } }
{
    let ingress = if in_port < MAX { Some(in_port) } else { None };
    Gate {
        v,
        in_port,
        ingress,
    }
}

/// A packet that leaves at a port, with this rewrite.
fn at_port(v: u32, port: u16, rewrite: &Rewrite) -> Option<PortOut>
    ensures { result ≡ Some (record { v = v; port = port; rewrite = rewrite.now }) }
{
    Some(PortOut {
        v,
        port,
        rewrite: *rewrite,
    })
}

/// The packet that leaves by an out, where it came in by no port.
fn leaving(out: &Out) -> Option<PortOut>
    ensures { result ≡ leaving_of out.now.rewrite out.now.dest }
{
    match out.dest {
        Dest::Port { v, port } | Dest::Flood { v, port } => at_port(v, port, &out.rewrite),
        _ => None,
    }
}

/// The packet that leaves by an out, where it came in by a port: not by that port, unless to the ingress.
fn port_out(v: u32, in_port: u16, out: &Out) -> Option<PortOut>
    ensures { result ≡ port_out_of v in_port out.now.rewrite out.now.dest }
{
    match out.dest {
        Dest::Port { v: at, port } | Dest::Flood { v: at, port } => {
            if at == v && port == in_port {
                None
            } else {
                at_port(at, port, &out.rewrite)
            }
        }
        Dest::Ingress => at_port(v, in_port, &out.rewrite),
        Dest::Tell { .. } => None,
    }
}

/// The packet that leaves by an out.
fn emitted(gate: &Gate, out: &Out) -> Option<PortOut>
    ensures { result ≡ emitted_of gate.now.v gate.now.ingress out.now.rewrite out.now.dest }
{
    match gate.ingress {
        Some(in_port) => port_out(gate.v, in_port, out),
        None => leaving(out),
    }
}

/// What a member is told by an out.
fn telling(in_port: u16, out: &Out) -> Option<Told>
    ensures { result ≡ telling_of in_port out.now.rewrite out.now.dest }
{
    match out.dest {
        Dest::Tell { member, reason } => Some(Told {
            member,
            in_port,
            reason,
            rewrite: out.rewrite,
        }),
        _ => None,
    }
}

/// What leaves by outs.
fn outs_of(alloc: Global, gate: &Gate, outs: &List<Out>) -> Result<List<PortOut>, Memory>
    ensures { IfOk result (λ left. left
        ≡ filter_map (λ (o : OutOf). emitted_of gate.now.v gate.now.ingress o.rewrite o.dest) outs.now) }
{
    let mut left = List::new(alloc);
    for out in outs.as_slice() {
        left.push_some(emitted(gate, out))?;
    }
    Ok(left)
}

/// What members are told by outs.
fn told_of(alloc: Global, in_port: u16, outs: &List<Out>) -> Result<List<Told>, Memory>
    ensures { IfOk result (λ told. told
        ≡ filter_map (λ (o : OutOf). telling_of in_port o.rewrite o.dest) outs.now) }
{
    let mut told = List::new(alloc);
    for out in outs.as_slice() {
        told.push_some(telling(in_port, out))?;
    }
    Ok(told)
}

/// What outs give.
fn given(alloc: Global, gate: &Gate, outs: &List<Out>) -> Result<Walked, Memory>
    ensures { IfOk result (λ walked. walked ≡ given_of gate.now.v gate.now.ingress gate.now.in_port outs.now) }
{
    Ok(Walked {
        outs: outs_of(alloc, gate, outs)?,
        told: told_of(alloc, gate.in_port, outs)?,
    })
}

/// Where a link port leads.
fn peer_of(links: &[Link], port: u16) -> Option<Place>
    ensures { result ≡ peer_of_links links.now port }
{
    for link in links {
        if link.port == port {
            return Some(link.peer);
        }
    }
    None
}

/// Where a packet goes on whose tail is this, where it came in by a port: over a link, but not back by that port.
fn leads(tail: &Tail, links: &[Link], in_port: u16) -> Option<Onward>
    ensures { result ≡ leads_of tail.now links.now in_port }
{
    match tail {
        Tail::Link(rewrite, port) if *port != in_port => {
            let place = peer_of(links, *port)?;
            Some(Onward {
                rewrite: *rewrite,
                place,
            })
        }
        _ => None,
    }
}

/// Whether an action is an output to TABLE.
fn is_to_table(action: &Action) -> bool
    ensures { result ≡ is_to_table_of action.now }
{
    matches!(action, Action::Output { port: TABLE, .. })
}

/// The rewrite in force at an output to TABLE, if there is one.
fn table_rewrite(actions: &[Action]) -> Option<Rewrite>
    requires { AreInRange actions.now }
    ensures { result ≡ table_from no_rewrite actions.now }
{
    let mut rewrite = Rewrite::new();
    for action in actions {
        if is_to_table(action) {
            return Some(rewrite);
        }
        rewrite = rewrite.then(&action.rewrite());
    }
    None
}

/// Where the policy takes the packet up: beyond the link that the tail names, or at the in_port.
fn taken_up(links: &[Link], v: u32, tail: &Tail, m: &PacketOut) -> Option<Onward>
    requires { AreInRange m.now.actions }
    ensures { result ≡ taken_up_of links.now v tail.now m.now }
{
    if let Some(on) = leads(tail, links, m.in_port) {
        return Some(on);
    }
    let rewrite = table_rewrite(m.actions.as_slice())?;
    Some(Onward {
        rewrite,
        place: Place { v, port: m.in_port },
    })
}

/// Appends the packets that leave of a walk that stands after a rewrite.
fn append_outs(outs: &mut List<PortOut>, rewrite: &Rewrite, more: &[PortOut]) -> Result<(), Memory>
    ensures { OnOk result (outs.new
        ≡ outs.old ++ map (λ (o : PortOutOf). record o { rewrite = and_then rewrite.now o.rewrite }) more.now) }
{
    for out in more {
        outs.push(PortOut {
            v: out.v,
            port: out.port,
            rewrite: rewrite.then(&out.rewrite),
        })?;
    }
    Ok(())
}

/// Appends what members are told on a walk that stands after a rewrite.
fn append_told(told: &mut List<Told>, rewrite: &Rewrite, more: &[Told]) -> Result<(), Memory>
    ensures { OnOk result (told.new
        ≡ told.old ++ map (λ (t : ToldOf). record t { rewrite = and_then rewrite.now t.rewrite }) more.now) }
{
    for one in more {
        told.push(Told {
            member: one.member,
            in_port: one.in_port,
            reason: one.reason,
            rewrite: rewrite.then(&one.rewrite),
        })?;
    }
    Ok(())
}

/// One walk, and then another that stands after a rewrite.
fn both_walked(first: Walked, rewrite: &Rewrite, second: &Walked) -> Result<Walked, Memory>
    ensures { IfOk result (λ both. both ≡ both_walked_of first (walked_after rewrite.now second.now)) }
{
    let Walked { mut outs, mut told } = first;
    append_outs(&mut outs, rewrite, second.outs.as_slice())?;
    append_told(&mut told, rewrite, second.told.as_slice())?;
    Ok(Walked { outs, told })
}

/// What outs give, and then what the policy does with a packet of a header that goes on so, or ends.
fn given_and_then(
    alloc: Global,
    setting: &Setting,
    given: Walked,
    onward: &Option<Onward>,
    header: &Header,
) -> Result<Walked, Memory>
    ensures { IfOk result (λ walked. walked
        ≡ both_walked_of given (what_follows onward.now (walk_in_of setting.now) header.now)) }
{
    match onward {
        None => Ok(given),
        Some(on) => {
            let next = walk_in(alloc, setting, on.place.v, &arriving(on, header))?;
            both_walked(given, &on.rewrite, &next)
        }
    }
}

/// The links of a virtual switch.
fn links_at(setting: &Setting, v: u32) -> &[Link]
    ensures { result.now ≡ switch_links (slice_get setting.now.network.switches v) }
{
    match setting.network.switches.get(v as usize) {
        Some(switch) => switch.links.as_slice(),
        None => &[],
    }
}

/// What a PACKET_OUT of the member of a number, which sees these ports, gives for data of a header.
pub fn sent_in(
    alloc: Global,
    setting: &Setting,
    n: u32,
    view: &PortView,
    m: &PacketOut,
    header: &Header,
) -> Result<Walked, Memory>
    requires rising { AreRising view.now }
    requires in_range { AreInRange m.now.actions }
    ensures { IfOk result (λ walked. walked ≡ sent_in_of setting.now n view.now m.now header.now) }
{
    let effects = effects(alloc, &m.actions, view, n)?;
    let given = given(alloc, &gate_of(view.v, m.in_port), &effects.outs)?;
    let onward = taken_up(links_at(setting, view.v), view.v, &effects.tail, m);
    given_and_then(alloc, setting, given, &onward, header)
}
