//! What outs give: packets that leave, and tellings.
ghost use Rattle.std.specs.Prelude.{◌≡◌, ◌++◌, OnOk, filter_map};
ghost use Rattle.of10_actions.specs.Rewriting.{and_then};
ghost use Rattle.policy_meaning.specs.HopFact.{leaving as leaving_of};
ghost use Rattle.policy_meaning.specs.Walk.{port_out as port_out_of, telling as telling_of};
ghost use Rattle.packet_map.specs.Acting.{with_more};
ghost use Rattle.packet_map.specs.Sending.{emitted as emitted_of, given};

use cv_io::{List, Memory};
use of10_actions::{Dest, Out, Rewrite};
use policy_meaning::{PortOut, Told, Walked};

/// Where a packet came in: at a virtual switch, with the number of a port, and by that port if it is one.
#[derive(Clone, Copy)]
pub(crate) struct Gate {
    pub v: u32,
    pub in_port: u16,
    pub ingress: Option<u16>,
}

/// A packet that leaves at a port, with this rewrite.
fn at_port(v: u32, port: u16, rewrite: &Rewrite) -> PortOut
    ensures { result ≡ record { v = v; port = port; rewrite = rewrite.now } }
{
    PortOut {
        v,
        port,
        rewrite: *rewrite,
    }
}

/// The packet that leaves by an out, where it came in by no port.
fn leaving(rewrite: &Rewrite, dest: &Dest) -> Option<PortOut>
    ensures { result ≡ leaving_of rewrite.now dest.now }
{
    match dest {
        Dest::Port { v, port } | Dest::Flood { v, port } => Some(at_port(*v, *port, rewrite)),
        _ => None,
    }
}

/// The packet that leaves by an out, where it came in by a port: not by that port, unless to the
/// ingress.
fn port_out(v: u32, in_port: u16, rewrite: &Rewrite, dest: &Dest) -> Option<PortOut>
    ensures { result ≡ port_out_of v in_port rewrite.now dest.now }
{
    match dest {
        Dest::Port { v: at, port } | Dest::Flood { v: at, port } => {
            if *at == v && *port == in_port {
                None
            } else {
                Some(at_port(*at, *port, rewrite))
            }
        }
        Dest::Ingress => Some(at_port(v, in_port, rewrite)),
        Dest::Tell { .. } => None,
    }
}

/// The packet that leaves by an out, with this rewrite.
fn emitted(gate: &Gate, rewrite: &Rewrite, dest: &Dest) -> Option<PortOut>
    ensures { result ≡ emitted_of gate.now.v gate.now.ingress rewrite.now dest.now }
{
    match gate.ingress {
        Some(in_port) => port_out(gate.v, in_port, rewrite, dest),
        None => leaving(rewrite, dest),
    }
}

/// What a member is told by an out, with this rewrite.
fn telling(in_port: u16, rewrite: &Rewrite, dest: &Dest) -> Option<Told>
    ensures { result ≡ telling_of in_port rewrite.now dest.now }
{
    match dest {
        Dest::Tell { member, reason } => Some(Told {
            member: *member,
            in_port,
            reason: *reason,
            rewrite: *rewrite,
        }),
        _ => None,
    }
}

/// Appends the packets that leave by outs whose rewrites stand after another.
fn add_left(
    left: &mut List<PortOut>,
    gate: &Gate,
    rewrite: &Rewrite,
    outs: &List<Out>,
) -> Result<(), Memory>
    ensures { OnOk result
        (left.new ≡ left.old ++ filter_map
        (λ (o : Out). emitted_of gate.now.v gate.now.ingress (and_then rewrite.now o.rewrite) o.dest) outs.now) }
{
    for out in outs.as_slice() {
        left.push_some(emitted(gate, &rewrite.then(&out.rewrite), &out.dest))?;
    }
    Ok(())
}

/// Appends what members are told by outs whose rewrites stand after another.
fn add_told(
    told: &mut List<Told>,
    in_port: u16,
    rewrite: &Rewrite,
    outs: &List<Out>,
) -> Result<(), Memory>
    ensures { OnOk result
        (told.new ≡ told.old ++ filter_map (λ (o : Out). telling_of in_port (and_then rewrite.now o.rewrite) o.dest)
        outs.now) }
{
    for out in outs.as_slice() {
        told.push_some(telling(in_port, &rewrite.then(&out.rewrite), &out.dest))?;
    }
    Ok(())
}

/// Appends what outs give that stand after a rewrite.
pub(crate) fn add_outs(
    walked: &mut Walked,
    gate: &Gate,
    rewrite: &Rewrite,
    outs: &List<Out>,
) -> Result<(), Memory>
    ensures { OnOk result (walked.new ≡ with_more walked.old rewrite.now
        (given gate.now.v gate.now.ingress gate.now.in_port outs.now)) }
{
    add_left(&mut walked.outs, gate, rewrite, outs)?;
    add_told(&mut walked.told, gate.in_port, rewrite, outs)?;
    Ok(())
}
