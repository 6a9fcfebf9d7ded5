//! Packets on their way.
ghost use Rattle.std.specs.Prelude.{◌≡◌};
ghost use Rattle.of10_actions.specs.Rewriting.{and_then, apply};
ghost use Rattle.policy_meaning.specs.Walk.{arriving as arriving_of};

use of10_actions::Rewrite;
use of10_match::Header;
use policy_meaning::Onward;

/// A packet at a virtual switch: its header there, and the rewrite that made it of the header with which
/// it came to the network.
#[derive(Clone, Copy)]
pub(crate) struct Hop {
    pub v: u32,
    pub header: Header,
    pub rewrite: Rewrite,
}

/// The header of a packet that comes by a port.
pub fn coming_by(port: u16, header: &Header) -> Header
    ensures { result ≡ record header.now { in_port = port } }
{
    Header {
        in_port: port,
        ..*header
    }
}

/// The header that comes to a place after a rewrite.
pub fn arriving(on: &Onward, header: &Header) -> Header
    ensures { result ≡ arriving_of on.now.rewrite on.now.place.port header.now }
{
    coming_by(on.place.port, &on.rewrite.apply(header))
}

impl Hop {
    /// The packet after one more rewrite, at the same virtual switch.
    pub(crate) fn rewritten(&self, rewrite: &Rewrite) -> Hop
        ensures v { result.v ≡ self.now.v }
        ensures header { result.header ≡ apply rewrite.now self.now.header }
        ensures rewrite { result.rewrite ≡ and_then self.now.rewrite rewrite.now }
    {
        Hop {
            v: self.v,
            header: rewrite.apply(&self.header),
            rewrite: self.rewrite.then(rewrite),
        }
    }

    /// The packet where it goes on to.
    pub(crate) fn onward(&self, on: &Onward) -> Hop
        ensures v { result.v ≡ on.now.place.v }
        ensures header { result.header ≡ arriving_of on.now.rewrite on.now.place.port self.now.header }
        ensures rewrite { result.rewrite ≡ and_then self.now.rewrite on.now.rewrite }
    {
        Hop {
            v: on.place.v,
            header: arriving(on, &self.header),
            rewrite: self.rewrite.then(&on.rewrite),
        }
    }
}
