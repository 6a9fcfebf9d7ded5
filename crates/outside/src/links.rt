//! Connections: endpoints, what dials them, and the forms in memory.
ghost use Rattle.std.specs.Prelude.{◌≡◌, ◌≤◌, ◌↔◌, ℕ, Bool, true, List, [], Option, Some, None, IfOk, IsOk, OnOk};
ghost use Rattle.std.specs.Prelude.{OnErr, IfSome, IsNone};
ghost use Rattle.outside.specs.Outside.{Rose};
ghost use Rattle.outside.specs.Connections.{Connection, Gives, is_same};

use crate::calls::Failed;
use crate::sink::Sink;
use crate::source::Source;
use cv_io::{Duplicate, Memory, Text};

/// What a proxy has connections with. `rounds` is how many connections it may have.
#[derive(Drop, Debug)]
pub enum Endpoint {
    /// The controller of a member, by its number in the policy, at its address.
    Member {
        index: u32,
        address: Text,
        rounds: u32,
    },
    /// A switch, by its number in the policy and its datapath id, which connects to us.
    Switch {
        index: u32,
        listen: Text,
        rounds: u32,
        dpid: u64,
    },
    /// A second proxy that takes over, at its address.
    Standby {
        address: Text,
        rounds: u32,
    },
    /// The proxy that is followed, which connects to us.
    Lead {
        listen: Text,
    },
}

impl Endpoint {
    /// Whether both are the same endpoint.
    pub fn is_same(&self, other: &Endpoint) -> bool
        ensures { result ≡ is_same self.now other.now }
    {
        match (self, other) {
            (
                Endpoint::Member {
                    index,
                    address,
                    rounds,
                },
                Endpoint::Member {
                    index: i,
                    address: a,
                    rounds: r,
                },
            ) => index == i && address == a && rounds == r,
            (
                Endpoint::Switch {
                    index,
                    listen,
                    rounds,
                    dpid,
                },
                Endpoint::Switch {
                    index: i,
                    listen: l,
                    rounds: r,
                    dpid: d,
                },
            ) => index == i && listen == l && rounds == r && dpid == d,
            (
                Endpoint::Standby { address, rounds },
                Endpoint::Standby {
                    address: a,
                    rounds: r,
                },
            ) => address == a && rounds == r,
            (Endpoint::Lead { listen }, Endpoint::Lead { listen: l }) => listen == l,
            _ => false,
        }
    }
}

impl Duplicate for Endpoint {
    fn copy(&self) -> Result<Endpoint, Memory> {
        Ok(match self {
            Endpoint::Member {
                index,
                address,
                rounds,
            } => Endpoint::Member {
                index: *index,
                address: address.copy()?,
                rounds: *rounds,
            },
            Endpoint::Switch {
                index,
                listen,
                rounds,
                dpid,
            } => Endpoint::Switch {
                index: *index,
                listen: listen.copy()?,
                rounds: *rounds,
                dpid: *dpid,
            },
            Endpoint::Standby { address, rounds } => Endpoint::Standby {
                address: address.copy()?,
                rounds: *rounds,
            },
            Endpoint::Lead { listen } => Endpoint::Lead {
                listen: listen.copy()?,
            },
        })
    }
}

/// What gives the connections of one endpoint.
pub trait Dial {
    type In: Source + Send;

    type Out: Sink + Send;

    // The connections that it will give from here on, where they are told.
    ghost left: { Self → Option (List Connection) };

    // How many calls failed.
    ghost faults: { Self → ℕ };

    // It never fails.
    ghost is_reliable: { Self → Bool };

    /// The next connection, or `None` where there are no more.
    fn next(&mut self) -> Result<Option<(Self::In, Self::Out)>, Failed>
        ensures given { IfOk result
            (λ next. IfSome next
            (λ link. Gives (left self.old) (left self.new) (Self.In.remaining link.0) (Self.In.is_reliable link.0)
            (Self.Out.held link.1) (Self.Out.is_reliable link.1))) }
        ensures none { IfOk result (λ next. IfSome (left self.old) (λ links. IsNone next ↔ (links ≡ []))) }
        ensures over { IfOk result (λ next. IsNone next → left self.new ≡ left self.old) }
        ensures kept { OnErr result (left self.new ≡ left self.old) }
        ensures quiet { OnOk result (faults self.new ≡ faults self.old) }
        ensures fault { OnErr result (Rose (faults self.old) (faults self.new)) }
        ensures never_falls { faults self.old ≤ faults self.new }
        ensures reliable { is_reliable self.new ≡ is_reliable self.old }
        ensures dials { is_reliable self.old ≡ true → IsOk result };
}

/// What endpoints are dialled by.
pub trait Links {
    ghost use Rattle.outside.specs.declared.links.Endpoint.{Endpoint};

    type Dial: Dial + Send;

    // The connections that the dial of an endpoint will give, where they are told.
    ghost told: { Self → Endpoint → Option (List Connection) };

    // The dial of an endpoint never fails.
    ghost is_reliable: { Self → Endpoint → Bool };

    // How many calls failed.
    ghost faults: { Self → ℕ };

    /// The dial of an endpoint.
    fn dial(&mut self, end: &Endpoint) -> Result<Self::Dial, Failed>
        ensures told { IfOk result (λ dial. Self.Dial.left dial ≡ told self.old end.now) }
        ensures dials { IfOk result (λ dial. is_reliable self.old end.now ≡ true → Self.Dial.is_reliable dial ≡ true) }
        ensures same { (end : Endpoint) → told self.new end ≡ told self.old end }
        ensures same_reliable { (end : Endpoint) → is_reliable self.new end ≡ is_reliable self.old end }
        ensures quiet { OnOk result (faults self.new ≡ faults self.old) }
        ensures fault { OnErr result (Rose (faults self.old) (faults self.new)) }
        ensures never_falls { faults self.old ≤ faults self.new };
}
