//! What gives the connections of one endpoint, as a work takes them.
ghost use Rattle.std.specs.Prelude.{◌≡◌, ◌↔◌, ℕ, Bool, true, List, [], Option, IfOk, IsOk, OnErr, IfSome, IsNone};
ghost use Rattle.outside.specs.Connections.{Connection, Gives};

use outside::{Dial, Failed, Sink, Source};

/// What gives the connections of one endpoint. Each [`Dial`] is one, as [`Dialled`].
///
/// A method of a trait learns nothing of its bounds that another thread could rest on, so it can't call what takes a
/// `Dial`, whose ends may be sent. Of this trait's ends nothing is asked.
pub trait Arrivals {
    type In: Source;

    type Out: Sink;

    // The connections that it will give from here on, where they are told.
    ghost left: { Self → Option (List Connection) };

    // It never fails.
    ghost is_reliable: { Self → Bool };

    /// The next connection, or `None` where there are no more.
    fn next(&mut self) -> Result<Option<(Self::In, Self::Out)>, Failed>
        ensures given { IfOk result (λ next. IfSome next (λ link. Gives (left self.old) (left self.new)
            (Self.In.remaining link.0) (Self.In.is_reliable link.0)
            (Self.Out.held link.1) (Self.Out.is_reliable link.1))) }
        ensures none { IfOk result (λ next. IfSome (left self.old) (λ links. IsNone next ↔ (links ≡ []))) }
        ensures over { IfOk result (λ next. IsNone next → left self.new ≡ left self.old) }
        ensures kept { OnErr result (left self.new ≡ left self.old) }
        ensures reliable { is_reliable self.new ≡ is_reliable self.old }
        ensures dials { is_reliable self.old ≡ true → IsOk result };
}

/// A dial, whose connections a work takes.
#[derive(Drop)]
pub struct Dialled<L> {
    pub dial: L,
}

impl<L: Dial> Arrivals for Dialled<L> {
    type In = L::In;

    type Out = L::Out;

    ghost left = { λ d. L.left d.dial };

    ghost is_reliable = { λ d. L.is_reliable d.dial };

    fn next(&mut self) -> Result<Option<(L::In, L::Out)>, Failed> {
        self.dial.next()
    }
}
