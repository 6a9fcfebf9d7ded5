//! A desk that knows since when it has admitted a pass.
ghost use Rattle.cv_io.specs.declared.leaf.Who.{Who};

use sessions::Desk;

/// A desk that knows since when it has admitted a pass. Contracts learn from it how a pass goes on.
pub trait LaterDesk: Desk + Drop {
    // The second pass is the first one, as it is later.
    ghost later: { Self.Pass → Self.Pass → Type 0 };

    /// The same desk, which admits the pass from here on.
    fn from_here(&self, pass: &Self::Pass) -> Self
        requires { Self.admits self.now pass.now }
        ensures admits { Self.admits result pass.now }
        ensures desk { (p : Self.Pass) → Self.admits result p → Self.admits self.now p }
        ensures later { (p : Self.Pass) → Self.admits result p → later pass.now p }
        ensures serves { (who : Who) → Self.serves self.now who → Self.serves result who };
}
