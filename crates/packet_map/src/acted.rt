//! What is done to a packet beside outs.
ghost use Rattle.std.specs.Prelude.{◌≡◌, ◌||◌, false};
ghost use Rattle.policy_meaning.specs.Meaning.{tail_after as tail_after_of};

use of10_actions::{Rewrite, Tail};

/// Whether an entry acts on a packet, in the sense of `|>`, and how its list of actions ends.
#[derive(Clone, Copy)]
pub struct Acted {
    pub touched: bool,
    pub tail: Tail,
}

/// A tail whose rewrite stands after another.
fn tail_after(rewrite: &Rewrite, tail: &Tail) -> Tail
    ensures { result ≡ tail_after_of rewrite.now tail.now }
{
    match tail {
        Tail::Nothing => Tail::Nothing,
        Tail::Pass(next) => Tail::Pass(rewrite.then(next)),
        Tail::Link(next, port) => Tail::Link(rewrite.then(next), *port),
    }
}

impl Acted {
    /// No entry acts.
    pub fn nothing() -> Acted
        ensures { result ≡ record { touched = false; tail = Tail.Nothing } }
    {
        Acted {
            touched: false,
            tail: Tail::Nothing,
        }
    }

    /// Where both operands of `+` act.
    pub fn and(&self, right: &Acted) -> Acted
        ensures { result ≡ record { touched = self.now.touched || right.now.touched; tail = right.now.tail } }
    {
        Acted {
            touched: self.touched | right.touched,
            tail: right.tail,
        }
    }

    /// Where the left operand of `>>` passes the packet on with this rewrite.
    pub fn passing(&self, rewrite: &Rewrite, right: &Acted) -> Acted
        ensures { result ≡ record { touched = self.now.touched; tail = tail_after_of rewrite.now right.now.tail } }
    {
        Acted {
            touched: self.touched,
            tail: tail_after(rewrite, &right.tail),
        }
    }
}
