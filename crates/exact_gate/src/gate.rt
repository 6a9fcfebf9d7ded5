//! The gate.
ghost use Rattle.std.specs.Prelude.{◌≡◌, [], IfOk, OnErr, OnOk};
ghost use Rattle.std.specs.List.{IsDistinct};
ghost use Rattle.exact_gate.specs.Gates.{IsChanged, IsDifference};
ghost use Rattle.exact_gate.specs.Standing.{HaveSame};
ghost use Rattle.switch_meaning.specs.Keys.{passing};
ghost use Rattle.switch_meaning.specs.Same.{same_entry};

pub use crate::delta::GateDelta;
use crate::state::{State, change, fresh};
use cv_io::{Duplicate, List, Memory};
use std::alloc::Global;
use std::marker::Model;
use switch_meaning::PhysEntry;

/// The entries that are to stand on a switch, of which some pass. Contracts see them, and those
/// before the last change, as lists whose order says nothing.
#[derive(Drop)]
pub struct Gate {
    alloc: Global,
    state: State,
}

impl Model for Gate {
    ghost use Rattle.exact_gate.specs.Gates.{GateOf};
    ghost use Rattle.exact_gate.specs.InsideLogs.{gate_of};

    ghost Value = { GateOf };

    ghost view = { λ a. gate_of a.state };
}

impl Gate {
    /// A gate without candidates, which takes no memory.
    pub fn new(alloc: Global) -> Gate
        ensures { result ≡ record { candidates = []; before = [] } }
    {
        Gate {
            alloc,
            state: fresh(alloc),
        }
    }

    /// Takes candidates out, those that are there, and then adds others, each once. It tells which
    /// candidates passed before and don't now, and which pass now and didn't before: each of them
    /// once, also those that stay candidates. Where memory is wanting the candidates are as before.
    pub fn change(
        &mut self,
        gone: &List<PhysEntry>,
        come: &List<PhysEntry>,
    ) -> Result<GateDelta, Memory>
        ensures after { OnOk result (IsChanged self.old.candidates gone.now come.now self.new.candidates) }
        ensures before { OnOk result (HaveSame self.old.candidates self.new.before) }
        ensures gone { IfOk result
            (λ delta. IsDifference (passing self.old.candidates) (passing self.new.candidates) delta.gone) }
        ensures come { IfOk result
            (λ delta. IsDifference (passing self.new.candidates) (passing self.old.candidates) delta.come) }
        ensures gone_once { IfOk result (λ delta. IsDistinct same_entry delta.gone) }
        ensures come_once { IfOk result (λ delta. IsDistinct same_entry delta.come) }
        ensures memory { OnErr result (HaveSame self.old.candidates self.new.candidates) }
        ensures memory_before { OnErr result (HaveSame self.old.before self.new.before) }
    {
        change(
            self.alloc,
            &mut self.state,
            gone.as_slice(),
            come.as_slice(),
        )
    }

    /// Makes it what it was before the last change that was made. It takes no memory.
    pub fn undo(&mut self)
        ensures { self.new ≡ record { candidates = self.old.before; before = self.old.before } }
    {
        self.state.undone = true;
    }
}

impl Duplicate for Gate {
    fn copy(&self) -> Result<Gate, Memory> {
        Ok(Gate {
            alloc: self.alloc,
            state: self.state.copy()?,
        })
    }
}
