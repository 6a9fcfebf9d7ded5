//! The removed entries whose FLOW_REMOVED is owed: as an event leaves them, beside them as they stand.
ghost use Rattle.std.specs.Prelude.{◌≡◌, ◌∷◌, ◌++◌, [], IfOk, IsTrue, OnOk, unwrap_or};

use cv_io::{Duplicate, List, Memory};
use machine_meaning::Owed;
use std::marker::Model;

/// What is owed as it stands, and as an event leaves it so far, once that changes.
#[derive(Drop)]
pub struct Owing<'a> {
    base: &'a List<Owed>,
    changed: Option<List<Owed>>,
}

impl<'a> Model for Owing<'a> {
    ghost use Rattle.std.specs.Prelude.{unwrap_or};
    ghost use Rattle.machine_drafts.specs.Owing.{OwingOf};

    ghost Value = { OwingOf };

    ghost view = { λ a. record { base = a.base.now; now = unwrap_or a.changed a.base.now } };
}

/// What is owed so far, to be changed: a copy at the first change.
fn owed_so_far(changed: &mut Option<List<Owed>>, base: &List<Owed>) -> Result<List<Owed>, Memory>
    ensures owed { IfOk result (λ owed. owed ≡ unwrap_or changed.old base.now) }
    ensures taken { changed.new ≡ None }
{
    match changed.take() {
        Some(changed) => Ok(changed),
        None => base.copy(),
    }
}

impl<'a> Owing<'a> {
    /// What is owed stays as it is.
    pub fn stay(base: &'a List<Owed>) -> Owing<'a>
        ensures base { result.base ≡ base.now }
        ensures now { result.now ≡ base.now }
    {
        Owing {
            base,
            changed: None,
        }
    }

    /// What is owed, in the order in which the entries went.
    pub fn as_slice(&self) -> &[Owed]
        ensures { result.now ≡ self.now.now }
    {
        match &self.changed {
            Some(changed) => changed.as_slice(),
            None => self.base.as_slice(),
        }
    }

    /// The FLOW_REMOVED of one more entry is owed.
    pub fn owe(&mut self, owed: Owed) -> Result<(), Memory>
        ensures base { self.new.base ≡ self.old.base }
        ensures now { OnOk result (self.new.now ≡ self.old.now ++ owed ∷ []) }
    {
        let mut changed = owed_so_far(&mut self.changed, self.base)?;
        changed.push(owed)?;
        self.changed = Some(changed);
        Ok(())
    }

    /// What was owed as the event began.
    pub fn before(&self) -> &[Owed]
        ensures { result.now ≡ self.now.base }
    {
        self.base.as_slice()
    }

    /// What is owed is as the event found it.
    pub fn is_unchanged(&self) -> bool
        ensures { IsTrue result → self.now.now ≡ self.now.base }
    {
        self.changed.is_none()
    }

    /// Other entries are owed.
    pub fn set(&mut self, owed: List<Owed>)
        ensures base { self.new.base ≡ self.old.base }
        ensures now { self.new.now ≡ owed }
    {
        self.changed = Some(owed);
    }

    /// What is moved in, if it changes.
    pub fn into_change(self) -> Option<List<Owed>>
        ensures { unwrap_or result self.entry.base ≡ self.entry.now }
    {
        self.changed
    }
}
