//! Copies of what the machine holds.
ghost use Rattle.std.specs.Prelude.{◌≡◌, IfOk};
ghost use Rattle.machine_drafts.specs.Machines.{holding_of};

use crate::exprs_draft::Exprs;
use crate::held::Held;
use crate::session::{Member, Switch};
use crate::setup::Setup;
use cv_io::{Duplicate, List, Memory};
use machine_meaning::Owed;
use outbox::Letters;
use waitings::Waiting;

impl Duplicate for Member {
    fn copy(&self) -> Result<Member, Memory> {
        Ok(Member {
            outbox: self.outbox.copy()?,
            config: self.config,
            kept: self.kept.copy()?,
        })
    }
}

impl Duplicate for Switch {
    fn copy(&self) -> Result<Switch, Memory> {
        Ok(Switch {
            outbox: self.outbox.copy()?,
            known: self.known.copy()?,
            standing: self.standing.copy()?,
        })
    }
}

/// Copies of members and switches.
fn copied_sessions(held: &Held) -> Result<(List<Member>, List<Switch>), Memory>
    ensures members { IfOk result (λ copied. copied.0 ≡ held.now.members) }
    ensures switches { IfOk result (λ copied. copied.1 ≡ held.now.switches) }
{
    let members = held.members.copy()?;
    match held.switches.copy() {
        Ok(switches) => Ok((members, switches)),
        Err(memory) => {
            drop(members);
            Err(memory)
        }
    }
}

/// Copies of what waits, of what is owed and of the audit.
fn copied_lists(held: &Held) -> Result<(List<Waiting>, List<Owed>, Letters), Memory>
    ensures waiting { IfOk result (λ copied. copied.0 ≡ held.now.waiting) }
    ensures owed { IfOk result (λ copied. copied.1 ≡ held.now.owed) }
    ensures audit { IfOk result (λ copied. copied.2 ≡ held.now.audit) }
{
    let audit = held.audit.copy()?;
    let owed = held.owed.copy()?;
    let waiting = held.waiting.copy()?;
    Ok((waiting, owed, audit))
}

/// A copy of what a machine holds.
pub fn copied_held(setup: &Setup, held: &Held) -> Result<Held, Memory>
    ensures { IfOk result (λ copied. holding_of copied ≡ holding_of held.now) }
{
    let alloc = setup.alloc();
    let exprs = Exprs::stay(alloc, &held.exprs).all(alloc)?;
    let (waiting, owed, audit) = copied_lists(held)?;
    let counts = held.counts.copy()?;
    let (members, switches) = copied_sessions(held)?;
    Ok(Held {
        moment: held.moment,
        exprs,
        members,
        switches,
        counts,
        waiting,
        owed,
        next_cookie: held.next_cookie,
        audit,
    })
}
