//! What is kept of the composed part changes with what an event plans for members' tables.
ghost use Rattle.std.specs.Prelude.{◌≡◌, ◌<◌, ◌≤◌, ◌+◌, IfOk, List, OnOk, length};
ghost use Rattle.event_composes.specs.Costs.{turning_steps, turning_steps_at};
ghost use Rattle.event_composes.specs.Kept.{IsComposedOf};
ghost use Rattle.machine_drafts.specs.Outcomes.{state_in};
ghost use Rattle.event_composes.specs.Turning.{ArePortsAt, AreTold, CanFollow, joined, mixed_at, stood_in};
ghost use Rattle.machine_meaning.specs.Sound.{AreSoundTables};
ghost use Rattle.switch_tables.specs.Tables.{SwitchTableOf};

use composed_tables::{Composed, SwitchBatch};
use cv_io::{List, Memory, Steps};
use machine_drafts::outcome::Outcome;
use machine_drafts::settings::ups;
use machine_drafts::setup::Setup;
use policy_expr::Expr;
use policy_setting::virtual_switch;
use setting_laws::laws::mixtures_turn;
use std::alloc::Global;
use std::sync::ledger::Ledger;

/// What was told of the changes of members' rules.
#[derive(Drop)]
pub(crate) enum Turned {
    /// No rules changed.
    Nothing,
    /// Those of one member did, and this was told of each switch.
    Once(List<SwitchBatch>),
    /// Those of several did: what was told of one isn't all.
    Often,
}

impl Turned {
    /// What was told, with one change more.
    fn and(self, batches: List<SwitchBatch>) -> Turned
        ensures { result ≡ joined self batches }
    {
        match self {
            Turned::Nothing => Turned::Once(batches),
            _ => Turned::Often,
        }
    }
}

/// The ports of a virtual switch as composition has them.
fn ports(setup: &Setup, v: u32) -> Result<List<u16>, Memory>
    ensures { IfOk result (ArePortsAt setup.now v) }
{
    let alloc = setup.alloc();
    let Some(item) = setup.virtual_at(v) else {
        return Ok(List::new(alloc));
    };
    // They are the same whatever its expression is.
    let expr = Expr::Member { index: 0 };
    let switch = virtual_switch(alloc, setup.topology(), expr, false, v, item)?;
    let ports = switch.ports(alloc);
    drop(switch);
    ports
}

/// The rules of a member change with what is planned for its table, if anything is.
fn turn_member<G: Ledger>(
    setup: &Setup,
    draft: &Outcome<'_>,
    n: usize,
    ups: &[bool],
    composed: &mut Composed,
    turned: Turned,
    steps: &mut Steps<G>,
) -> Result<Turned, Memory>
    requires there { n < length draft.now.members }
    requires before { AreSoundTables setup.now (stood_in draft.now) }
    requires after { AreSoundTables setup.now (state_in draft.now) }
    requires exprs { draft.now.exprs.now ≡ draft.now.exprs.base }
    requires of { IsComposedOf setup.now (mixed_at n draft.now) composed.old }
    requires ups { length ups.now ≡ length composed.old.tables }
    ensures of { OnOk result (IsComposedOf setup.now (mixed_at (n + 1) draft.now) composed.new) }
    ensures told { (before : List SwitchTableOf) → AreTold draft.now.next_cookie before composed.old.tables turned
        → IfOk result (AreTold draft.now.next_cookie before composed.new.tables) }
    ensures steps { steps.new ≤ steps.old + turning_steps_at setup.now (stood_in draft.now) (state_in draft.now) n }
{
    // The proof learns what is true of every policy, and of members that change.
    let _policy = setup.policy();
    mixtures_turn();
    let members = draft.members.as_slice();
    let items = setup.members();
    let member = &members[n];
    let item = &items[n];
    if member.is_unplanned() {
        return Ok(turned);
    }
    let number = n as u32;
    let v = item.grant.ports.v;
    let ports = ports(setup, v)?;
    let Some(delta) = member.leaf_delta(setup.alloc(), number, &item.grant, &ports)? else {
        return Ok(turned);
    };
    let batches = composed.apply(v, delta, ups, draft.next_cookie, steps)?;
    Ok(turned.and(batches))
}

/// What is kept changes with what is planned for each member's table.
pub(crate) fn turn<G: Ledger>(
    setup: &Setup,
    draft: &Outcome<'_>,
    composed: &mut Composed,
    steps: &mut Steps<G>,
) -> Result<Turned, Memory>
    requires { CanFollow setup.now draft.now composed.old }
    ensures of { OnOk result (IsComposedOf setup.now (state_in draft.now) composed.new) }
    ensures told { IfOk result (AreTold draft.now.next_cookie composed.old.tables composed.new.tables) }
    ensures steps { steps.new ≤ steps.old + turning_steps setup.now (stood_in draft.now) (state_in draft.now) }
{
    let ups = ups(setup.alloc(), draft.switches.as_slice())?;
    let mut turned = Turned::Nothing;
    for n in 0..draft.members.len() {
        turned = turn_member(setup, draft, n, ups.as_slice(), composed, turned, steps)?;
    }
    Ok(turned)
}
