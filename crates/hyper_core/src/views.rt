//! What is read of a machine between its steps.
ghost use Rattle.std.specs.Prelude.{◌≡◌, IfOk, length, map, slice_get};
ghost use Rattle.agreement.specs.Fitting.{IsFittingSetting};
ghost use Rattle.policy_meaning.specs.Networks.{switch_rules as switch_rules_of};
ghost use Rattle.machine_drafts.specs.Machines.{state_in_held};
ghost use Rattle.hyper_core.specs.Worlds.{installed_on, rule_count};
ghost use Rattle.machine_meaning.specs.Sessions.{round_of};

use crate::glances::outbox_for;
use agreement::Setting;
use cv_io::{List, Memory, Who};
use event_composes::composed::present;
use install_plan::Written;
use machine_drafts::held::Held;
use machine_drafts::setup::Setup;
use policy_meaning::switch_rules;
use std::alloc::Global;

/// The present round of a session; 0 before the first, and where there is no such session.
pub(crate) fn round(held: &Held, who: Who) -> u64
    ensures { result ≡ round_of (state_in_held held.now) who }
{
    match outbox_for(held, who) {
        Some(outbox) => outbox.round(),
        None => 0,
    }
}

/// Copies of the entries that stand on a switch, if it is up.
pub(crate) fn installed(held: &Held, n: u32) -> Result<Option<List<Written>>, Memory>
    ensures { IfOk result (λ installed. installed ≡ installed_on (state_in_held held.now) n) }
{
    match held.switches.get(n as usize) {
        Some(switch) if switch.outbox.is_up() => Ok(Some(switch.standing.listed()?)),
        _ => Ok(None),
    }
}

/// How many rules the expression of a virtual switch of a setting has.
fn count_rules(alloc: Global, setting: &Setting, v: u32) -> Result<u64, Memory>
    requires { IsFittingSetting setting.now }
    ensures { IfOk result (λ count. count
        ≡ length (switch_rules_of setting.now.network.tables (slice_get setting.now.network.switches v))) }
{
    let Some(switch) = setting.network.switches.get(v as usize) else {
        return Ok(0);
    };
    let rules = switch_rules(alloc, &setting.network.tables, switch)?;
    Ok(rules.len() as u64)
}

/// How many composed rules the expression of a virtual switch has.
pub(crate) fn rules(setup: &Setup, held: &Held, v: u32) -> Result<u64, Memory>
    ensures { IfOk result (λ count. count ≡ rule_count setup.now (state_in_held held.now) v) }
{
    let setting = present(setup, held)?;
    count_rules(setup.alloc(), &setting, v)
}
