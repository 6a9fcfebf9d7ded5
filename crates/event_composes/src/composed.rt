//! What composition reads of a state, and the entries that it gives for switches: from scratch.
ghost use Rattle.std.specs.Prelude.{◌≡◌, IfOk};
ghost use Rattle.agreement.specs.Entries.{entries_of as entries_of_of};
ghost use Rattle.agreement.specs.Fitting.{IsFittingSetting};
ghost use Rattle.switch_meaning.specs.Keys.{installed as installed_of};
ghost use Rattle.machine_drafts.specs.Machines.{state_in_held};
ghost use Rattle.machine_drafts.specs.Outcomes.{members_in, switches_in};
ghost use Rattle.machine_meaning.specs.Settings.{setting_of, setting_with};

use agreement::{Setting, entries_of};
use cv_io::{List, Memory};
use machine_drafts::beginning::begin_outcome;
use machine_drafts::exprs_draft::Exprs;
use machine_drafts::held::Held;
use machine_drafts::member_draft::MemberDraft;
use machine_drafts::settings::setting;
use machine_drafts::setup::Setup;
use machine_drafts::switch_draft::SwitchDraft;
use std::alloc::Global;
use switch_meaning::{PhysEntry, installed};

/// What composition reads of the state that an event leaves. A policy's setting fits, by the law that policies are
/// ready, as far as its expressions are those of some texts; a law that says so of each sound state makes the test
/// superfluous.
pub fn fitting(
    setup: &Setup,
    exprs: &Exprs<'_>,
    members: &[MemberDraft<'_>],
    switches: &[SwitchDraft<'_>],
) -> Result<Setting, Memory>
    ensures setting { IfOk result (λ s.
        s ≡ setting_with setup.now exprs.now.now (members_in members.now) (switches_in switches.now)) }
    ensures fits { IfOk result IsFittingSetting }
{
    let setting = setting(setup, exprs, members, switches)?;
    if setting.fits() {
        return Ok(setting);
    }
    drop(setting);
    Err(Memory)
}

/// What composition reads of the present state.
pub fn present(setup: &Setup, held: &Held) -> Result<Setting, Memory>
    ensures setting { IfOk result (λ setting. setting ≡ setting_of setup.now (state_in_held held.now)) }
    ensures fits { IfOk result IsFittingSetting }
{
    let outcome = begin_outcome(setup.alloc(), held, held.moment)?;
    let members = outcome.members.as_slice();
    let switches = outcome.switches.as_slice();
    let setting = fitting(setup, &outcome.exprs, members, switches);
    drop(outcome);
    setting
}

/// The entries that a switch is to have.
pub(crate) fn wanted(alloc: Global, setting: &Setting, n: u32) -> Result<List<PhysEntry>, Memory>
    requires { IsFittingSetting setting.now }
    ensures { IfOk result (λ wanted. wanted ≡ installed_of (entries_of_of setting.now n)) }
{
    let entries = entries_of(alloc, setting, n)?;
    installed(alloc, &entries)
}
