//! How the rules of a member change.
ghost use Rattle.std.specs.Prelude.{◌≡◌, ◌<◌, IfOk, IsPermutation};
ghost use Rattle.std.specs.List.{AllByRecursion};
ghost use Rattle.of10_match.specs.Normal.{IsNormal};
ghost use Rattle.of10_actions.specs.Ports.{AreRising};
ghost use Rattle.member_state.specs.Leaves.{leaf_of};
ghost use Rattle.member_state.specs.Plans.{IsReady, after_planned};
ghost use Rattle.policy_meaning.specs.LeafRules.{leaf_rules};
ghost use Rattle.policy_meaning.specs.declared.rule.Rule.{Rule as RuleOf};
ghost use Rattle.incr_compile.specs.Compiling.{rules_after};
ghost use Rattle.leaf_changes.specs.Plans.{IsPlanOf};
ghost use Rattle.leaf_changes.specs.Told.{IsTold};

use crate::anew::{all_entries, all_numbers, keeps_levels};
use crate::coming::coming;
use crate::making::entry_rules;
use crate::numbers::{leaves, touched};
use cv_io::{List, Memory};
use grants::Grant;
use incr_compile::LeafDelta;
use level_map::LevelMap;
use member_state::{MemberState, Planned};
use policy_meaning::LeafEntry;
use std::alloc::Global;

/// The numbers of the entries that change, and those of them that are then there.
fn told(
    alloc: Global,
    member: u32,
    grant: &Grant,
    kept: &MemberState,
    planned: &Planned,
    now: u64,
) -> Result<(List<u64>, List<LeafEntry>), Memory>
    requires ready { IsReady kept.now planned.now }
    requires plan { IsPlanOf kept.now.state planned.now }
    requires rising { AreRising grant.now.ports }
    ensures { IfOk result (λ told. IsTold (leaf_of member grant.now kept.now.state)
        (leaf_of member grant.now (after_planned kept.now.state planned.now now)) told.0 told.1) }
{
    // The proof learns what is true of every state.
    let _ = kept.table();
    let keeps = keeps_levels(kept.levels(), &planned.change.added)?;
    if keeps {
        let named = touched(planned)?;
        let come = coming(alloc, member, &grant.ports, kept, planned)?;
        return Ok((named, come));
    }
    let serials = all_numbers(kept, planned)?;
    let entries = all_entries(member, grant, kept, planned, now)?;
    Ok((serials, entries))
}

/// How many levels there are.
fn size_of(levels: &LevelMap) -> u64
    ensures { result ≡ levels.now.size }
{
    u64::from(levels.size())
}

/// How the rules of a member of this number, with this grant, at a virtual switch of these ports change with what is
/// planned for a moment: those of the entries that go, come or get other actions, and of all where levels change.
pub fn leaf_delta(
    alloc: Global,
    member: u32,
    grant: &Grant,
    kept: &MemberState,
    planned: &Planned,
    now: u64,
    ports: &List<u16>,
) -> Result<LeafDelta, Memory>
    requires ready { IsReady kept.now planned.now }
    requires plan { IsPlanOf kept.now.state planned.now }
    requires rising { AreRising grant.now.ports }
    requires boxes { AllByRecursion IsNormal grant.now.regions }
    ensures member { IfOk result (λ d. d.member ≡ member) }
    // The rules before, changed so, are those after.
    ensures changed { IfOk result (λ d. IsPermutation
        (rules_after d (leaf_rules ports.now (leaf_of member grant.now kept.now.state)))
        (leaf_rules ports.now (leaf_of member grant.now (after_planned kept.now.state planned.now now)))) }
    // Rules that come have normal matches, and levels of the member.
    ensures normal { IfOk result (λ d. AllByRecursion (λ (r : RuleOf). IsNormal r.m) d.come) }
    ensures below { IfOk result (λ d. AllByRecursion (λ (r : RuleOf). r.level < kept.now.state.levels.size) d.come) }
{
    let changed = told(alloc, member, grant, kept, planned, now)?;
    let gone = leaves(alloc, member, changed.0.as_slice())?;
    let size = size_of(&planned.levels);
    let come = entry_rules(alloc, member, grant, size, changed.1, ports)?;
    Ok(LeafDelta { member, gone, come })
}
