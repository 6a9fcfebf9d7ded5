//! The rules of entries.
ghost use Rattle.std.specs.Prelude.{◌≡◌, IfOk, filter};
ghost use Rattle.std.specs.List.{AllByRecursion};
ghost use Rattle.leaf_changes.specs.Leaves.{entry_rules as entry_rules_of};
ghost use Rattle.leaf_changes.specs.Told.{IsFitting, is_of_entry as is_of_entry_of, table_with as table_with_of};

use cv_io::{Duplicate, List, Memory};
use grants::Grant;
use policy_meaning::{LeafEntry, LeafTable, Rule};
use std::alloc::Global;

/// Whether a rule is of an entry.
fn is_of_entry(rule: &Rule) -> bool
    ensures { result ≡ is_of_entry_of rule.now }
{
    match rule.ancestry.get(0) {
        Some(leaf) => leaf.kind >= 2,
        None => false,
    }
}

/// Takes out the rules of headers outside, and of misses.
fn keep_entries(rules: &mut Vec<Rule>)
    ensures { rules.new.items ≡ filter is_of_entry_of rules.old.items }
{
    rules.retain(|rule| is_of_entry(rule));
}

/// The table of a member of this number with this grant, of so many levels, with these entries.
fn table_with(
    member: u32,
    grant: &Grant,
    size: u64,
    entries: List<LeafEntry>,
) -> Result<LeafTable, Memory>
    ensures { IfOk result (λ t. t ≡ table_with_of member grant.now size entries) }
{
    let mut visible = grant.ports.outside.copy()?;
    visible.extend_from_slice(grant.ports.links.as_slice())?;
    Ok(LeafTable {
        member,
        size,
        region: grant.regions.copied()?,
        visible,
        misses: grant.misses,
        entries,
    })
}

/// The rules of some entries of such a table, at a virtual switch of these ports.
pub(crate) fn entry_rules(
    alloc: Global,
    member: u32,
    grant: &Grant,
    size: u64,
    entries: List<LeafEntry>,
    ports: &List<u16>,
) -> Result<List<Rule>, Memory>
    requires { AllByRecursion (IsFitting size) entries }
    ensures { IfOk result (λ rules. rules
        ≡ entry_rules_of ports.now (table_with_of member grant.now size entries) entries) }
{
    let table = table_with(member, grant, size, entries)?;
    let mut rules = table.rules(alloc, ports)?.into_vec();
    keep_entries(&mut rules);
    Ok(List::from_vec(rules))
}
