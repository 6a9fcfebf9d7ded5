//! The entries of a switch, from scratch.
ghost use Rattle.std.specs.Prelude.{◌≡◌, ◌<◌, ◌↔◌, ◌++◌, All, IfOk, IsTrue, OnOk, option_to_list};
ghost use Rattle.agreement.specs.Entries.{enters_on as enters_on_of, flat as flat_of, lies_on as lies_on_of};
ghost use Rattle.agreement.specs.Entries.{placed as placed_of, stands_on as stands_on_of};
ghost use Rattle.policy_meaning.specs.declared.rule.Rule.{Rule};
ghost use Rattle.switch_meaning.specs.Placing.{entry_of};

use cv_io::{Duplicate, List, Memory};
use policy_meaning::{Entering, Rule};
use std::alloc::Global;
use switch_meaning::{FlatRule, PhysEntry, Site, Wiring, place};

/// Whether the levels of rules leave room for priorities, which are one above them.
pub fn levels_fit(rules: &List<Rule>) -> bool
    ensures { IsTrue result ↔ All (λ (r : Rule). r.level < 65535) rules.now }
{
    rules.as_slice().iter().all(|rule| rule.level < 65535)
}

/// What of a rule is put on a switch.
pub fn flat(rule: &Rule) -> Result<FlatRule, Memory>
    ensures { IfOk result (λ flat. flat ≡ flat_of rule.now) }
{
    Ok(FlatRule {
        m: rule.m,
        level: rule.level,
        outs: rule.outs.copy()?,
        ancestry: rule.ancestry.copy()?,
    })
}

/// Whether an outside port lies on the switch.
fn lies_on(wiring: &Wiring, switch: u32, v: u32, port: u16) -> bool
    ensures { result ≡ lies_on_of wiring.now switch v port }
{
    match wiring.outside_at(v, port) {
        Some(o) => o.at.switch == switch,
        None => false,
    }
}

/// Whether some of these ports lies on the switch.
pub(crate) fn stands_on(wiring: &Wiring, switch: u32, v: u32, outside: &List<u16>) -> bool
    ensures { result ≡ stands_on_of wiring.now switch v outside.now }
{
    outside
        .as_slice()
        .iter()
        .any(|port| lies_on(wiring, switch, v, *port))
}

/// Whether the rules of a port, or those for all of these ports, are put on the switch.
fn enters_on(wiring: &Wiring, site: Site, outside: &List<u16>, port: Option<u16>) -> bool
    ensures { result ≡ enters_on_of wiring.now site outside.now port }
{
    match port {
        Some(port) => lies_on(wiring, site.switch, site.v, port),
        None => stands_on(wiring, site.switch, site.v, outside),
    }
}

/// Appends the entry of a rule, if it has one.
fn add_entry(
    alloc: Global,
    entries: &mut List<PhysEntry>,
    wiring: &Wiring,
    site: Site,
    rule: &Rule,
) -> Result<(), Memory>
    requires { rule.now.level < 65535 }
    ensures { OnOk result (entries.new ≡ entries.old ++ option_to_list (entry_of wiring.now site (flat_of rule.now))) }
{
    entries.push_some(place(alloc, wiring, site, &flat(rule)?)?)
}

/// The entries on a switch of the rules that enter at a virtual switch with these outside ports: none
/// where their port lies elsewhere.
pub fn placed(
    alloc: Global,
    wiring: &Wiring,
    site: Site,
    outside: &List<u16>,
    entering: &Entering,
) -> Result<List<PhysEntry>, Memory>
    requires { All (λ (r : Rule). r.level < 65535) entering.now.rules }
    ensures { IfOk result (λ entries. entries ≡ placed_of wiring.now site outside.now entering.now) }
{
    let mut entries = List::new(alloc);
    if !enters_on(wiring, site, outside, entering.port) {
        return Ok(entries);
    }
    for rule in entering.rules.as_slice() {
        add_entry(alloc, &mut entries, wiring, site, rule)?;
    }
    Ok(entries)
}
