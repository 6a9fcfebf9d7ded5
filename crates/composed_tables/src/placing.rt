//! The entries of rules that went and came, on each switch.
ghost use Rattle.std.specs.Prelude.{◌≡◌, ◌<◌, ◌^◌, ◌++◌, All, IfOk, OnOk, filter_map, flat_map, length, map};
ghost use Rattle.std.specs.Prelude.{option_to_list};
ghost use Rattle.std.specs.List.{enumerate_from, range_with_len};
ghost use Rattle.agreement.specs.Entries.{enters_on as enters_on_of, flat as flat_of, lies_on as lies_on_of};
ghost use Rattle.agreement.specs.Entries.{placed as placed_of, stands_on as stands_on_of};
ghost use Rattle.hop_rules.specs.Tables.{is_of as is_of_of};
ghost use Rattle.policy_meaning.specs.declared.rule.Rule.{Rule as RuleOf};
ghost use Rattle.switch_meaning.specs.Placing.{entry_of};
ghost use Rattle.composed_tables.specs.Placing.{changed_by, entries_by, entries_of_one, entrance as entrance_of};
ghost use Rattle.composed_tables.specs.Placing.{entry_delta as entry_delta_of, rules_at, rules_for};

use crate::part::Part;
use agreement::{flat, levels_fit};
use cv_io::{List, Memory};
use exact_gate::GateDelta;
use hop_rules::PortDelta;
use policy_meaning::{Place, Rule, VirtualSwitch};
use std::alloc::Global;
use switch_meaning::{PhysEntry, Site, Wiring, place};

/// The rules of a delta that went, or those that came.
fn rules_of(delta: &PortDelta, part: Part) -> &List<Rule>
    ensures { result.now ≡ rules_for part delta.now }
{
    match part {
        Part::Gone => &delta.gone,
        Part::Come => &delta.come,
    }
}

/// Whether the delta is of this place.
fn is_of(at: Place, delta: &PortDelta) -> bool
    ensures { result ≡ is_of_of at delta.now }
{
    delta.v == at.v && delta.port == at.port
}

/// Appends the entry of a rule, if it has one.
fn add_entry(
    alloc: Global,
    entries: &mut List<PhysEntry>,
    wiring: &Wiring,
    site: Site,
    rule: &Rule,
) -> Result<(), Memory>
    requires { rule.now.level < 65535 }
    ensures { OnOk result (entries.new ≡ entries.old ++ option_to_list (entry_of wiring.now site (flat_of rule.now))) }
{
    entries.push_some(place(alloc, wiring, site, &flat(rule)?)?)
}

/// Appends the entries of rules.
fn add_rules(
    alloc: Global,
    entries: &mut List<PhysEntry>,
    wiring: &Wiring,
    site: Site,
    rules: &List<Rule>,
) -> Result<(), Memory>
    requires { All (λ (r : RuleOf). r.level < 65535) rules.now }
    ensures { OnOk result (entries.new ≡ entries.old
        ++ filter_map (λ r. entry_of wiring.now site (flat_of r)) rules.now) }
{
    for rule in rules.as_slice() {
        add_entry(alloc, entries, wiring, site, rule)?;
    }
    Ok(())
}

/// Appends the entries of rules whose levels leave room for priorities. All rules of a setting that fits are such;
/// a law that says so of what goes and comes makes the test superfluous.
fn add_fitting(
    alloc: Global,
    entries: &mut List<PhysEntry>,
    wiring: &Wiring,
    site: Site,
    rules: &List<Rule>,
) -> Result<(), Memory>
    ensures { OnOk result (entries.new ≡ entries.old
        ++ filter_map (λ r. entry_of wiring.now site (flat_of r)) rules.now) }
{
    if !levels_fit(rules) {
        return Err(Memory);
    }
    add_rules(alloc, entries, wiring, site, rules)
}

/// Appends the entries of the rules of a place that went, or came.
fn add_changed(
    alloc: Global,
    entries: &mut List<PhysEntry>,
    wiring: &Wiring,
    site: Site,
    deltas: &[PortDelta],
    at: Place,
    part: Part,
) -> Result<(), Memory>
    ensures { OnOk result (entries.new ≡ entries.old
        ++ filter_map (λ r. entry_of wiring.now site (flat_of r)) (rules_at part deltas.now at)) }
{
    for delta in deltas {
        if is_of(at, delta) {
            return add_fitting(alloc, entries, wiring, site, rules_of(delta, part));
        }
    }
    Ok(())
}

/// Whether an outside port lies on the switch.
fn lies_on(wiring: &Wiring, switch: u32, v: u32, port: u16) -> bool
    ensures { result ≡ lies_on_of wiring.now switch v port }
{
    match wiring.outside_at(v, port) {
        Some(o) => o.at.switch == switch,
        None => false,
    }
}

/// Whether some of these ports lies on the switch.
fn stands_on(wiring: &Wiring, switch: u32, v: u32, outside: &List<u16>) -> bool
    ensures { result ≡ stands_on_of wiring.now switch v outside.now }
{
    outside
        .as_slice()
        .iter()
        .any(|port| lies_on(wiring, switch, v, *port))
}

/// Whether rules that enter here are put on the switch.
fn enters_on(wiring: &Wiring, site: Site, outside: &List<u16>, port: Option<u16>) -> bool
    ensures { result ≡ enters_on_of wiring.now site outside.now port }
{
    match port {
        Some(port) => lies_on(wiring, site.switch, site.v, port),
        None => stands_on(wiring, site.switch, site.v, outside),
    }
}

/// The place of an entrance.
fn entrance(v: u32, port: Option<u16>) -> Place
    ensures { result ≡ entrance_of v port }
{
    match port {
        Some(port) => Place { v, port },
        None => Place { v, port: 0 },
    }
}

/// Appends the entries of what went, or came, at an entrance of a virtual switch.
fn add_entrance(
    alloc: Global,
    entries: &mut List<PhysEntry>,
    wiring: &Wiring,
    site: Site,
    outside: &List<u16>,
    port: Option<u16>,
    deltas: &[PortDelta],
    part: Part,
) -> Result<(), Memory>
    ensures { OnOk result (entries.new ≡ entries.old
        ++ placed_of wiring.now site outside.now
        (record { port = port; rules = rules_at part deltas.now (entrance_of site.v port) })) }
{
    if !enters_on(wiring, site, outside, port) {
        return Ok(());
    }
    let at = entrance(site.v, port);
    add_changed(alloc, entries, wiring, site, deltas, at, part)
}

/// A virtual switch on a switch.
fn site_at(n: u32, v: u32, x: &VirtualSwitch) -> Site
    ensures { result ≡ record { v = v; switch = n; spread = x.now.spread; whole = x.now.whole } }
{
    Site {
        v,
        switch: n,
        spread: x.spread,
        whole: x.whole,
    }
}

/// Appends the entries of what went, or came, of each outside port of a virtual switch.
fn add_ports(
    alloc: Global,
    entries: &mut List<PhysEntry>,
    wiring: &Wiring,
    site: Site,
    outside: &List<u16>,
    deltas: &[PortDelta],
    part: Part,
) -> Result<(), Memory>
    ensures { OnOk result (entries.new ≡ entries.old ++ flat_map (λ p. placed_of wiring.now site outside.now
        (record { port = Some p; rules = rules_at part deltas.now (entrance_of site.v (Some p)) })) outside.now) }
{
    for port in outside.as_slice() {
        add_entrance(
            alloc,
            entries,
            wiring,
            site,
            outside,
            Some(*port),
            deltas,
            part,
        )?;
    }
    Ok(())
}

/// Appends the entries on a switch of what went, or came, of a virtual switch.
fn add_virtual(
    alloc: Global,
    entries: &mut List<PhysEntry>,
    wiring: &Wiring,
    n: u32,
    v: u32,
    x: &VirtualSwitch,
    deltas: &[PortDelta],
    part: Part,
) -> Result<(), Memory>
    ensures { OnOk result (entries.new ≡ entries.old
        ++ entries_of_one wiring.now (changed_by part deltas.now) n (v, x.now)) }
{
    let site = site_at(n, v, x);
    if x.whole {
        add_entrance(alloc, entries, wiring, site, &x.outside, None, deltas, part)
    } else {
        add_ports(alloc, entries, wiring, site, &x.outside, deltas, part)
    }
}

/// The entries on a switch of what went, or came.
fn changed_entries(
    alloc: Global,
    wiring: &Wiring,
    switches: &List<VirtualSwitch>,
    deltas: &[PortDelta],
    n: u32,
    part: Part,
) -> Result<List<PhysEntry>, Memory>
    requires { length switches.now < 2 ^ 32 }
    ensures { IfOk result (λ entries. entries ≡ entries_by wiring.now switches.now (changed_by part deltas.now) n) }
{
    let mut entries = List::new(alloc);
    for (v, x) in switches.as_slice().iter().enumerate() {
        add_virtual(alloc, &mut entries, wiring, n, v as u32, x, deltas, part)?;
    }
    Ok(entries)
}

/// The entries on a switch of what went, and of what came.
fn entry_delta(
    alloc: Global,
    wiring: &Wiring,
    switches: &List<VirtualSwitch>,
    deltas: &[PortDelta],
    n: u32,
) -> Result<GateDelta, Memory>
    requires { length switches.now < 2 ^ 32 }
    ensures { IfOk result (λ delta. delta ≡ entry_delta_of wiring.now switches.now deltas.now n) }
{
    Ok(GateDelta {
        gone: changed_entries(alloc, wiring, switches, deltas, n, Part::Gone)?,
        come: changed_entries(alloc, wiring, switches, deltas, n, Part::Come)?,
    })
}

/// The entries of what went, and of what came, on each of so many switches.
pub fn entry_deltas(
    alloc: Global,
    wiring: &Wiring,
    switches: &List<VirtualSwitch>,
    deltas: &[PortDelta],
    count: u32,
) -> Result<List<GateDelta>, Memory>
    requires { length switches.now < 2 ^ 32 }
    ensures { IfOk result (λ all. all ≡ map (entry_delta_of wiring.now switches.now deltas.now)
        (range_with_len 0 count)) }
{
    let mut all = List::new(alloc);
    for n in 0..count {
        all.push(entry_delta(alloc, wiring, switches, deltas, n)?)?;
    }
    Ok(all)
}
