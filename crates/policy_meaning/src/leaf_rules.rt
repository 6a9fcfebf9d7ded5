//! The rules of a member's table.
ghost use Rattle.std.specs.Prelude.{◌≡◌, [], ◌∷◌, ◌+◌, ◌<◌, ◌^◌, ◌++◌, All, IfOk, OnOk, flat_map, map};
ghost use Rattle.std.specs.List.{list_any};
ghost use Rattle.policy_meaning.specs.Fitting.{SerialsFit};
ghost use Rattle.policy_meaning.specs.LeafRules.{cells as cells_of, cut as cut_of, entry_rule as entry_rule_of};
ghost use Rattle.policy_meaning.specs.LeafRules.{has_outside as has_outside_of, hides as hides_of, in_cells};
ghost use Rattle.policy_meaning.specs.LeafRules.{is_everything as is_everything_of, is_open as is_open_of};
ghost use Rattle.policy_meaning.specs.LeafRules.{leaf_rules as leaf_rules_of, miss_rule as miss_rule_of};
ghost use Rattle.policy_meaning.specs.LeafRules.{outside_rule as outside_rule_of, rule_met as rule_met_of};

use crate::leaf::{LeafEntry, LeafTable, has_port};
use crate::rule::Rule;
use cv_io::{Duplicate, Leaf, List, Memory};
use of10_actions::Tail;
use of10_match::Match;
use std::alloc::Global;

fn is_open<T>(asked: &Option<T>) -> bool
    ensures { result ≡ is_open_of asked.now }
{
    asked.is_none()
}

/// Whether a match holds every header.
fn is_everything(m: &Match) -> bool
    ensures { result ≡ is_everything_of m.now }
{
    is_open(&m.in_port)
        && is_open(&m.dl_src)
        && is_open(&m.dl_dst)
        && is_open(&m.dl_vlan)
        && is_open(&m.dl_vlan_pcp)
        && is_open(&m.dl_type)
        && is_open(&m.nw_tos)
        && is_open(&m.nw_proto)
        && is_open(&m.nw_src)
        && is_open(&m.nw_dst)
        && is_open(&m.tp_src)
        && is_open(&m.tp_dst)
}

/// The rule, narrowed to what the match holds too, or none where no header is in both.
pub fn rule_met(a: &Rule, n: &Match) -> Result<Option<Rule>, Memory>
    ensures { IfOk result (λ rule. rule ≡ rule_met_of a.now n.now) }
{
    match a.m.meet(n) {
        None => Ok(None),
        Some(m) => {
            let mut rule = a.copy()?;
            rule.m = m;
            Ok(Some(rule))
        }
    }
}

/// Appends the rule in each cell that it meets.
fn add_in_cells(rules: &mut List<Rule>, cells: &List<Match>, a: &Rule) -> Result<(), Memory>
    ensures { OnOk result (rules.new ≡ rules.old ++ in_cells cells.now a.now) }
{
    for cell in cells.as_slice() {
        rules.push_some(rule_met(a, cell)?)?;
    }
    Ok(())
}

/// Appends a box, cut into one part for each visible port.
fn add_cut(cells: &mut List<Match>, visible: &List<u16>, m: &Match) -> Result<(), Memory>
    ensures { OnOk result (cells.new ≡ cells.old ++ cut_of visible.now m.now) }
{
    for port in visible.as_slice() {
        cells.push_some(m.meet(&Match::at_port(*port)))?;
    }
    Ok(())
}

/// Each box of a region, cut into one part for each visible port.
fn all_cut(alloc: Global, visible: &List<u16>, region: &List<Match>) -> Result<List<Match>, Memory>
    ensures { IfOk result (λ cells. cells ≡ flat_map (cut_of visible.now) region.now) }
{
    let mut cells = List::new(alloc);
    for m in region.as_slice() {
        add_cut(&mut cells, visible, m)?;
    }
    Ok(cells)
}

fn leaf(alloc: Global, member: u32, kind: u64) -> Result<List<Leaf>, Memory>
    ensures { IfOk result (λ leaves. leaves ≡ record { member = member; kind = kind } ∷ []) }
{
    let mut leaves = List::new(alloc);
    leaves.push(Leaf { member, kind })?;
    Ok(leaves)
}

impl LeafTable {
    /// Whether some port of the virtual switch is hidden from the member.
    fn hides(&self, ports: &List<u16>) -> bool
        ensures { result ≡ hides_of ports.now self.now }
    {
        ports
            .as_slice()
            .iter()
            .any(|port| !has_port(&self.visible, *port))
    }

    /// Where the member acts: its region, cut by the visible ports where a port is hidden.
    fn cells(&self, alloc: Global, ports: &List<u16>) -> Result<List<Match>, Memory>
        ensures { IfOk result (λ cells. cells ≡ cells_of ports.now self.now) }
    {
        if self.hides(ports) {
            all_cut(alloc, &self.visible, &self.region)
        } else {
            List::from_slice(alloc, self.region.as_slice())
        }
    }

    /// Whether a box of the region holds every header.
    fn is_open_everywhere(&self) -> bool
        ensures { result ≡ list_any is_everything_of self.now.region }
    {
        self.region.as_slice().iter().any(|m| is_everything(m))
    }

    /// Whether something is outside of what the member may act on.
    fn has_outside(&self, ports: &List<u16>) -> bool
        ensures { result ≡ has_outside_of ports.now self.now }
    {
        !self.is_open_everywhere() || self.hides(ports)
    }

    fn outside_rule(&self, alloc: Global) -> Result<Rule, Memory>
        ensures { IfOk result (λ rule. rule ≡ outside_rule_of self.now) }
    {
        Ok(Rule {
            m: Match::everything(),
            level: 0,
            touched: false,
            outs: List::new(alloc),
            tail: Tail::Nothing,
            ancestry: leaf(alloc, self.member, 0)?,
        })
    }

    fn miss_rule(&self, alloc: Global) -> Result<Rule, Memory>
        ensures { IfOk result (λ rule. rule ≡ miss_rule_of self.now) }
    {
        Ok(Rule {
            m: Match::everything(),
            level: 1,
            touched: false,
            outs: self.miss_outs(alloc)?,
            tail: Tail::Nothing,
            ancestry: leaf(alloc, self.member, 1)?,
        })
    }

    fn entry_rule(&self, alloc: Global, entry: &LeafEntry) -> Result<Rule, Memory>
        requires { 2 + entry.now.serial < 2 ^ 64 }
        ensures { IfOk result (λ rule. rule ≡ entry_rule_of self.now entry.now) }
    {
        Ok(Rule {
            m: entry.m,
            level: entry.level,
            touched: true,
            outs: entry.effects.outs.copy()?,
            tail: entry.effects.tail.copy()?,
            ancestry: leaf(alloc, self.member, 2 + entry.serial)?,
        })
    }

    /// Appends the rules of the entries in these cells.
    fn add_entries(
        &self,
        alloc: Global,
        rules: &mut List<Rule>,
        cells: &List<Match>,
    ) -> Result<(), Memory>
        requires { SerialsFit self.now }
        ensures { OnOk result
            (rules.new ≡ rules.old ++ flat_map (in_cells cells.now) (map (entry_rule_of self.now) self.now.entries)) }
    {
        for entry in self.entries.as_slice() {
            let rule = self.entry_rule(alloc, entry)?;
            add_in_cells(rules, cells, &rule)?;
        }
        Ok(())
    }

    /// The rules of the table at a virtual switch of these ports, in no order that counts.
    pub fn rules(&self, alloc: Global, ports: &List<u16>) -> Result<List<Rule>, Memory>
        requires { SerialsFit self.now }
        ensures { IfOk result (λ rules. rules ≡ leaf_rules_of ports.now self.now) }
    {
        let mut rules = List::new(alloc);
        if self.has_outside(ports) {
            rules.push(self.outside_rule(alloc)?)?;
        }
        let cells = self.cells(alloc, ports)?;
        add_in_cells(&mut rules, &cells, &self.miss_rule(alloc)?)?;
        self.add_entries(alloc, &mut rules, &cells)?;
        Ok(rules)
    }
}
