//! Changes of compiled expressions against their rules from scratch.
ghost use Rattle.std.specs.Prelude.{◌≡◌, ◌<◌};

use crate::draws::{Onward, Placed, drawn, next, to_net};
use crate::folding::{Count, Folded, are, levels, same, told};
use crate::members::{Change, PORTS, SIZE, empty_tables, leaf_of, place};
use cv_io::{List, Memory, Steps};
use fitting_changes::{Composer, Shape};
use incr_compile::LeafDelta;
use of10_actions::{Dest, Rewrite, Tail};
use of10_match::Match;
use op_compose::RuleDelta;
use policy_expr::Expr;
use policy_meaning::{LeafTable, Rule, expression_rules, expression_size, listed, tables_fit};
use std::alloc::Global;
use std::mem;
use std::sync::ledger::{Blank, Ledger};
use std::thread::Threads;

/// Which expression changes, and how often.
#[derive(Clone, Copy)]
pub struct Asked {
    pub shape: Shape,
    pub changes: u32,
    /// Whether the changes are worked ones.
    pub is_worked: bool,
}

/// The rules of an expression from scratch, in their order.
fn rules_of(alloc: Global, tables: &List<LeafTable>, expr: &Expr) -> Result<List<Rule>, Memory> {
    if !tables_fit(tables) || expression_size(tables, expr) == u64::MAX {
        return Err(Memory);
    }
    let ports = List::from_slice(alloc, &PORTS)?;
    let composed = expression_rules(alloc, tables, &ports, expr)?;
    listed(composed.rules)
}

/// The same of a shape.
fn scratch(alloc: Global, shape: Shape, tables: &List<LeafTable>) -> Result<List<Rule>, Memory> {
    let expr = shape.expr(alloc)?;
    let rules = rules_of(alloc, tables, &expr);
    drop(expr);
    rules
}

/// Whether a compiled expression has these rules.
fn has(composer: &Composer, wanted: &List<Rule>) -> Result<bool, Memory> {
    let rules = composer.rules()?;
    Ok(same(rules, wanted))
}

/// Whether its rules, and those that are known by what was told, are those from scratch.
fn is_scratch(
    alloc: Global,
    shape: Shape,
    composer: &Composer,
    tables: &List<LeafTable>,
    seen: &List<Rule>,
) -> Result<bool, Memory> {
    let wanted = scratch(alloc, shape, tables)?;
    let known = are(seen, &wanted);
    let held = has(composer, &wanted);
    drop(wanted);
    Ok(known? && held?)
}

/// A change of a member's rules.
fn delta_of(alloc: Global, placed: &Placed, change: Change) -> Result<LeafDelta, Memory> {
    let Change { goes, comes } = change;
    let mut come = List::new(alloc);
    come.push_some(comes)?;
    let mut gone = List::new(alloc);
    if goes.is_some() {
        gone.push(leaf_of(placed))?;
    }
    Ok(LeafDelta {
        member: placed.member,
        gone,
        come,
    })
}

/// The rules of a member change, if they can.
fn turn<G: Ledger>(
    composer: &mut Composer,
    delta: LeafDelta,
    steps: &mut Steps<G>,
) -> Result<RuleDelta, Memory> {
    if !composer.can_take(&delta) {
        drop(delta);
        return Err(Memory);
    }
    composer.apply(delta, steps)
}

/// A change is made of a copy, which stands in the place of the compiled expression then.
fn turn_copy<G: Ledger>(
    composer: &mut Composer,
    delta: LeafDelta,
    steps: &mut Steps<G>,
) -> Result<RuleDelta, Memory> {
    let copied = composer.copy()?;
    let before = mem::replace(composer, copied);
    let told = turn(composer, delta, steps);
    drop(before);
    told
}

/// Whether the rules are those from scratch after a change.
fn follows<G: Ledger>(
    alloc: Global,
    shape: Shape,
    composer: &mut Composer,
    tables: &mut List<LeafTable>,
    seen: &mut List<Rule>,
    placed: &Placed,
    steps: &mut Steps<G>,
) -> Result<bool, Memory> {
    let change = place(alloc, tables, placed)?;
    let delta = delta_of(alloc, placed, change)?;
    let RuleDelta { gone, come } = turn_copy(composer, delta, steps)?;
    let is_told = told(seen, gone, come)?;
    Ok(is_told && is_scratch(alloc, shape, composer, tables, seen)?)
}

/// What the entries of a member of a shape do with packets.
fn onward(shape: Shape, member: u32) -> Onward {
    match (shape, member) {
        (Shape::Sequential, 0) | (Shape::Mixed, 2) => Onward::Passes,
        _ => Onward::Ends,
    }
}

/// An entry of a router, at the right: to a net, and to a host in it.
fn routed(turn: u32) -> Placed {
    let (m, level) = match turn {
        0 => (to_net(0x0a00_0000, 8), 4),
        _ => (to_net(0x0a00_0007, 32), 6),
    };
    Placed {
        member: 1,
        serial: 1 + u64::from(turn),
        goes: false,
        m,
        level,
        dest: Some(Dest::Port { v: 0, port: 2 }),
        tail: Tail::Nothing,
    }
}

/// The last of the worked changes: an entry at the left, of a monitor of what comes by a port, of a balancer that
/// gives packets an address of the router's net, or of a firewall.
fn guarded(shape: Shape) -> Placed {
    let to_server = Rewrite {
        nw_dst: Some(0x0a00_0009),
        ..Rewrite::new()
    };
    let (m, tail) = match shape {
        Shape::Sequential => (to_net(0x0b00_0007, 32), Tail::Pass(to_server)),
        _ => (Match::at_port(1), Tail::Nothing),
    };
    Placed {
        member: 0,
        serial: 1,
        goes: false,
        m,
        level: 4,
        dest: None,
        tail,
    }
}

impl Asked {
    /// The entry of a turn: the router's, one after the other, and then the left one; or a drawn one.
    fn placed(&self, state: &mut u64, turn: u32) -> Placed {
        if !self.is_worked {
            let member = (next(state) % u64::from(self.shape.members())) as u32;
            return drawn(state, member, onward(self.shape, member));
        }
        if turn.wrapping_add(1) < self.changes {
            routed(turn)
        } else {
            guarded(self.shape)
        }
    }
}

/// Makes the changes, up to the first after which rules differ, and counts the rules that are compared.
fn fold<G: Ledger>(
    alloc: Global,
    asked: &Asked,
    composer: &mut Composer,
    tables: &mut List<LeafTable>,
    seen: &mut List<Rule>,
    steps: &mut Steps<G>,
) -> Result<Count, Memory> {
    let mut state = 19;
    let mut rules = 0_usize;
    for turn in 0..asked.changes {
        let placed = asked.placed(&mut state, turn);
        if !follows(alloc, asked.shape, composer, tables, seen, &placed, steps)? {
            return Ok(Count {
                rules,
                differs: Some(turn),
            });
        }
        rules = rules.wrapping_add(seen.len());
    }
    Ok(Count {
        rules,
        differs: None,
    })
}

/// The same, from members without entries.
fn fold_all<G: Ledger>(
    alloc: Global,
    asked: &Asked,
    composer: &mut Composer,
    steps: &mut Steps<G>,
) -> Result<Count, Memory> {
    let mut seen = composer.rules()?;
    let count = match empty_tables(alloc, asked.shape.members()) {
        Ok(mut tables) => {
            let count = fold(alloc, asked, composer, &mut tables, &mut seen, steps);
            drop(tables);
            count
        }
        Err(wanted) => Err(wanted),
    };
    drop(seen);
    count
}

/// The expression of members without entries.
fn start<R: Threads + Sync, G: Ledger>(
    rt: &R,
    alloc: Global,
    shape: Shape,
    steps: &mut Steps<G>,
) -> Result<Composer, Memory> {
    let ports = List::from_slice(alloc, &PORTS)?;
    let tables = empty_tables(alloc, shape.members())?;
    let made = Composer::build(rt, alloc, shape, SIZE, &tables, &ports, steps);
    drop(tables);
    made?.ok_or(Memory)
}

/// What came of the changes, and the levels of the rules then.
fn counted<G: Ledger>(
    alloc: Global,
    asked: &Asked,
    composer: &mut Composer,
    steps: &mut Steps<G>,
) -> Result<Folded, Memory> {
    let count = fold_all(alloc, asked, composer, steps)?;
    let rules = composer.rules()?;
    let levels = levels(alloc, rules.as_slice());
    drop(rules);
    Ok(Folded {
        count,
        levels: levels?,
    })
}

/// The same of an expression over members without entries.
pub fn folded<R: Threads + Sync, G: Ledger>(
    rt: &R,
    alloc: Global,
    asked: &Asked,
    blank: Blank,
) -> Result<Folded, Memory>
    requires { (blank.name ≡ G.name) × (blank.parts ≡ G.parts) × (0 < blank.parts) }
{
    let mut steps = Steps::<G>::new(blank);
    let mut composer = start(rt, alloc, asked.shape, &mut steps)?;
    let folded = counted(alloc, asked, &mut composer, &mut steps);
    drop(composer);
    folded
}
