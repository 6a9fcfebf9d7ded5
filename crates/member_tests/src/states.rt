//! The levels of a member's ranks.
ghost use Rattle.std.specs.Prelude.{IfOk};
ghost use Rattle.of10_actions.specs.Actions.{AreInRange};
ghost use Rattle.of10_actions.specs.Ports.{AreRising};

use cv_io::{Duplicate, List};
use grants::Grant;
use member_state::{FlowFault, MemberState};
use of10_actions::{Action, PortView};
use of10_match::Match;
use of10_msgs::FlowMod;
use std::alloc::{AllocGlobal, Global};
use std::process::Abort;
use std::test::Fail;

const ADD: u16 = 0;

const DELETE_STRICT: u16 = 4;

/// Four ports.
fn ports(alloc: Global) -> Result<PortView, Fail> {
    Ok(PortView {
        v: 0,
        outside: List::from_slice(alloc, &[1, 2, 3, 4])?,
        links: List::new(alloc),
    })
}

/// All fields and actions at these ports, everywhere.
fn grant(alloc: Global) -> Result<Grant, Fail> {
    Ok(Grant {
        fields: 0xfff,
        src_max: 32,
        dst_max: 32,
        actions: 0x7ff,
        ports: ports(alloc)?,
        regions: List::from_slice(alloc, &[Match::everything()])?,
        misses: true,
        packet_out: false,
    })
}

/// A message on packets from port 1, at a priority, to port 2.
fn message(alloc: Global, command: u16, priority: u16) -> Result<FlowMod, Fail>
    ensures { IfOk result (λ m. AreInRange m.actions) }
{
    let to = Action::Output {
        port: 2,
        max_len: 0,
    };
    Ok(FlowMod {
        m: Match::at_port(1).write(),
        cookie: 0,
        command,
        idle_timeout: 0,
        hard_timeout: 30,
        priority,
        buffer_id: 0xffff_ffff,
        out_port: 0xffff,
        flags: 1,
        actions: List::from_slice(alloc, &[to])?,
    })
}

/// Judges a message and makes what it plans.
fn apply(x: &mut MemberState, g: &Grant, m: &FlowMod) -> Result<(), FlowFault>
    requires { AreInRange m.now.actions }
{
    let planned = x.judge(g, &g.ports, m, 100)?;
    x.commit(planned, 100);
    Ok(())
}

/// Adds the rank and the level of an entry to a text.
fn add_word(alloc: Global, text: &mut String, rank: u32, level: u64) -> Result<(), Fail> {
    let word = format!(in alloc; " {rank}:{level}")?;
    Ok(text.push_str(word.as_str())?)
}

/// The ranks and levels of the entries.
fn shown(alloc: Global, x: &MemberState, g: &Grant) -> Result<String, Fail> {
    let mut text = String::new(alloc);
    if !g.ports.is_rising() {
        return Ok(text);
    }
    let leaf = x.leaf_table(0, g)?;
    for entry in leaf.entries.as_slice() {
        add_word(alloc, &mut text, entry.rank, entry.level)?;
    }
    drop(leaf);
    Ok(text)
}

/// Each message, what it is answered, and the ranks and levels after it.
const ROWS: &[(u16, u16, &str)] = &[
    (ADD, 10, " 10:4"),
    (ADD, 20, " 10:4 20:6"),
    (ADD, 30, " 10:4 20:6 30:7"),
    (ADD, 40, " 10:2 20:3 30:5 40:6"),
    (ADD, 50, " 10:2 20:3 30:5 40:6 50:7"),
    (ADD, 60, " 10:2 20:3 30:4 40:5 50:6 60:7"),
    (ADD, 70, "rule=budget ranks=6 limit=6"),
    (DELETE_STRICT, 30, " 10:2 20:3 40:5 50:6 60:7"),
    (ADD, 70, " 10:2 20:3 40:4 50:5 60:6 70:7"),
];

fn answered(
    alloc: Global,
    x: &mut MemberState,
    g: &Grant,
    command: u16,
    priority: u16,
) -> Result<String, Fail> {
    let m = message(alloc, command, priority)?;
    match apply(x, g, &m) {
        Ok(()) => shown(alloc, x, g),
        Err(fault) => Ok(format!(in alloc; "{fault}")?),
    }
}

/// Compares what each message is answered with what is wanted.
fn compare(rt: &(impl Abort + AllocGlobal), x: &mut MemberState, g: &Grant) -> Result<(), Fail> {
    for (command, priority, want) in ROWS {
        assert_eq!(rt;
            answered(rt.alloc(), x, g, *command, *priority)?.as_str(),
            *want,
            "{priority}"
        );
    }
    Ok(())
}

#[test]
fn six_ranks_fit_and_a_seventh_is_refused(rt: HostRuntime) -> Result<(), Fail> {
    let g = grant(rt.alloc())?;
    let mut x = MemberState::new(rt.alloc(), 3, 8);
    let compared = compare(&rt, &mut x, &g);
    drop(x);
    drop(g);
    compared
}
