//! The lines that an event leaves in the audit.
ghost use Rattle.std.specs.Prelude.{◌≡◌, ◌==◌, ◌++◌, ◌<◌, ◌^◌, IfOk, OnOk, filter, flat_map, length, map};
ghost use Rattle.std.specs.List.{enumerate_from};
ghost use Rattle.member_replies.specs.Audit.{down_line as down_line_of, slow_line as slow_line_of};
ghost use Rattle.event_ends.specs.Boxes.{down_lines_at, told_lines};
ghost use Rattle.machine_meaning.specs.Putting.{slow_lines};
ghost use Rattle.machine_meaning.specs.declared.said.Down.{Down as DownOf};

use cv_io::{Bytes, List, Memory, Text};
use machine_drafts::setup::Setup;
use machine_meaning::Down;
use member_replies::{down_line, slow_line};
use outbox::Letters;
use policies::MemberItem;
use std::alloc::Global;
use virtual_topology::SwitchItem;

/// What the audit is told, in the order of its lines.
#[derive(Drop)]
pub struct ToAudit {
    pub policies: List<Bytes>,
    pub denials: List<Bytes>,
    pub downs: List<Down>,
    pub slows: List<u32>,
    pub notes: List<Bytes>,
}

/// Appends lines.
fn push_all(lines: &mut Letters, more: List<Bytes>) -> Result<(), Memory>
    ensures { OnOk result (lines.new ≡ lines.old ++ more) }
{
    for line in more.into_vec() {
        lines.push(line)?;
    }
    Ok(())
}

/// Appends the lines of the rounds of the switch of a number and a name that ended.
fn push_downs_of(
    alloc: Global,
    lines: &mut Letters,
    n: u32,
    name: &Text,
    downs: &[Down],
) -> Result<(), Memory>
    ensures { OnOk result (lines.new ≡ lines.old
        ++ map (λ (x : DownOf). down_line_of name.now x.cause) (filter (λ (x : DownOf). x.switch == n) downs.now)) }
{
    for down in downs {
        if down.switch == n {
            lines.push(down_line(alloc, name, down.cause)?)?;
        }
    }
    Ok(())
}

/// Appends the lines of the rounds of switches that ended, in the order of the file.
fn push_downs(
    alloc: Global,
    lines: &mut Letters,
    switches: &[SwitchItem],
    downs: &[Down],
) -> Result<(), Memory>
    requires { length switches.now < 2 ^ 32 }
    ensures { OnOk result (lines.new ≡ lines.old
        ++ flat_map (down_lines_at downs.now) (enumerate_from 0 switches.now)) }
{
    for (n, switch) in switches.iter().enumerate() {
        push_downs_of(alloc, lines, n as u32, &switch.name, downs)?;
    }
    Ok(())
}

/// Appends the lines of the member of a number, if it is closed as slow.
fn push_slows_of(
    alloc: Global,
    lines: &mut Letters,
    n: u32,
    member: &MemberItem,
    slows: &[u32],
) -> Result<(), Memory>
    ensures { OnOk result (lines.new ≡ lines.old ++ slow_lines slows.now (n, member.now)) }
{
    for slow in slows {
        if *slow == n {
            lines.push(slow_line(alloc, &member.controller, &member.vsw)?)?;
        }
    }
    Ok(())
}

/// Appends the lines of members that are closed as slow, in the order of the file.
fn push_slows(
    alloc: Global,
    lines: &mut Letters,
    members: &[MemberItem],
    slows: &[u32],
) -> Result<(), Memory>
    requires { length members.now < 2 ^ 32 }
    ensures { OnOk result (lines.new ≡ lines.old
        ++ flat_map (slow_lines slows.now) (enumerate_from 0 members.now)) }
{
    for (n, member) in members.iter().enumerate() {
        push_slows_of(alloc, lines, n as u32, member, slows)?;
    }
    Ok(())
}

/// The lines that the audit is put.
pub fn lines(setup: &Setup, said: ToAudit) -> Result<Letters, Memory>
    ensures { IfOk result (λ lines. lines ≡ told_lines setup.now said) }
{
    let alloc = setup.alloc();
    let mut lines = Letters::new(alloc);
    push_all(&mut lines, said.policies)?;
    push_all(&mut lines, said.denials)?;
    let switches = setup.topology().plan().switches.as_slice();
    push_downs(alloc, &mut lines, switches, said.downs.as_slice())?;
    push_slows(alloc, &mut lines, setup.members(), said.slows.as_slice())?;
    push_all(&mut lines, said.notes)?;
    Ok(lines)
}
