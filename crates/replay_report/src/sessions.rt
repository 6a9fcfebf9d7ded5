//! The sessions of a policy by their names, in the order of reports.
ghost use Rattle.std.specs.Prelude.{◌≡◌, ◌<◌, ◌++◌, ◌∷◌, IfOk, IfSome, OnOk, length, map};
ghost use Rattle.std.specs.List.{enumerate_from};
ghost use Rattle.replay_report.specs.Sessions.{found_from, member_name, named_member, named_switch, sessions_of};
ghost use Rattle.replay_report.specs.Sessions.{virtual_from};

use cv_io::{Duplicate, List, Memory, Text, Who};
use policies::{MemberItem, Policy};
use std::alloc::Global;
use virtual_topology::{SwitchItem, VirtualItem};

/// A session of the policy.
#[derive(PartialEq, Eq, Debug, Drop)]
pub struct Named {
    pub name: Text,
    pub who: Who,
}

/// The session of a name: its place in the order of reports, and whose it is.
#[derive(Clone, Copy, PartialEq, Eq, Debug)]
pub struct Found {
    pub at: usize,
    pub who: Who,
}

/// The name of a member's session, `CONTROLLER@VIRTUAL`.
fn member_name(member: &MemberItem) -> Result<Text, Memory>
    ensures { IfOk result (λ name. name ≡ member_name member.now) }
{
    let mut name = member.controller.copy()?;
    name.push(b'@')?;
    name.push_text(&member.vsw)?;
    Ok(name)
}

/// Appends the sessions of members.
fn add_members(names: &mut List<Named>, members: &[MemberItem]) -> Result<(), Memory>
    requires { length members.now < 4294967296 }
    ensures { OnOk result (names.new ≡ names.old ++ map named_member (enumerate_from 0 members.now)) }
{
    for (n, member) in members.iter().enumerate() {
        names.push(Named {
            name: member_name(member)?,
            who: Who::Member(n as u32),
        })?;
    }
    Ok(())
}

/// Appends the sessions of switches.
fn add_switches(names: &mut List<Named>, switches: &[SwitchItem]) -> Result<(), Memory>
    requires { length switches.now < 4294967296 }
    ensures { OnOk result (names.new ≡ names.old ++ map named_switch (enumerate_from 0 switches.now)) }
{
    for (n, switch) in switches.iter().enumerate() {
        names.push(Named {
            name: switch.name.copy()?,
            who: Who::Switch(n as u32),
        })?;
    }
    Ok(())
}

/// The sessions of a policy: members and then switches, each in the order of the file.
pub(crate) fn sessions(alloc: Global, policy: &Policy) -> Result<List<Named>, Memory>
    ensures { IfOk result (λ names. names ≡ sessions_of policy.now) }
{
    policy.is_sound();
    let mut names = List::new(alloc);
    add_members(&mut names, policy.members.as_slice())?;
    add_switches(&mut names, policy.switches.as_slice())?;
    Ok(names)
}

/// The session of a name, if there is one.
pub(crate) fn find(names: &[Named], name: &Text) -> Option<Found>
    ensures found { result ≡ found_from 0 name.now names.now }
    ensures within { IfSome result (λ found. found.at < length names.now) }
{
    for (at, session) in names.iter().enumerate() {
        if session.name == *name {
            return Some(Found {
                at,
                who: session.who,
            });
        }
    }
    None
}

/// The number of the virtual switch of a name, if there is one.
pub(crate) fn find_virtual(virtuals: &[VirtualItem], name: &Text) -> Option<u32>
    requires { length virtuals.now < 4294967296 }
    ensures { result ≡ virtual_from 0 name.now virtuals.now }
{
    for (v, item) in virtuals.iter().enumerate() {
        if item.name == *name {
            return Some(v as u32);
        }
    }
    None
}
