//! Who is to be answered, and what is waited for.
ghost use Rattle.std.specs.Prelude.{◌≡◌};
ghost use Rattle.std.specs.List.{list_any};
ghost use Rattle.waitings.specs.Waitings.{asker_of, decides_on as decides_on_of, has_part_of as has_part_of_of};
ghost use Rattle.waitings.specs.Waitings.{is_asked_by as is_asked_by_of, is_done as is_done_of};
ghost use Rattle.waitings.specs.Waitings.{is_of_barriers as is_of_barriers_of, is_of_flows as is_of_flows_of};
ghost use Rattle.waitings.specs.Waitings.{is_of_ports as is_of_ports_of, is_on as is_on_of};
ghost use Rattle.waitings.specs.Waitings.{unwritten as unwritten_of, waits_for as waits_for_of};
ghost use Rattle.waitings.specs.Waitings.{waits_for_barrier as waits_for_barrier_of};
ghost use Rattle.waitings.specs.Waitings.{waits_for_flows as waits_for_flows_of};
ghost use Rattle.waitings.specs.Waitings.{waits_for_ports as waits_for_ports_of};

use crate::state::{Asker, Doubt, Part, Purpose, Waiting};

impl Part {
    /// The answer of a switch to a request that has no xid yet.
    pub fn unwritten(switch: u32) -> Part
        ensures { result ≡ unwritten_of switch }
    {
        Part { switch, number: 0 }
    }
}

impl Doubt {
    /// The doubt is on this entry of this member.
    pub(crate) fn is_on(&self, member: u32, serial: u64) -> bool
        ensures { result ≡ is_on_of member serial self.now }
    {
        self.member == member && self.serial == serial
    }
}

impl Purpose {
    /// Who is to be answered.
    pub fn asker(&self) -> Option<Asker>
        ensures { result ≡ asker_of self.now }
    {
        match self {
            Purpose::Flow { asker, .. } => Some(*asker),
            Purpose::Aggregate { asker, .. } => Some(*asker),
            Purpose::Port { asker, .. } => Some(*asker),
            Purpose::Idle { .. } => None,
            Purpose::Barrier { asker } => Some(*asker),
        }
    }

    /// Numbers of entries are waited for.
    pub fn is_of_flows(&self) -> bool
        ensures { result ≡ is_of_flows_of self.now }
    {
        match self {
            Purpose::Flow { .. } => true,
            Purpose::Aggregate { .. } => true,
            Purpose::Port { .. } => false,
            Purpose::Idle { .. } => true,
            Purpose::Barrier { .. } => false,
        }
    }

    /// Numbers of ports are waited for.
    pub fn is_of_ports(&self) -> bool
        ensures { result ≡ is_of_ports_of self.now }
    {
        match self {
            Purpose::Flow { .. } => false,
            Purpose::Aggregate { .. } => false,
            Purpose::Port { .. } => true,
            Purpose::Idle { .. } => false,
            Purpose::Barrier { .. } => false,
        }
    }

    /// Barriers are waited for.
    pub fn is_of_barriers(&self) -> bool
        ensures { result ≡ is_of_barriers_of self.now }
    {
        match self {
            Purpose::Flow { .. } => false,
            Purpose::Aggregate { .. } => false,
            Purpose::Port { .. } => false,
            Purpose::Idle { .. } => false,
            Purpose::Barrier { .. } => true,
        }
    }
}

impl Waiting {
    /// Nothing is waited for any more.
    pub fn is_done(&self) -> bool
        ensures { result ≡ is_done_of self.now }
    {
        self.parts.is_empty()
    }

    /// This member is to be answered.
    pub fn is_asked_by(&self, member: u32) -> bool
        ensures { result ≡ is_asked_by_of member self.now }
    {
        match self.purpose.asker() {
            Some(asker) => asker.member == member,
            None => false,
        }
    }

    /// The poll decides on this entry of this member.
    pub(crate) fn decides_on(&self, member: u32, serial: u64) -> bool
        ensures { result ≡ decides_on_of member serial self.now }
    {
        match &self.purpose {
            Purpose::Idle { doubts } => any_on(doubts.as_slice(), member, serial),
            _ => false,
        }
    }

    /// This part is waited for.
    pub(crate) fn waits_for(&self, switch: u32, number: u64) -> bool
        ensures { result ≡ waits_for_of switch number self.now }
    {
        self.parts.has(switch, number)
    }

    /// A part of this switch is waited for.
    pub(crate) fn has_part_of(&self, switch: u32) -> bool
        ensures { result ≡ has_part_of_of switch self.now }
    {
        self.parts.has_of(switch)
    }

    /// A poll of entries waits for this part.
    pub(crate) fn waits_for_flows(&self, switch: u32, xid: u32) -> bool
        ensures { result ≡ waits_for_flows_of switch xid self.now }
    {
        self.purpose.is_of_flows() && self.waits_for(switch, u64::from(xid))
    }

    /// A poll of ports waits for this part.
    pub(crate) fn waits_for_ports(&self, switch: u32, xid: u32) -> bool
        ensures { result ≡ waits_for_ports_of switch xid self.now }
    {
        self.purpose.is_of_ports() && self.waits_for(switch, u64::from(xid))
    }

    /// A member's barrier waits for this one.
    pub(crate) fn waits_for_barrier(&self, switch: u32, number: u64) -> bool
        ensures { result ≡ waits_for_barrier_of switch number self.now }
    {
        self.purpose.is_of_barriers() && self.waits_for(switch, number)
    }
}

/// One of the doubts is on this entry of this member.
fn any_on(doubts: &[Doubt], member: u32, serial: u64) -> bool
    ensures { result ≡ list_any (is_on_of member serial) doubts.now }
{
    doubts.iter().any(|doubt| doubt.is_on(member, serial))
}

/// One of them is to be answered to this member.
pub(crate) fn any_asked_by(list: &[Waiting], member: u32) -> bool
    ensures { result ≡ list_any (is_asked_by_of member) list.now }
{
    list.iter().any(|waiting| waiting.is_asked_by(member))
}

/// One of them decides on this entry of this member.
pub(crate) fn any_decides_on(list: &[Waiting], member: u32, serial: u64) -> bool
    ensures { result ≡ list_any (decides_on_of member serial) list.now }
{
    list.iter()
        .any(|waiting| waiting.decides_on(member, serial))
}

/// One of them waits for a part of this switch.
pub(crate) fn any_part_of(list: &[Waiting], switch: u32) -> bool
    ensures { result ≡ list_any (has_part_of_of switch) list.now }
{
    list.iter().any(|waiting| waiting.has_part_of(switch))
}

/// One of them is a poll of entries that waits for this part.
pub(crate) fn any_waits_for_flows(list: &[Waiting], switch: u32, xid: u32) -> bool
    ensures { result ≡ list_any (waits_for_flows_of switch xid) list.now }
{
    list.iter()
        .any(|waiting| waiting.waits_for_flows(switch, xid))
}

/// One of them is a poll of ports that waits for this part.
pub(crate) fn any_waits_for_ports(list: &[Waiting], switch: u32, xid: u32) -> bool
    ensures { result ≡ list_any (waits_for_ports_of switch xid) list.now }
{
    list.iter()
        .any(|waiting| waiting.waits_for_ports(switch, xid))
}

/// One of them is a member's barrier that waits for this one.
pub(crate) fn any_waits_for_barrier(list: &[Waiting], switch: u32, number: u64) -> bool
    ensures { result ≡ list_any (waits_for_barrier_of switch number) list.now }
{
    list.iter()
        .any(|waiting| waiting.waits_for_barrier(switch, number))
}
