//! Entries of a switch in memory.
ghost use Rattle.std.specs.Prelude.{◌≡◌, IfOk};
ghost use Rattle.std.specs.List.{list_any};
ghost use Rattle.switch_meaning.specs.MayUse.{rank_of};
ghost use Rattle.soft_net.specs.Entries.{asks_removal as asks_removal_of, entry_of, is_output_to as is_output_to_of};
ghost use Rattle.soft_net.specs.Entries.{item_of, key_of, outputs_to as outputs_to_of};

use cv_io::{List, Memory};
use match_index::Item;
use of10_actions::{Action, port};
use of10_match::{Match, rank, read};
use of10_msgs::number::SEND_FLOW_REM;
use of10_msgs::{FlowMod, MATCH};
use switch_meaning::FlowEntry;

/// What tells the entries of one switch apart: no two have equal matches and equal priorities.
#[derive(Clone, Copy, PartialEq, Eq, Hash, Debug)]
pub struct Key {
    pub m: Match,
    pub priority: u16,
}

/// An entry of a switch, with its counts.
#[derive(PartialEq, Eq, Debug, Drop)]
pub struct SoftEntry {
    /// Its number, which rises with each entry that the switch is given.
    pub serial: u64,
    /// The match as it was written.
    pub raw: [u8; MATCH],
    pub flow: FlowEntry,
    pub cookie: u64,
    pub flags: u16,
    /// How many packets it handled, and how many bytes these had.
    pub packets: u64,
    pub bytes: u64,
}

impl SoftEntry {
    /// The entry that a FLOW_MOD describes, with zero counts.
    pub(crate) fn of(serial: u64, m: &FlowMod) -> Result<SoftEntry, Memory>
        ensures { IfOk result (λ entry. entry ≡ entry_of serial m.now) }
    {
        Ok(SoftEntry {
            serial,
            raw: m.m,
            flow: FlowEntry {
                m: read(&m.m).normal,
                priority: m.priority,
                actions: m.actions.copied()?,
            },
            cookie: m.cookie,
            flags: m.flags,
            packets: 0,
            bytes: 0,
        })
    }

    pub(crate) fn key(&self) -> Key
        ensures { result ≡ key_of self.now }
    {
        Key {
            m: self.flow.m,
            priority: self.flow.priority,
        }
    }

    /// Its match and rank, as they are looked up.
    pub(crate) fn item(&self) -> Item
        ensures { result ≡ item_of self.now }
    {
        Item {
            id: self.serial,
            rank: rank(self.flow.m.is_one_header(), self.flow.priority),
            normal: self.flow.m,
        }
    }

    /// Whether it has an OUTPUT to the port; `port::NONE` asks for none.
    pub(crate) fn outputs_to(&self, port: u16) -> bool
        ensures { result ≡ outputs_to_of port self.now }
    {
        port == port::NONE || has_output(self.flow.actions.as_slice(), port)
    }

    /// Whether a FLOW_REMOVED is to tell that it went.
    pub(crate) fn asks_removal(&self) -> bool
        ensures { result ≡ asks_removal_of self.now }
    {
        self.flags & SEND_FLOW_REM != 0
    }
}

/// Whether an action is an OUTPUT to this number, as it is written.
#[tactic(auto, unfolding(crate::specs::Entries::is_output_to))]
fn is_output_to(action: &Action, port: u16) -> bool
    ensures { result ≡ is_output_to_of port action.now }
{
    match action {
        Action::Output { port: to, .. } => *to == port,
        _ => false,
    }
}

/// Whether an action of these is an OUTPUT to this number.
fn has_output(actions: &[Action], port: u16) -> bool
    ensures { result ≡ list_any (is_output_to_of port) actions.now }
{
    actions.iter().any(|action| is_output_to(action, port))
}
