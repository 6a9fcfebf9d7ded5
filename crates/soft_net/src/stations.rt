//! The switches of a net, by their numbers.
ghost use Rattle.std.specs.Prelude.{◌≡◌, IfOk, OnErr, OnOk, option_map};
ghost use Rattle.std.specs.BTreeMap.{is_at};
ghost use Rattle.std.specs.Map.{lookup};
ghost use Rattle.std.specs.Ordering.{nat_cmp};
ghost use Rattle.of10_msgs.specs.Ranges.{IsMessage};
ghost use Rattle.soft_net.specs.Counting.{changed};
ghost use Rattle.soft_net.specs.Nets.{answers_at, counted, heard, numbered, switch_of};

use crate::answer::Answer;
use crate::cabled::NetHit;
use crate::switch::SoftSwitch;
use cv_io::{List, Memory};
use of10_msgs::Message;
use std::alloc::Global;
use std::collections::BTreeMap;

/// The switch of a number does what a message asks for, if it is there.
pub(crate) fn hear_in(
    alloc: Global,
    switches: &mut BTreeMap<u32, SoftSwitch>,
    switch: u32,
    message: &Message,
) -> Result<List<Answer>, Memory>
    requires { IsMessage message.now }
    ensures answers { IfOk result (λ answers. answers
        ≡ answers_at message.now (option_map switch_of (lookup (is_at (nat_cmp switch)) switches.old.entries))) }
    ensures heard { OnOk result (numbered switches.new.entries
        ≡ changed (is_at (nat_cmp switch)) (heard message.now.body) (numbered switches.old.entries)) }
    ensures memory { OnErr result (numbered switches.new.entries ≡ numbered switches.old.entries) }
{
    match switches.get_mut(&switch) {
        Some(at) => at.hear(message),
        None => Ok(List::new(alloc)),
    }
}

/// The switch of a number counts, if it is there.
pub(crate) fn count_in(switches: &mut BTreeMap<u32, SoftSwitch>, hit: NetHit)
    ensures { numbered switches.new.entries
        ≡ changed (is_at (nat_cmp hit.switch)) (counted hit.hit) (numbered switches.old.entries) }
{
    match switches.get_mut(&hit.switch) {
        Some(at) => at.count_one(hit.hit),
        None => {}
    }
}
