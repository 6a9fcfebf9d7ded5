//! Names by number.
ghost use Rattle.std.specs.Prelude.{◌≡◌, ◌++◌, OnOk};
ghost use Rattle.explain_text.specs.Lines.{controller_name, switch_name, virtual_name};

use cv_io::{Memory, Text};
use policies::Policy;

/// Appends the name of a physical switch.
pub(crate) fn say_switch(line: &mut Text, policy: &Policy, number: u32) -> Result<(), Memory>
    ensures { OnOk result (line.new ≡ line.old ++ switch_name policy.now number) }
{
    match policy.switches.get(number as usize) {
        Some(switch) => line.push_text(&switch.name),
        None => Ok(()),
    }
}

/// Appends the name of a virtual switch.
pub(crate) fn say_virtual(line: &mut Text, policy: &Policy, number: u32) -> Result<(), Memory>
    ensures { OnOk result (line.new ≡ line.old ++ virtual_name policy.now number) }
{
    match policy.virtuals.get(number as usize) {
        Some(item) => line.push_text(&item.name),
        None => Ok(()),
    }
}

/// Appends the name of a member's controller.
pub(crate) fn say_controller(line: &mut Text, policy: &Policy, number: u32) -> Result<(), Memory>
    ensures { OnOk result (line.new ≡ line.old ++ controller_name policy.now number) }
{
    match policy.members.get(number as usize) {
        Some(member) => line.push_text(&member.controller),
        None => Ok(()),
    }
}
