//! Why a message of a member isn't well formed.
ghost use Rattle.std.specs.Prelude.{Err};
ghost use Rattle.member_state.specs.Denials.{IsFaultOf};
ghost use Rattle.machine_meaning.specs.Denials.{actions_row, form as form_of, form_row, statistics_row};

use grants::{Denial, Detail};
use member_state::FlowFault;
use of10_actions::ActionFault;
use of10_msgs::FormFault;
use of10_stats::StatsFault;

/// The denial of a message by its form: the ERROR's type and code.
fn form(kind: u16, code: u16) -> FlowFault
    ensures { IsFaultOf (form_of kind code) result }
{
    FlowFault::Denied(Denial::of(Detail::Form { kind, code }))
}

/// The fault of a list of actions.
fn actions_fault(fault: ActionFault) -> FlowFault
    ensures { IsFaultOf (actions_row fault) result }
{
    match fault {
        ActionFault::BadType { .. } => form(2, 0),
        ActionFault::BadLen { .. } => form(2, 1),
        ActionFault::BadArgument { .. } => form(2, 5),
        ActionFault::BadVendor { .. } => form(2, 2),
        ActionFault::Memory => FlowFault::Memory,
    }
}

/// The fault of a frame.
pub fn form_fault(fault: FormFault) -> FlowFault
    ensures { IsFaultOf (form_row fault) result }
{
    match fault {
        FormFault::BadVersion { .. } => form(1, 0),
        FormFault::BadType { .. } => form(1, 1),
        FormFault::BadLen { .. } => form(1, 6),
        FormFault::Action { fault } => actions_fault(fault),
        FormFault::BadVendor => form(1, 3),
        FormFault::Memory => FlowFault::Memory,
    }
}

/// The fault of a request for statistics.
pub fn statistics_fault(fault: StatsFault) -> FlowFault
    ensures { IsFaultOf (statistics_row (Err fault)) result }
{
    match fault {
        StatsFault::BadStat { .. } => form(1, 2),
        StatsFault::BadLen { .. } => form(1, 6),
        StatsFault::Memory => FlowFault::Memory,
    }
}
