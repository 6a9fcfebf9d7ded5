//! Which outside ports are dark.
ghost use Rattle.std.specs.Prelude.{◌≡◌, ◌<◌, IfOk, length};
ghost use Rattle.machine_drafts.specs.InsideSwitches.{dark_ports_among};
ghost use Rattle.machine_drafts.specs.Outcomes.{switches_in};

use cv_io::{List, Memory};
use machine_drafts::looking::dark_among;
use machine_drafts::setup::Setup;
use machine_drafts::switch_draft::SwitchDraft;

/// The dark outside ports of a virtual switch.
pub fn dark_ports(setup: &Setup, switches: &[SwitchDraft<'_>], v: u32) -> Result<List<u16>, Memory>
    requires { v < length setup.now.virtuals }
    ensures { IfOk result (λ dark. dark ≡ dark_ports_among setup.now (switches_in switches.now) v) }
{
    let alloc = setup.alloc();
    match setup.all_ports(v) {
        Some(ports) => dark_among(
            alloc,
            setup.topology(),
            switches,
            v,
            ports.outside.as_slice(),
        ),
        None => unreachable!(),
    }
}
