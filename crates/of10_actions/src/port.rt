//! The port numbers that stand for no port of a switch (`ofp_port`, section 5.2.1), and the ports that
//! a member sees.
ghost use Rattle.std.specs.Prelude.{◌↔◌, IsTrue};
ghost use Rattle.std.specs.List.Sorted.{IsStrictlyIncreasing};
ghost use Rattle.of10_actions.specs.Ports.{AreRising};

use crate::effects::PortView;

/// The numbers of ports are below this.
pub const MAX: u16 = 0xff00;
/// The port by which the packet came.
pub const IN_PORT: u16 = 0xfff8;
/// The flow table, in a PACKET_OUT.
pub const TABLE: u16 = 0xfff9;
/// The rest of the policy.
pub const NORMAL: u16 = 0xfffa;
/// Each port but the one by which the packet came.
pub const FLOOD: u16 = 0xfffb;
/// The same.
pub const ALL: u16 = 0xfffc;
/// The controller.
pub const CONTROLLER: u16 = 0xfffd;
/// The switch itself.
pub const LOCAL: u16 = 0xfffe;
/// No port.
pub const NONE: u16 = 0xffff;

impl PortView {
    /// Whether both lists rise.
    pub fn is_rising(&self) -> bool
        ensures { IsTrue result ↔ AreRising self.now }
    {
        rise(self.outside.as_slice()) && rise(self.links.as_slice())
    }
}

/// Whether each number is above the one before it.
fn rise(ports: &[u16]) -> bool
    ensures { IsTrue result ↔ IsStrictlyIncreasing ports.now }
{
    for i in 1..ports.len() {
        if ports[i - 1] >= ports[i] {
            return false;
        }
    }
    true
}
