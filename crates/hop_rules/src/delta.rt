//! Changes of the rules of a port.
use cv_io::List;
use policy_meaning::Rule;

/// What changed of the rules of an outside port of a virtual switch; or, with port 0, of the rules of a
/// virtual switch that is all of its physical switch.
#[derive(PartialEq, Eq, Debug, Drop)]
pub struct PortDelta {
    pub v: u32,
    pub port: u16,
    /// The rules that are there no longer.
    pub gone: List<Rule>,
    /// The rules that weren't there before.
    pub come: List<Rule>,
}
