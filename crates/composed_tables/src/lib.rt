//! The composed part of the machine, kept under changes of members' rules: a compiled expression for each
//! virtual switch, the rules of its ports through hops, and for each switch the gate and the table of the
//! entries that are put there. A change of a member's rules goes through them as what went and what came,
//! and ends as one batch for each switch.
#![tactic(auto)]

pub mod composed;
pub mod laws;
pub mod part;
pub mod placing;
pub mod rules;

pub use composed::Composed;
pub use rules::Rules;
pub use switch_tables::SwitchBatch;
