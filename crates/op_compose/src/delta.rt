//! Changes of rules.
use cv_io::List;
use policy_meaning::Rule;

/// The difference between two sets of rules.
#[derive(PartialEq, Eq, Debug, Drop)]
pub struct RuleDelta {
    /// The rules that are there no longer.
    pub gone: List<Rule>,
    /// The rules that weren't there before.
    pub come: List<Rule>,
}
