//! Each function's contract is a law.
ghost use Rattle.policy_setting.specs.OfPolicies.{PoliciesAgree, PoliciesAreReady};
ghost use Rattle.policy_setting.specs.Premises.{SettingsAreSound, TopologiesAreSound};

/// Of a plan without fault, whose paths can be made, the wiring and the virtual switches are as agreement
/// asks, whatever its members' tables hold.
pub fn topologies_are_sound()
    ensures { TopologiesAreSound }
{}

/// What agreement asks of a setting is that of its topology, of its members' tables, of hops and of levels.
pub fn settings_are_sound()
    ensures { SettingsAreSound }
{}

/// A policy's setting has all that agreement asks beside its members' entries: where ports lie and how they
/// are joined, hops, and levels that suffice.
pub fn policies_are_ready()
    ensures { PoliciesAreReady }
{
    topologies_are_sound();
}

/// Switches that have the entries of a policy with sound tables do with each packet what the policy says.
pub fn policies_agree()
    ensures { PoliciesAgree }
{
    policies_are_ready();
    settings_are_sound();
    agreement::laws::agreement();
}
