//! What holds of the places of a policy. Each function's contract is a law.
ghost use Rattle.policy_serving.specs.Laws.{PlacesAreCounted, PlacesAreFew, PlacesAreServed};

use crate::promises::opened_knows;

/// A machine that was opened knows whoever can come up at a place of its policy.
pub fn places_are_served()
    ensures { PlacesAreServed }
{
    opened_knows();
}

/// There is a place for each member and for each switch.
pub fn places_are_counted()
    ensures { PlacesAreCounted }
{}

/// Two works for each place, and one more, can be counted in 32 bits.
pub fn places_are_few()
    ensures { PlacesAreFew }
{}
