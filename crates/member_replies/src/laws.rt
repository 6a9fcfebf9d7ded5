//! Laws over the definitions, each the contract of a function that does nothing.
ghost use Rattle.std.specs.Prelude.{◌≡◌, ◌≤◌, ◌++◌, Bool, List, IsPermutation, length};
ghost use Rattle.std.specs.List.Sorted.{IsNonDecreasing};
ghost use Rattle.of10_actions.specs.Ports.{AreRising};
ghost use Rattle.of10_actions.specs.declared.action.Action.{Action};
ghost use Rattle.of10_actions.specs.declared.effects.PortView.{PortView};
ghost use Rattle.grants.specs.Granted.{AreGranted};
ghost use Rattle.grants.specs.declared.grant.Grant.{Grant};
ghost use Rattle.member_replies.specs.Ports.{visible};

/// The visible ports are all outside ports and link ports, each as often, and rise where both rise.
pub fn visible_ports_rise()
    ensures same { (view : PortView) → IsPermutation (view.outside ++ view.links) (visible view) }
    ensures rising { (view : PortView) → AreRising view → IsNonDecreasing (visible view) }
{}

/// A list of actions that is granted has at most 64.
pub fn granted_lists_are_short()
    ensures { (in_flow : Bool) (g : Grant) (v : PortView) (list : List Action) → AreGranted in_flow g v list
        → length list ≤ 64 }
{}
