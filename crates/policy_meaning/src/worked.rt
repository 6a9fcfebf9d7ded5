//! Worked examples, each computed by the checker.
ghost use Rattle.policy_meaning.specs.WorkedRules.{MonitorAndRouter, BalancerBeforeRouter, FirewallOverRouter};
ghost use Rattle.policy_meaning.specs.WorkedRules.{ThreePulls, RulesByPort, RegionMetWithEntry};
ghost use Rattle.policy_meaning.specs.WorkedHops.{SizesOverHops, ThreeHops, FourHops, TwoAreTold};

/// Rules of members and expressions, with their levels.
pub fn worked_rules()
    ensures monitor_and_router { MonitorAndRouter }
    ensures balancer_before_router { BalancerBeforeRouter }
    ensures firewall_over_router { FirewallOverRouter }
    ensures three_pulls { ThreePulls }
    ensures rules_by_port { RulesByPort }
    ensures region_met_with_entry { RegionMetWithEntry }
{}

/// Hops over a switch that is split, and the ways of packets.
pub fn worked_hops()
    ensures sizes_over_hops { SizesOverHops }
    ensures three_hops { ThreeHops }
    ensures four_hops { FourHops }
    ensures two_are_told { TwoAreTold }
{}
