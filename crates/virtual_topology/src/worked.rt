//! Worked examples, computed by the checker.
ghost use Rattle.virtual_topology.specs.Worked.{FaultsAreNamed, LinksLead, PortsAreFound};

/// A virtual switch over three physical ones, two virtual switches on one, and plans with a fault each.
pub fn worked_examples()
    ensures ports { PortsAreFound }
    ensures links { LinksLead }
    ensures faults { FaultsAreNamed }
{}
