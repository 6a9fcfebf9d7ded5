//! Worked examples, each computed by the checker.
ghost use Rattle.packet_map.specs.Worked.{FloodsAreSent, IngressIsSent, InPortIsTold, TableTakesUp, TwoAreTold};

/// What members send, with a port and without one.
pub fn worked_sending()
    ensures floods { FloodsAreSent }
    ensures ingress { IngressIsSent }
    ensures told { InPortIsTold }
    ensures table { TableTakesUp }
{}

/// Who is told of a packet.
pub fn worked_tellings()
    ensures { TwoAreTold }
{}
