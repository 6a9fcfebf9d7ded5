//! Worked examples, each computed by the checker.
ghost use Rattle.explain_text.specs.Worked.{APacketOverLinks, ASwitchedPacket, ATelling, PlacesAreFound};

/// What is said of packets, line by line.
pub fn worked_answers()
    ensures switched { ASwitchedPacket }
    ensures told { ATelling }
    ensures linked { APacketOverLinks }
{}

/// Where packets come in.
pub fn worked_places()
    ensures { PlacesAreFound }
{}
