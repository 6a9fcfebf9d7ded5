//! Worked examples, each computed by the checker.
ghost use Rattle.switch_state.specs.Worked.{ABatchIsSent, ASwitchIsInstalled, EmptyPhasesAreLeftOut};
ghost use Rattle.switch_state.specs.Worked.{BarriersAreAnswered, MessagesAreSpelled};
ghost use Rattle.switch_state.specs.Worked.{PortsAreSeen, RemovalsAreJudged, XidsBeginAgain};

/// A switch comes up: five messages, byte for byte.
#[tactic(auto, using(crate::specs::Worked::switch_is_installed))]
pub fn worked_installation()
    ensures { ASwitchIsInstalled }
{}

/// Two entries go and one comes.
pub fn worked_batches()
    ensures sent { ABatchIsSent }
    ensures empty { EmptyPhasesAreLeftOut }
    ensures xids { XidsBeginAgain }
{}

/// A poll, a packet and an echo, byte for byte.
#[tactic(auto, using(crate::specs::Worked::messages_are_spelled))]
pub fn worked_messages()
    ensures { MessagesAreSpelled }
{}

/// Removals, answers to barriers and states of ports.
pub fn worked_reports()
    ensures removals { RemovalsAreJudged }
    ensures barriers { BarriersAreAnswered }
    ensures ports { PortsAreSeen }
{}
