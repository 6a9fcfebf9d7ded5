//! Worked examples, computed by the checker.
ghost use Rattle.member_replies.specs.Worked.{APacketIsTold, ARemovalIsTold, AnswersAreGiven, FeaturesAreShown};
ghost use Rattle.member_replies.specs.Worked.{LinesAreTold, RefusalsAreSent};
ghost use Rattle.member_replies.specs.WorkedStatistics.{ASwitchIsDescribed, FlowsAreListed, TotalsAreTold};

/// A virtual switch with its ports, a port that goes dark, and short answers.
#[tactic(auto, using(crate::specs::Worked::features_are_shown, crate::specs::Worked::answers_are_given))]
pub fn switches_are_shown()
    ensures features { FeaturesAreShown }
    ensures answers { AnswersAreGiven }
{}

/// A packet, and an entry that was removed.
#[tactic(auto, using(crate::specs::Worked::a_packet_is_told, crate::specs::Worked::a_removal_is_told))]
pub fn members_are_told()
    ensures packet { APacketIsTold }
    ensures removal { ARemovalIsTold }
{}

/// Refusals, and lines of the audit.
#[tactic(auto, using(crate::specs::Worked::refusals_are_sent, crate::specs::Worked::lines_are_told))]
pub fn denials_are_told()
    ensures refusals { RefusalsAreSent }
    ensures lines { LinesAreTold }
{}

/// Statistics.
#[tactic(auto, using(crate::specs::WorkedStatistics::flows_are_listed, crate::specs::WorkedStatistics::totals_are_told, crate::specs::WorkedStatistics::a_switch_is_described))]
pub fn statistics_are_told()
    ensures flows { FlowsAreListed }
    ensures totals { TotalsAreTold }
    ensures described { ASwitchIsDescribed }
{}
