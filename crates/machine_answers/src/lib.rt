//! How the machine answers sessions. Each function's contract is a law.
#![tactic(auto)]

ghost use Rattle.machine_answers.specs.Answers.{GoingsAreHeard, MessagesAreHeard, OpeningHasSessions, SecondsAreDone};
ghost use Rattle.machine_answers.specs.AuditLines.{AuditIsWhole};
ghost use Rattle.machine_answers.specs.Answers.{MomentsGoOn, SecondsAreTold, SessionsOpen, SessionsStay};
ghost use Rattle.machine_answers.specs.Answers.{TakingsAreAnswered};

/// As the machine is opened it has the members and the switches of the policy.
pub fn opening_has_sessions()
    ensures { OpeningHasSessions }
{}

/// It has them after any step.
pub fn sessions_stay()
    ensures { SessionsStay }
{}

/// A member or a switch that it has comes up, in some round.
pub fn sessions_open()
    ensures { SessionsOpen }
{}

/// A frame is done; or it is refused, and then the session has ended.
pub fn messages_are_heard()
    ensures { MessagesAreHeard }
{}

/// So is a going.
pub fn goings_are_heard()
    ensures { GoingsAreHeard }
{}

/// A second that changes anything is done.
pub fn seconds_are_done()
    ensures { SecondsAreDone }
{}

/// One that changes nothing was told before, or a later one was; and one that changes anything is told then.
pub fn seconds_are_told()
    ensures { SecondsAreTold }
{}

/// The moment goes on.
pub fn moments_go_on()
    ensures { MomentsGoOn }
{}

/// A taking finds a message; or nothing waits; or the session has ended.
pub fn takings_are_answered()
    ensures { TakingsAreAnswered }
{}

/// Each line that events put to the audit is taken from it, in its turn and once, or waits.
pub fn audit_is_whole()
    ensures { AuditIsWhole }
{}
