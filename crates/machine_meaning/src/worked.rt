//! Events that are worked out: the functions' contracts are what comes of them.
ghost use Rattle.machine_meaning.specs.WorkedBarriers.{ThreeSwitches, ABarrierWaits};
ghost use Rattle.machine_meaning.specs.WorkedCounts.{AnEntryIsReplaced, TwoCookiesAreCounted};
ghost use Rattle.machine_meaning.specs.WorkedEntries.{ASwitchComesUp, AnEntryIsAdded};
ghost use Rattle.machine_meaning.specs.WorkedPackets.{TwoAreTold, APacketLeaves};
ghost use Rattle.machine_meaning.specs.WorkedRefusals.{AnOverlapIsRefused, AHiddenPortIsRefused};
ghost use Rattle.machine_meaning.specs.WorkedRefusals.{IllFormedFramesAreRefused};
ghost use Rattle.machine_meaning.specs.WorkedReplacing.{AnExpressionIsReplaced, AnExpressionIsRefused};
ghost use Rattle.machine_meaning.specs.WorkedRounds.{RoundsAreAnswered, AnEchoIsTaken, ASlowMemberIsClosed};
ghost use Rattle.machine_meaning.specs.WorkedTimeouts.{AnIdleEntryIsPolled, AnIdleEntryGoes, AUsedEntryGoesLater};

/// A switch comes up.
pub fn a_switch_comes_up()
    ensures { ASwitchComesUp }
{}

/// A member adds an entry.
pub fn an_entry_is_added()
    ensures { AnEntryIsAdded }
{}

/// An entry that overlaps is refused.
pub fn an_overlap_is_refused()
    ensures { AnOverlapIsRefused }
{}

/// An entry for a hidden port is refused.
pub fn a_hidden_port_is_refused()
    ensures { AHiddenPortIsRefused }
{}

/// Frames that aren't well formed are refused.
pub fn ill_formed_frames_are_refused()
    ensures { IllFormedFramesAreRefused }
{}

/// The switches of virtual switches.
pub fn three_switches()
    ensures { ThreeSwitches }
{}

/// A member's barrier waits for three switches.
pub fn a_barrier_waits()
    ensures { ABarrierWaits }
{}

/// An entry gets other actions, and its switch is polled.
pub fn an_entry_is_replaced()
    ensures { AnEntryIsReplaced }
{}

/// An entry counts what both its cookies counted.
pub fn two_cookies_are_counted()
    ensures { TwoCookiesAreCounted }
{}

/// An entry that may have idled is polled.
pub fn an_idle_entry_is_polled()
    ensures { AnIdleEntryIsPolled }
{}

/// An entry that idled goes.
pub fn an_idle_entry_goes()
    ensures { AnIdleEntryGoes }
{}

/// An entry that was used goes at its hard timeout.
pub fn a_used_entry_goes_later()
    ensures { AUsedEntryGoesLater }
{}

/// Rounds begin and end.
pub fn rounds_are_answered()
    ensures { RoundsAreAnswered }
{}

/// An echo is answered, and taken.
pub fn an_echo_is_taken()
    ensures { AnEchoIsTaken }
{}

/// A member that takes its messages too slowly is closed.
pub fn a_slow_member_is_closed()
    ensures { ASlowMemberIsClosed }
{}

/// A virtual switch gets another expression.
pub fn an_expression_is_replaced()
    ensures { AnExpressionIsReplaced }
{}

/// A virtual switch is refused another expression.
pub fn an_expression_is_refused()
    ensures { AnExpressionIsRefused }
{}

/// Two members are told of a packet.
pub fn two_are_told()
    ensures { TwoAreTold }
{}

/// A member's packet leaves by all ports.
pub fn a_packet_leaves()
    ensures { APacketLeaves }
{}
