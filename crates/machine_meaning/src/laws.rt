//! Each function's contract is a law.
ghost use Rattle.machine_meaning.specs.Laws.{CountsAreCounted, CountsAreOfAll, DenialsChangeNothing, OpeningIsSound};
ghost use Rattle.machine_meaning.specs.Laws.{RunsAgree, SettingsAreSound, SlowIsLeast, SoundnessIsKept};
ghost use Rattle.machine_meaning.specs.Laws.{StandingIsInstalled, StandingIsKept, StatesAgree, StatesAreWritable};
ghost use Rattle.machine_meaning.specs.Laws.{StepsAreWritten, WhatMattersIsKept};

/// The opening state is sound.
pub fn opening_is_sound()
    ensures { OpeningIsSound }
{}

/// The setting of a state with sound tables is as agreement asks.
pub fn settings_are_sound()
    ensures { SettingsAreSound }
{
    policy_setting::topologies_are_sound();
    policy_setting::settings_are_sound();
    member_state::laws::member_tables_are_sound();
    member_state::laws::members_keep_to_ports();
    member_state::laws::plain_grants_give_plain_tables();
}

/// Switches that have the entries of a sound state do with each packet what the policy says over its tables.
pub fn states_agree()
    ensures { StatesAgree }
{
    settings_are_sound();
    agreement::laws::agreement();
}

/// What stands on each switch that is up are the entries that the setting gives.
pub fn standing_is_installed()
    ensures { StandingIsInstalled }
{}

/// What the setting of a sound state gives can be written to switches: one entry for each key, each with a match that
/// is normal and in range, a priority of 16 bits, and actions that are in range and fit a message.
pub fn states_are_writable()
    ensures { StatesAreWritable }
{
    settings_are_sound();
}

/// A switch that is up after a step, and takes what the step puts to it, the messages between two barriers in any
/// order, has the entries that stand.
pub fn steps_are_written()
    ensures { StepsAreWritten }
{
    settings_are_sound();
    switch_state::laws::writing();
    switch_state::laws::reading();
}

/// What stands on a switch that is up after a step is what the setting gives then.
pub fn standing_is_kept()
    ensures { StandingIsKept }
{
    settings_are_sound();
    agreement::laws::order_is_free();
}

/// A sound state is sound after each step, as long as cookies and serial numbers are left.
pub fn soundness_is_kept()
    ensures { SoundnessIsKept }
{
    settings_are_sound();
    agreement::laws::order_is_free();
}

/// After any events, as long as cookies and serial numbers are left, switches that have the entries that stand do with
/// each packet what the policy says over members' tables.
pub fn runs_agree()
    ensures { RunsAgree }
{
    soundness_is_kept();
    states_agree();
    standing_is_installed();
}

/// A message of a member that is refused changes nothing but that its sender gets an ERROR and the audit a line. Where
/// the sender's outbox is full, its round ends in place of the ERROR, and the audit has a second line.
pub fn denials_change_nothing()
    ensures { DenialsChangeNothing }
{}

/// What an event does to counts: numbers are told, removals are, switches go, entries are written, and entries that
/// don't matter any more are forgotten.
pub fn counts_are_counted()
    ensures { CountsAreCounted }
{}

/// The count of a leaf that no event dropped is the sum over all cookies that were ever written and name it, each
/// once; it stands still at 2^64 - 1.
pub fn counts_are_of_all()
    ensures { CountsAreOfAll }
{
    counts_are_counted();
    stats_map::laws::counting();
}

/// The leaf of an entry that still matters wasn't dropped: a serial number is given to one entry, once.
pub fn what_matters_is_kept()
    ensures { WhatMattersIsKept }
{}

/// Sessions are closed as slow in rounds, in each all that were full and are put something where those before are
/// closed. After the last round no full session is put anything, and after none before it was that so.
pub fn slow_is_least()
    ensures { SlowIsLeast }
{}
