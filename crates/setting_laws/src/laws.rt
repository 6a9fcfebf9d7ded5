//! Each function's contract is a law.
ghost use Rattle.setting_laws.specs.Drafted.{DraftsAreReady, DraftsAreSound, HeardIsSound, SerialsStay};
ghost use Rattle.setting_laws.specs.Drafted.{SettledIsSound, SoundTablesHaveSerials};
ghost use Rattle.setting_laws.specs.Members.{MembersChange};
ghost use Rattle.setting_laws.specs.Mixed.{MixturesAreSound, MixturesChange, MixturesLead, MixturesStay, MixturesTurn};
ghost use Rattle.setting_laws.specs.Ready.{SettingsAreReady, UpsAreFree};
ghost use Rattle.setting_laws.specs.Staying.{LeavesAreOfTables, PhasesKeepTables, SettingsStay, StepsKeepTables};
ghost use Rattle.setting_laws.specs.Staying.{TakingsKeepTables};
ghost use Rattle.setting_laws.specs.Taking.{ChangesCanBeTaken, DeltasCanBeTaken};

/// The setting of a state whose tables are sound is as the composed part asks of a setting.
pub fn settings_are_ready()
    ensures { SettingsAreReady }
{
    machine_meaning::laws::settings_are_sound();
}

/// What is kept of a setting is kept of it whichever switches are up.
pub fn ups_are_free()
    ensures { UpsAreFree }
{}

/// Where nothing that the setting reads changes but what one member keeps, and its rules change so, the setting changes
/// with that member alone.
pub fn members_change()
    ensures { MembersChange }
{}

/// What is kept of a setting can take the change of a member where what comes are rules that the member has then.
pub fn deltas_can_be_taken()
    ensures { DeltasCanBeTaken }
{}

/// What is kept of a setting can take a change by which a member's rules change as they do.
pub fn changes_can_be_taken()
    ensures { ChangesCanBeTaken }
{}

/// Where tables are sound, serial numbers are left.
pub fn sound_tables_have_serials()
    ensures { SoundTablesHaveSerials }
{}

/// Where tables stay, they still are.
pub fn serials_stay()
    ensures { SerialsStay }
{}

/// What an event tells of counts leaves a sound state as the event asks of it.
pub fn heard_is_sound()
    ensures { HeardIsSound }
{}

/// What settles after an event has sound tables, as long as serial numbers are left.
pub fn settled_is_sound()
    ensures { SettledIsSound }
{}

/// So it has after an event of a sound state.
pub fn drafts_are_sound()
    ensures { DraftsAreSound }
{
    heard_is_sound();
    settled_is_sound();
}

/// And its setting is as the composed part asks.
pub fn drafts_are_ready()
    ensures { DraftsAreReady }
{
    settings_are_ready();
    drafts_are_sound();
}

/// Where members' tables stay, they stay as composition reads them.
pub fn leaves_are_of_tables()
    ensures { LeavesAreOfTables }
{}

/// What changes no expression, and no member's table as composition reads it, leaves what is kept of a setting as it
/// is.
pub fn settings_stay()
    ensures { SettingsStay }
{}

/// Composing, telling and putting change no expression and no member's table.
pub fn phases_keep_tables()
    ensures { PhasesKeepTables }
{}

/// A step leaves those that settled.
pub fn steps_keep_tables()
    ensures { StepsKeepTables }
{}

/// A taking changes no expression and no member's table.
pub fn takings_keep_tables()
    ensures { TakingsKeepTables }
{}

/// States between two with sound tables, whose first so many members are as they are after, have sound tables.
pub fn mixtures_are_sound()
    ensures { MixturesAreSound }
{}

/// From one of them to the next a member changes from how it is before to how it is after.
pub fn mixtures_change()
    ensures { MixturesChange }
{}

/// Where its table stays as composition reads it, nothing does.
pub fn mixtures_stay()
    ensures { MixturesStay }
{}

/// They lead from the one state to the tables of the other.
pub fn mixtures_lead()
    ensures { MixturesLead }
{}

/// From each of them to the next the composed part can follow the change of the member's rules.
pub fn mixtures_turn()
    ensures { MixturesTurn }
{
    settings_are_ready();
    members_change();
    changes_can_be_taken();
}
