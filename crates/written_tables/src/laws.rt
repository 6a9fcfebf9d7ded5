//! The laws of what the machine puts to switches, and of what waits.
ghost use Rattle.written_tables.specs.Laws.{AuditHasItsLines, FlowModsAreBytes, MadeTablesAgree, RoundsFit};
ghost use Rattle.written_tables.specs.Laws.{RunsMakeTables};
ghost use Rattle.written_tables.specs.Laws.{StepsMakeTables, WhatIsPutWaits, WrittenTablesAgree};
ghost use Rattle.written_tables.specs.Reports.{ReportedTablesAgree};

/// What a switch was put since it came up makes what stands on it of any table: so it stays with what one more event
/// puts.
pub fn steps_make_tables()
    ensures { StepsMakeTables }
{
    machine_meaning::laws::steps_are_written();
}

/// Switches whose tables are made so do with each packet what the policy says over the members' tables.
pub fn made_tables_agree()
    ensures { MadeTablesAgree }
{
    machine_meaning::laws::standing_is_installed();
    machine_meaning::laws::states_agree();
}

/// After any events, as long as cookies and serial numbers are left: the FLOW_MODs that a switch was put since it last
/// came up, read of their bytes, make of any table the entries that stand.
pub fn runs_make_tables()
    ensures { RunsMakeTables }
{
    machine_meaning::laws::opening_is_sound();
    machine_meaning::laws::soundness_is_kept();
    steps_make_tables();
}

/// And switches with these tables do with each packet what the policy says over the members' tables.
pub fn written_tables_agree()
    ensures { WrittenTablesAgree }
{
    machine_meaning::laws::opening_is_sound();
    machine_meaning::laws::soundness_is_kept();
    runs_make_tables();
    made_tables_agree();
}

/// Each message that an event puts to a switch, and that changes a table, is bytes.
pub fn flow_mods_are_bytes()
    ensures { FlowModsAreBytes }
{
    machine_meaning::laws::states_are_writable();
    machine_meaning::laws::soundness_is_kept();
}

/// Switches with the tables that the lines of a report since they came up make, read of the report's text, do with each
/// packet what the policy says over the members' tables, whatever they had before.
pub fn reported_tables_agree()
    ensures { ReportedTablesAgree }
{
    machine_meaning::laws::opening_is_sound();
    machine_meaning::laws::soundness_is_kept();
    report_lines::messages_are_read_back();
    report_lines::reports_are_read_back();
    runs_make_tables();
    flow_mods_are_bytes();
    made_tables_agree();
}

/// Where nothing waits for a switch, what waits for it after an event is what the event puts to it.
pub fn what_is_put_waits()
    ensures { WhatIsPutWaits }
{}

/// Rounds are numbers of 64 bits.
pub fn rounds_fit()
    ensures { RoundsFit }
{}

/// What an event puts into the audit are lines of the audit.
pub fn audit_has_its_lines()
    ensures { AuditHasItsLines }
{}
