//! The tables that the report of a replay makes agree with the policy: the function's contract is the law.
#![tactic(auto)]

ghost use Rattle.replayed_tables.specs.Since.{ReplayedTablesAgree};

/// After any lines of a script, as long as cookies and serial numbers are left: switches with the tables that their
/// `to` lines since they came up make, read of the report's text, do with each packet what the policy says over the
/// members' tables, whatever they had before.
pub fn replayed_tables_agree()
    ensures { ReplayedTablesAgree }
{
    machine_meaning::laws::opening_is_sound();
    machine_meaning::laws::soundness_is_kept();
    report_lines::messages_are_read_back();
    report_lines::reports_are_read_back();
    written_tables::laws::rounds_fit();
    written_tables::laws::audit_has_its_lines();
    written_tables::laws::what_is_put_waits();
    written_tables::laws::steps_make_tables();
    written_tables::laws::flow_mods_are_bytes();
    written_tables::laws::made_tables_agree();
}
