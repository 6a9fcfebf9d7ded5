//! What a report says was put to a session, read of the report's text: each function's contract is a law.
#![tactic(auto)]

ghost use Rattle.report_lines.specs.ReadBack.{MessagesAreReadBack, ReportsAreReadBack};
ghost use Rattle.report_lines.specs.Worked.{SomeReportIsRead};

/// A message of bytes is read of its line, and of a line of anything else that message or none.
pub fn messages_are_read_back()
    ensures { MessagesAreReadBack }
{}

/// Of a report's text, what is read for a session are the messages of the session's lines, in order, and nothing else.
pub fn reports_are_read_back()
    ensures { ReportsAreReadBack }
{}

/// A report of five lines is read so.
pub fn some_report_is_read()
    ensures { SomeReportIsRead }
{}
