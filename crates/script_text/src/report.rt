//! The lines of a report.
ghost use Rattle.std.specs.Prelude.{◌≡◌, ◌++◌, IfOk, IsTrue, OnOk, decimal};
ghost use Rattle.std.specs.List.{list_all};
ghost use Rattle.script_text.specs.Lines.{is_ascii, report_text};

use cv_io::{Memory, Text};
use std::alloc::Global;

/// The line of a message that is put to a session, `to NAME HEX`, in lower case and without its line
/// feed.
pub fn report_line(alloc: Global, name: &Text, message: &[u8]) -> Result<Text, Memory>
    ensures { IfOk result (λ line. line ≡ report_text name.now message.now) }
{
    let mut line = Text::new(alloc);
    say(&mut line, "to ")?;
    line.push_text(name)?;
    say(&mut line, " ")?;
    let digits = hex::encode(alloc, message)?;
    say(&mut line, digits.as_str())?;
    Ok(line)
}

/// Appends a text of ASCII.
pub fn say(line: &mut Text, more: &str) -> Result<(), Memory>
    requires { IsTrue (list_all is_ascii more.now) }
    ensures { OnOk result (line.new ≡ line.old ++ more.now) }
{
    for byte in more.as_bytes() {
        line.push(*byte)?;
    }
    Ok(())
}

/// Appends a number in decimal.
pub fn say_number(alloc: Global, line: &mut Text, number: u64) -> Result<(), Memory>
    ensures { OnOk result (line.new ≡ line.old ++ decimal number) }
{
    let digits = format!(in alloc; "{number}")?;
    say(line, digits.as_str())
}
