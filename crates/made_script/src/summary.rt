//! What a made script gave.
ghost use Rattle.std.specs.Prelude.{◌≡◌, IfOk};
ghost use Rattle.made_script.specs.Summary.{summary_text};

use cv_io::{Memory, Text};
use script_text::{say, say_number};
use std::alloc::Global;

/// The numbers that are told of a script that was done.
#[derive(Clone, Copy, PartialEq, Eq, Debug)]
pub struct Summary {
    pub lines: u64,
    /// How many FLOW_MODs of members were accepted.
    pub accepted: u64,
    /// How many composed rules the virtual switch has in the end.
    pub rules: u64,
    /// How many messages were put to the switch.
    pub sent: u64,
}

/// The line that tells them, without its line feed.
pub fn summary_line(alloc: Global, summary: &Summary) -> Result<Text, Memory>
    ensures { IfOk result (λ line. line ≡ summary_text summary.now) }
{
    let mut line = Text::new(alloc);
    say(&mut line, "make lines=")?;
    say_number(alloc, &mut line, summary.lines)?;
    say(&mut line, " accepted=")?;
    say_number(alloc, &mut line, summary.accepted)?;
    say(&mut line, " rules=")?;
    say_number(alloc, &mut line, summary.rules)?;
    say(&mut line, " sent=")?;
    say_number(alloc, &mut line, summary.sent)?;
    Ok(line)
}
