//! A script that is made line by line.
ghost use Rattle.std.specs.Prelude.{◌≡◌, ◌≤◌, ◌<◌, ◌^◌, ◌++◌, [], None, Some, IfOk, IsTrue, OnErr, option_to_list};
ghost use Rattle.std.specs.Prelude.{slice_get};
ghost use Rattle.std.specs.List.{list_all};
ghost use Rattle.script_text.specs.Lines.{is_ascii};
ghost use Rattle.made_script.specs.Script.{made, opening};

use crate::drawing::{after, start};
use crate::messages::line;
use cv_io::{Memory, Text};
use script_text::say;
use std::alloc::Global;
use std::marker::Model;

/// The lines of a script that are still to come, without their line feeds.
#[derive(Drop)]
pub struct Made {
    alloc: Global,
    /// How many of the first three lines were made.
    opened: u32,
    /// How many messages were made, of how many.
    done: u32,
    count: u32,
    /// The number that the last message was drawn from.
    x: u64,
    ghost few: { opened ≤ 3 },
    ghost within: { done ≤ count },
    ghost range: { x < 2 ^ 31 },
}

impl Model for Made {
    ghost use Rattle.std.specs.Prelude.{ℕ, List, ◌-◌, ◌++◌, drop};
    ghost use Rattle.made_script.specs.Script.{lines_behind, opening};

    ghost Value = { List (List ℕ) };

    ghost view = { λ a. drop a.opened opening ++ lines_behind a.done a.x (a.count - a.done) };
}

/// One of the first three lines.
fn opening_line(place: u32) -> &'static str
    requires { place < 3 }
    ensures line { slice_get opening place ≡ Some result.now }
    ensures ascii { IsTrue (list_all is_ascii result.now) }
{
    match place {
        0 => "up s1",
        1 => "up mon@v1",
        _ => "up rt@v1",
    }
}

impl Made {
    /// The script of a seed with so many messages.
    pub fn new(alloc: Global, seed: u64, count: u32) -> Made
        ensures { result ≡ made seed count }
    {
        Made {
            alloc,
            opened: 0,
            done: 0,
            count,
            x: start(seed),
        }
    }

    /// The next line, or None behind the last one.
    pub fn next(&mut self) -> Result<Option<Text>, Memory>
        ensures line { IfOk result (λ line. self.old ≡ option_to_list line ++ self.new) }
        ensures end { IfOk result (λ line. line ≡ None → self.old ≡ []) }
        ensures memory { OnErr result (self.new ≡ self.old) }
    {
        if self.opened < 3 {
            let mut line = Text::new(self.alloc);
            say(&mut line, opening_line(self.opened))?;
            self.opened += 1;
            return Ok(Some(line));
        }
        if self.done == self.count {
            return Ok(None);
        }
        let x = after(self.x);
        let line = line(self.alloc, self.done + 1, x)?;
        self.x = x;
        self.done += 1;
        Ok(Some(line))
    }
}
