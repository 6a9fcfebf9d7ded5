//! From the words to what they ask for.
ghost use Rattle.std.specs.Prelude.{◌≡◌, ◌≢◌, IfOk, None, OnErr};
ghost use Rattle.command_line.specs.Forms.{command_of};

use crate::command::Command;
use crate::forms::is_of_form;
use crate::meaning::meant;
use crate::parser::matched;
use cv_io::Memory;
use std::alloc::Global;

/// What the words ask for; None where they are of no form.
pub fn asked(alloc: Global, words: &[String]) -> Result<Option<Command>, Memory>
    ensures form { IfOk result (λ command. command ≡ command_of words.now) }
    ensures listed { OnErr result (command_of words.now ≢ None) }
{
    if !is_of_form(words) {
        return Ok(None);
    }
    let matches = matched(alloc, words)?;
    match matches.subcommand() {
        Some((verb, given)) => meant(alloc, verb, given),
        None => Ok(None),
    }
}
