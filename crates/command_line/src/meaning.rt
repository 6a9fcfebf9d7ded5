//! What is asked for, by what `clap` matched.
ghost use Rattle.std.specs.Prelude.{◌≡◌, IfOk, IfSome, option_map};
ghost use Rattle.cv_io.specs.Text.{IsAsciiText};
ghost use Rattle.clap.specs.Words.{found_of, first_of, rows_of};
ghost use Rattle.command_line.specs.Meaning.{NamesAscii, meant_by, replaying};
ghost use Rattle.command_line.specs.Forms.{count_in, making as making_of, seed_in};
ghost use Rattle.std.specs.Prelude.{option_and_then};
ghost use Rattle.command_line.specs.declared.command.Command.TheVariants.{ExplainPolicy, Serve};

use crate::command::Command;
use crate::forms::{read_count, read_seed};
use clap::ArgMatches;
use cv_io::{Memory, Text};
use script_text::form::is_text;
use std::alloc::Global;

/// What a verb asks for with its texts.
pub(crate) fn meant(
    alloc: Global,
    verb: &str,
    given: &ArgMatches<'_>,
) -> Result<Option<Command>, Memory>
    requires { NamesAscii (rows_of (found_of given.now)) }
    ensures { IfOk result (λ command. command ≡ meant_by verb.now (rows_of (found_of given.now))) }
{
    let verb = verb.as_bytes();
    if is_text(verb, "replay") {
        let name = text(alloc, given.get_str("POLICY"))?;
        Ok(Some(replaying(name)))
    } else if is_text(verb, "explain") {
        let name = text(alloc, given.get_str("POLICY"))?;
        Ok(explaining(name))
    } else if is_text(verb, "serve") {
        let name = text(alloc, given.get_str("POLICY"))?;
        Ok(serving(name))
    } else if is_text(verb, "make") {
        Ok(making(given.get_str("SEED"), given.get_str("N")))
    } else {
        Ok(None)
    }
}

/// `replay`, over the built-in policy or that of a file.
fn replaying(name: Option<Text>) -> Command
    ensures { result ≡ replaying name }
{
    match name {
        Some(name) => Command::ReplayPolicy { name },
        None => Command::Replay,
    }
}

/// `explain`, over the policy of a file.
fn explaining(name: Option<Text>) -> Option<Command>
    ensures { result ≡ option_map (λ name. ExplainPolicy name) name }
{
    match name {
        Some(name) => Some(Command::ExplainPolicy { name }),
        None => None,
    }
}

/// `serve`, over the policy of a file.
fn serving(name: Option<Text>) -> Option<Command>
    ensures { result ≡ option_map (λ name. Serve name) name }
{
    match name {
        Some(name) => Some(Command::Serve { name }),
        None => None,
    }
}

/// `make`, of a seed and a number of messages.
fn making(seed: Option<&str>, count: Option<&str>) -> Option<Command>
    ensures { result ≡ making_of (option_and_then (λ s. seed_in s.now) seed.entry)
        (option_and_then (λ s. count_in s.now) count.entry) }
{
    let seed = read_seed(seed?.as_bytes())?;
    let count = read_count(count?.as_bytes())?;
    Some(Command::Make { seed, count })
}

/// A text that was matched, as a text of ASCII.
fn text(alloc: Global, given: Option<&str>) -> Result<Option<Text>, Memory>
    requires { IfSome given (λ text. IsAsciiText text.now) }
    ensures { IfOk result (λ text. text ≡ option_map (λ text. text.now) given.entry) }
{
    match given {
        Some(given) => Ok(Some(Text::from_slice(alloc, given.as_bytes())?)),
        None => Ok(None),
    }
}
