//! The forms as `clap` knows them, and the words as it matches them.
ghost use Rattle.std.specs.Prelude.{◌≡◌, IfOk, false, is_some, map, true};
ghost use Rattle.std.specs.String.{string_bytes};
ghost use Rattle.clap.specs.Words.{app_of, kind_of, rule_of, subcommand_of, subcommand_rows_of};
ghost use Rattle.command_line.specs.Forms.{command_of};
ghost use Rattle.command_line.specs.Parser.{explain_form, forms as forms_of, make_form, replay_form, serve_form};
ghost use Rattle.command_line.specs.Parser.{optional_text as optional_text_of, wanted_text as wanted_text_of};

use clap::error::ErrorKind;
use clap::{Arg, ArgMatches, Command, Error};
use cv_io::Memory;
use std::alloc::{AllocError, Global};

/// What `clap` matches of words that are of a form. It refuses them only for want of memory.
pub(crate) fn matched<'a>(alloc: Global, words: &'a [String]) -> Result<ArgMatches<'a>, Memory>
    requires { is_some (command_of words.now) ≡ true }
    ensures { IfOk result (λ matches. subcommand_rows_of matches
        ≡ subcommand_of forms_of (map string_bytes words.now)) }
{
    match forms(alloc)?.try_get_matches_from(words) {
        Ok(matches) => Ok(matches),
        Err(refusal) => Err(want_of_memory(&refusal)),
    }
}

/// The one refusal of words that are of a form.
fn want_of_memory(refusal: &Error) -> Memory
    requires { kind_of refusal.now ≡ ErrorKind.OutOfMemory }
{
    prove!(refusal.kind() == ErrorKind::OutOfMemory);
    Memory
}

/// Every form: a command whose subcommands are the verbs. No word is the program's name.
fn forms<'a>(alloc: Global) -> Result<Command<'a>, AllocError>
    ensures { IfOk result (λ command. app_of command ≡ forms_of) }
{
    Command::new(alloc, "covisor")
        .no_binary_name(true)
        .subcommand(replay(alloc)?)?
        .subcommand(explain(alloc)?)?
        .subcommand(serve(alloc)?)?
        .subcommand(make(alloc)?)
}

/// `replay`, `replay POLICY`
fn replay<'a>(alloc: Global) -> Result<Command<'a>, AllocError>
    ensures { IfOk result (λ command. app_of command ≡ replay_form) }
{
    Command::new(alloc, "replay").arg(optional_text(alloc, "POLICY"))
}

/// `explain POLICY`
fn explain<'a>(alloc: Global) -> Result<Command<'a>, AllocError>
    ensures { IfOk result (λ command. app_of command ≡ explain_form) }
{
    Command::new(alloc, "explain").arg(wanted_text(alloc, "POLICY"))
}

/// `serve POLICY`
fn serve<'a>(alloc: Global) -> Result<Command<'a>, AllocError>
    ensures { IfOk result (λ command. app_of command ≡ serve_form) }
{
    Command::new(alloc, "serve").arg(wanted_text(alloc, "POLICY"))
}

/// `make SEED N`
fn make<'a>(alloc: Global) -> Result<Command<'a>, AllocError>
    ensures { IfOk result (λ command. app_of command ≡ make_form) }
{
    Command::new(alloc, "make")
        .arg(wanted_text(alloc, "SEED"))?
        .arg(wanted_text(alloc, "N"))
}

/// A text that may be there.
fn optional_text<'a>(alloc: Global, name: &'a str) -> Arg<'a>
    ensures rule { rule_of result ≡ optional_text_of name.entry.now }
    ensures own { result.global ≡ false }
{
    Arg::new(alloc, name)
}

/// A text that is there.
fn wanted_text<'a>(alloc: Global, name: &'a str) -> Arg<'a>
    ensures rule { rule_of result ≡ wanted_text_of name.entry.now }
    ensures own { result.global ≡ false }
{
    Arg::new(alloc, name).required(true)
}
