//! What the operator is told of a line of a script that isn't done.
ghost use Rattle.std.specs.Prelude.{◌≡◌, ◌++◌, IfOk, IsTrue, OnOk};
ghost use Rattle.std.specs.List.{list_all};
ghost use Rattle.script_text.specs.Lines.{is_ascii};
ghost use Rattle.covisor_proxy.specs.LineNotes.{known_text as known_text_of, line_note_of, name_text as name_text_of};
ghost use Rattle.covisor_proxy.specs.LineNotes.{quoted, sessions_text as sessions_text_of};
ghost use Rattle.covisor_proxy.specs.LineNotes.{shape_sentence as shape_sentence_of, shape_text as shape_text_of};
ghost use Rattle.covisor_proxy.specs.LineNotes.{verbs_text as verbs_text_of, why_text as why_text_of};
ghost use Rattle.covisor_proxy.specs.LineNotes.{word_text as word_text_of};

use cv_io::{Memory, Text};
use policies::Policy;
use policy_notes::beginning;
use replay_report::Kind;
use script_text::form::Verb;
use script_text::{Form, say, say_number};
use std::alloc::Global;

/// The most characters that are shown of a line.
const SHOWN: usize = 60;

/// What the operator is shown of a line.
#[derive(Debug, Drop)]
pub(crate) struct Seen {
    /// Its first word, if the form knows it.
    pub(crate) verb: Option<Verb>,
    /// How it begins.
    pub(crate) shown: Text,
    /// The names of the sessions that there are.
    pub(crate) names: Text,
}

/// The bytes before the first blank.
fn first_word(line: &[u8]) -> &[u8] {
    match line.iter().position(|byte| *byte == b' ') {
        Some(at) => &line[..at],
        None => line,
    }
}

/// What is shown of a line that isn't done for such a cause; of one that is too long nothing.
pub(crate) fn see(alloc: Global, form: Form, kind: Kind, line: &[u8], names: Text) -> Seen {
    let shown = match kind {
        Kind::Long | Kind::Size => Ok(Text::new(alloc)),
        _ => beginning(alloc, line, SHOWN),
    };
    Seen {
        verb: form.verb(first_word(line)),
        shown: shown.unwrap_or(Text::new(alloc)),
        names,
    }
}

/// Appends a name behind those that are there.
fn push_name(names: &mut Text, name: &Text, at: Option<&Text>) -> Result<(), Memory> {
    if !names.is_empty() {
        say(names, ", ")?;
    }
    names.push_text(name)?;
    if let Some(at) = at {
        say(names, "@")?;
        names.push_text(at)?;
    }
    Ok(())
}

/// The names of the sessions of a policy.
pub(crate) fn session_names(alloc: Global, policy: &Policy) -> Result<Text, Memory> {
    let mut names = Text::new(alloc);
    for member in policy.members.as_slice() {
        push_name(&mut names, &member.controller, Some(&member.vsw))?;
    }
    for switch in policy.switches.as_slice() {
        push_name(&mut names, &switch.name, None)?;
    }
    Ok(names)
}

/// The first words that a form knows.
fn verbs_text(form: Form) -> &'static str
    ensures text { result.now ≡ verbs_text_of form }
    ensures ascii { IsTrue (list_all is_ascii result.now) }
{
    match form {
        Form::Replay => "a line is up, from, gone, tick or expr",
        Form::Explain => "a line is up, from, gone, tick, expr or ask",
        Form::Sim => "a line is up, from, gone, tick, expr or packet",
    }
}

/// How a line of a first word is written.
fn shape_text(verb: Verb) -> &'static str
    ensures text { result.now ≡ shape_text_of verb }
    ensures ascii { IsTrue (list_all is_ascii result.now) }
{
    match verb {
        Verb::Up => "up NAME, or up SWITCH noarp",
        Verb::From => "from NAME HEX",
        Verb::Gone => "gone NAME",
        Verb::Tick => "tick SECOND",
        Verb::Expr => "expr VIRTUAL TEXT, TEXT of at most 1,024 characters without a blank",
        Verb::Ask => "ask SWITCH:PORT HEX",
        Verb::Packet => "packet SWITCH:PORT HEX",
    }
}

/// How a line of a first word has to be written.
fn shape_sentence(alloc: Global, verb: Verb) -> Result<Text, Memory>
    ensures { IfOk result (λ text. text ≡ shape_sentence_of verb) }
{
    let mut text = Text::new(alloc);
    say(&mut text, "it has to be ")?;
    say(&mut text, shape_text(verb))?;
    say(&mut text, ", with one blank between words")?;
    Ok(text)
}

/// A text of words.
pub(crate) fn text_of(alloc: Global, words: &str) -> Result<Text, Memory>
    requires { IsTrue (list_all is_ascii words.now) }
    ensures { IfOk result (λ text. text ≡ words.now) }
{
    let mut text = Text::new(alloc);
    say(&mut text, words)?;
    Ok(text)
}

/// How a line has to be written.
fn word_text(alloc: Global, form: Form, verb: Option<Verb>) -> Result<Text, Memory>
    ensures { IfOk result (λ text. text ≡ word_text_of form verb) }
{
    match verb {
        Some(verb) => shape_sentence(alloc, verb),
        None => text_of(alloc, verbs_text(form)),
    }
}

/// What a name has to be.
fn name_text(verb: Option<Verb>) -> &'static str
    ensures text { result.now ≡ name_text_of verb }
    ensures ascii { IsTrue (list_all is_ascii result.now) }
{
    match verb {
        Some(Verb::Expr) => "VIRTUAL has to be a name, as v1",
        Some(Verb::Ask | Verb::Packet) => "the place has to be SWITCH:PORT, as s1:2",
        Some(Verb::Up | Verb::From | Verb::Gone | Verb::Tick) | None => {
            "NAME has to be that of a session, as s1 or app@v1"
        }
    }
}

/// The sessions that there are, where another one is named.
fn sessions_text(alloc: Global, names: &Text) -> Result<Text, Memory>
    ensures { IfOk result (λ text. text ≡ sessions_text_of names.now) }
{
    let mut text = Text::new(alloc);
    say(&mut text, "there is no such session; there are ")?;
    text.push_text(names)?;
    Ok(text)
}

/// What there is of what isn't there.
fn known_text(alloc: Global, verb: Option<Verb>, names: &Text) -> Result<Text, Memory>
    ensures { IfOk result (λ text. text ≡ known_text_of verb names.now) }
{
    match verb {
        Some(Verb::Expr) => text_of(alloc, "there is no such virtual switch"),
        Some(Verb::Ask | Verb::Packet) => {
            text_of(alloc, "there is no such switch with such an outside port")
        }
        Some(Verb::Up | Verb::From | Verb::Gone | Verb::Tick) | None => sessions_text(alloc, names),
    }
}

/// Why a line isn't done.
fn why_text(alloc: Global, kind: Kind, form: Form, seen: &Seen) -> Result<Text, Memory>
    ensures { IfOk result (λ text. text ≡ why_text_of kind form seen.now) }
{
    match kind {
        Kind::Word => word_text(alloc, form, seen.verb),
        Kind::Name => text_of(alloc, name_text(seen.verb)),
        Kind::Hex => text_of(alloc, "HEX has to be hexadecimal digits, two for each byte"),
        Kind::Number => text_of(
            alloc,
            "a number has to be decimal digits without leading zeros, below 2^64, a port below 65536",
        ),
        Kind::Unknown => known_text(alloc, seen.verb, &seen.names),
        Kind::Long => text_of(alloc, "more than 140,000 bytes"),
        Kind::Size => text_of(alloc, "the script has more than 4,294,967,295 bytes"),
    }
}

/// Appends what is shown of a line, in quotes.
fn say_quoted(text: &mut Text, shown: &Text) -> Result<(), Memory>
    ensures { OnOk result (text.new ≡ text.old ++ quoted shown.now) }
{
    if shown.is_empty() {
        return Ok(());
    }
    say(text, ", \"")?;
    text.push_text(shown)?;
    say(text, "\"")
}

/// That a line of this number isn't done, and why.
pub(crate) fn line_note(
    alloc: Global,
    number: u64,
    kind: Kind,
    form: Form,
    seen: &Seen,
) -> Result<Text, Memory>
    ensures { IfOk result (λ text. text ≡ line_note_of number kind form seen.now) }
{
    let mut text = Text::new(alloc);
    say(&mut text, "line ")?;
    say_number(alloc, &mut text, number)?;
    say_quoted(&mut text, &seen.shown)?;
    say(&mut text, ": ")?;
    text.push_text(&why_text(alloc, kind, form, seen)?)?;
    Ok(text)
}
