//! What the operator is told beside what is written. Where it can't be told, the run ends as it would.
ghost use Rattle.std.specs.Prelude.{◌≡◌, IfOk, IsTrue, List, ℕ};
ghost use Rattle.std.specs.List.{list_all};
ghost use Rattle.policy_notes.specs.Notes.{note_of};
ghost use Rattle.policy_notes.specs.Remarks.{remarks_of};
ghost use Rattle.script_text.specs.Lines.{is_ascii};
ghost use Rattle.covisor_proxy.specs.LineNotes.{absent_note_of, unread_note_of};
ghost use Rattle.covisor_proxy.specs.Noted.{IsEnd, NotesEnd, NotesLine, Tells};
ghost use Rattle.covisor_proxy.specs.Written.{AppendsSome};

use crate::line_notes::{line_note, see, text_of};
use crate::status::Status;
use crate::stop::Stop;
use crate::writing::write_all;
use cv_io::{Memory, Text};
use outside::Sink;
use policies::{Policy, PolicyFault};
use policy_notes::{Place, note, remarks, said};
use script_text::{Form, say};
use std::alloc::Global;

/// The script can't be read to its end.
pub(crate) const SCRIPT: &str = "the script can't be read to its end";

/// An endpoint wasn't served.
pub(crate) const LINK: &str =
    "an endpoint could not be dialled, or its dial failed: is its address in use or not this machine's?";

/// No endpoint was served.
pub(crate) const SPAWN: &str = "the works that serve could not be run; nothing was served";

/// Writes bytes, or their beginning up to where a write fails.
#[tactic(auto, using(crate::proofs::Appending::some_all, crate::proofs::Appending::short_some))]
fn write_some<N: Sink>(notes: &mut N, bytes: &[u8])
    ensures { AppendsSome (N.held notes.old) (N.held notes.new) bytes.now }
{
    let _written = write_all(notes, bytes);
}

/// Tells a sentence, if there was memory for it.
#[tactic(auto, using(crate::proofs::Appending::some_none))]
fn tell_sentence<N: Sink>(alloc: Global, notes: &mut N, sentence: Result<Text, Memory>)
    ensures { (text : List ℕ) → IfOk sentence (λ said. said ≡ text) → Tells (N.held notes.old) (N.held notes.new) text }
{
    let Ok(sentence) = sentence else {
        return;
    };
    let Ok(line) = said(alloc, &sentence) else {
        return;
    };
    write_some(notes, line.as_bytes());
}

/// Tells words.
pub(crate) fn note_words<N: Sink>(alloc: Global, notes: &mut N, words: &str)
    requires { IsTrue (list_all is_ascii words.now) }
    ensures { Tells (N.held notes.old) (N.held notes.new) words.now }
{
    tell_sentence(alloc, notes, text_of(alloc, words));
}

/// Tells what is wrong with the policy of a file.
pub(crate) fn note_policy<N: Sink>(
    alloc: Global,
    notes: &mut N,
    name: &Text,
    place: &Place,
    fault: &PolicyFault,
)
    ensures { Tells (N.held notes.old) (N.held notes.new) (note_of name.now place.now fault.now) }
{
    tell_sentence(alloc, notes, note(alloc, name, place, fault));
}

fn absent_note(alloc: Global, name: &Text) -> Result<Text, Memory>
    ensures { IfOk result (λ text. text ≡ absent_note_of name.now) }
{
    let mut text = Text::new(alloc);
    say(&mut text, "there is no file ")?;
    text.push_text(name)?;
    Ok(text)
}

/// Tells that there is no file of a name.
pub(crate) fn note_absent<N: Sink>(alloc: Global, notes: &mut N, name: &Text)
    ensures { Tells (N.held notes.old) (N.held notes.new) (absent_note_of name.now) }
{
    tell_sentence(alloc, notes, absent_note(alloc, name));
}

fn unread_note(alloc: Global, name: &Text) -> Result<Text, Memory>
    ensures { IfOk result (λ text. text ≡ unread_note_of name.now) }
{
    let mut text = Text::new(alloc);
    text.push_text(name)?;
    say(
        &mut text,
        " can't be read: it is a folder, or reading it is not allowed",
    )?;
    Ok(text)
}

/// Tells that a file can't be read.
pub(crate) fn note_unread<N: Sink>(alloc: Global, notes: &mut N, name: &Text)
    ensures { Tells (N.held notes.old) (N.held notes.new) (unread_note_of name.now) }
{
    tell_sentence(alloc, notes, unread_note(alloc, name));
}

/// Tells what there is to remark of a policy that is to be served.
#[tactic(auto, using(crate::proofs::Appending::some_none))]
pub(crate) fn note_remarks<N: Sink>(alloc: Global, notes: &mut N, policy: &Policy)
    ensures { AppendsSome (N.held notes.old) (N.held notes.new) (remarks_of policy.now) }
{
    if let Ok(lines) = remarks(alloc, policy) {
        write_some(notes, lines.as_bytes());
    }
}

/// Tells the line at which a replay stopped, if it stopped at one.
fn note_line<N: Sink>(
    alloc: Global,
    notes: &mut N,
    outcome: Result<(), Stop>,
    form: Form,
    number: u64,
    line: &[u8],
    names: Text,
)
    ensures { NotesLine outcome form number (N.held notes.old) (N.held notes.new) }
{
    match outcome {
        Err(Stop::Refused { kind }) => {
            let seen = see(alloc, form, kind, line, names);
            tell_sentence(alloc, notes, line_note(alloc, number, kind, form, &seen));
        }
        Err(Stop::Read | Stop::Write | Stop::Memory) | Ok(()) => {}
    }
}

/// Tells why a replay of this outcome ended with a status, where it stopped at a line of this number or the script
/// can't be read.
pub(crate) fn note_end<N: Sink>(
    alloc: Global,
    notes: &mut N,
    status: Status,
    outcome: Result<(), Stop>,
    form: Form,
    number: u64,
    line: &[u8],
    names: Text,
)
    requires { IsEnd status outcome }
    ensures { NotesEnd status outcome form number (N.held notes.old) (N.held notes.new) }
{
    match status {
        Status::Line => note_line(alloc, notes, outcome, form, number, line, names),
        Status::Read => note_words(alloc, notes, SCRIPT),
        Status::Done
        | Status::Usage
        | Status::Policy
        | Status::Write
        | Status::Absent
        | Status::Link
        | Status::Spawn
        | Status::Memory => {}
    }
}
