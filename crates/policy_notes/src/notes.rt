//! A fault as the operator reads it.
ghost use Rattle.std.specs.Prelude.{◌≡◌, IfOk};
ghost use Rattle.policy_notes.specs.Notes.{behind_colon as behind_colon_of, lead_of, note_of, said as said_of};

use crate::places::Place;
use crate::sentence::sentence;
use cv_io::{Memory, Text};
use policies::PolicyFault;
use script_text::{say, say_number};
use std::alloc::Global;

/// A number behind a colon; of 0 nothing.
fn behind_colon(alloc: Global, number: u64) -> Result<Text, Memory>
    ensures { IfOk result (λ text. text ≡ behind_colon_of number) }
{
    let mut text = Text::new(alloc);
    if number > 0 {
        say(&mut text, ":")?;
        say_number(alloc, &mut text, number)?;
    }
    Ok(text)
}

/// The file, and the line and the column of a place in it.
fn lead(alloc: Global, file: &Text, place: &Place) -> Result<Text, Memory>
    ensures { IfOk result (λ text. text ≡ lead_of file.now place.now) }
{
    let mut text = Text::new(alloc);
    text.push_text(file)?;
    text.push_text(&behind_colon(alloc, place.line)?)?;
    text.push_text(&behind_colon(alloc, place.column)?)?;
    Ok(text)
}

/// The line of a sentence to the operator, behind the program's name.
#[tactic(auto, unfolding(crate::specs::Notes::said))]
pub fn said(alloc: Global, sentence: &Text) -> Result<Text, Memory>
    ensures { IfOk result (λ text. text ≡ said_of sentence.now) }
{
    let mut text = Text::new(alloc);
    say(&mut text, "covisor: ")?;
    text.push_text(sentence)?;
    say(&mut text, "\n")?;
    Ok(text)
}

/// What a fault of a policy file of this name says, without a line feed.
pub fn note(alloc: Global, file: &Text, place: &Place, fault: &PolicyFault) -> Result<Text, Memory>
    ensures { IfOk result (λ text. text ≡ note_of file.now place.now fault.now) }
{
    let mut text = lead(alloc, file, place)?;
    say(&mut text, ": ")?;
    text.push_text(&sentence(alloc, place, fault)?)?;
    Ok(text)
}
