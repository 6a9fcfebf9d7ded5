//! A member's message is answered.
ghost use Rattle.std.specs.Prelude.{◌≡◌, ◌∷◌, ◌++◌, [], OnOk, map};
ghost use Rattle.machine_meaning.specs.Drafts.{answering, letter};
ghost use Rattle.machine_drafts.specs.Outcomes.{bases, draft_in};

use crate::outcome::Outcome;
use cv_io::{Bytes, List, Memory};
use machine_meaning::Letter;

/// Appends messages to the member or switch of a number.
pub fn address_all(letters: &mut List<Letter>, n: u32, messages: List<Bytes>) -> Result<(), Memory>
    ensures { OnOk result (letters.new ≡ letters.old ++ map (letter n) messages) }
{
    for bytes in messages.into_vec() {
        letters.push(Letter { to: n, bytes })?;
    }
    Ok(())
}

/// The sender of a message is answered.
pub fn answer(draft: &mut Outcome<'_>, n: u32, bytes: Bytes) -> Result<(), Memory>
    ensures drafted { OnOk result (draft_in draft.new ≡ answering n (bytes ∷ []) (draft_in draft.old)) }
    ensures bases { OnOk result (bases draft.new ≡ bases draft.old) }
{
    draft.answers.push(Letter { to: n, bytes })
}

/// The sender of a message is answered in parts.
pub fn answer_all(draft: &mut Outcome<'_>, n: u32, messages: List<Bytes>) -> Result<(), Memory>
    ensures drafted { OnOk result (draft_in draft.new ≡ answering n messages (draft_in draft.old)) }
    ensures bases { OnOk result (bases draft.new ≡ bases draft.old) }
{
    address_all(&mut draft.answers, n, messages)
}
