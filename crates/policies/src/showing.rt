//! How a fault shows a key.
ghost use Rattle.std.specs.Prelude.{◌≡◌, ◌<◌, ◌++◌, OnOk};
ghost use Rattle.policies.specs.Showing.{shown as shown_of, shown_byte};

use cv_io::{Memory, Text};

/// A byte of a key as a fault shows it: what isn't printable ASCII, or is a blank, as `?`.
fn shown(byte: u8) -> u8
    ensures byte { result ≡ shown_byte byte }
    ensures ascii { result < 128 }
{
    if byte.is_ascii_graphic() { byte } else { b'?' }
}

/// Appends a word as a fault shows it.
pub fn push_word(text: &mut Text, word: &[u8]) -> Result<(), Memory>
    ensures { OnOk result (text.new ≡ text.old ++ shown_of word.now) }
{
    for byte in word {
        text.push(shown(*byte))?;
    }
    Ok(())
}
