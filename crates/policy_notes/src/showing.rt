//! What stands in a file or a script, as the operator is shown it.
ghost use Rattle.std.specs.Prelude.{◌≡◌, ◌<◌, ◌++◌, IfOk, OnOk, map};
ghost use Rattle.policy_notes.specs.Showing.{beginning_of, printable as printable_of};

use cv_io::{Memory, Text};
use script_text::say;
use std::alloc::Global;

/// A byte, or `?` for what isn't printable ASCII.
fn printable(byte: u8) -> u8
    ensures byte { result ≡ printable_of byte }
    ensures ascii { result < 128 }
{
    if byte == b' ' || byte.is_ascii_graphic() {
        byte
    } else {
        b'?'
    }
}

/// Appends bytes, each as it is shown.
fn push_printable(text: &mut Text, bytes: &[u8]) -> Result<(), Memory>
    ensures { OnOk result (text.new ≡ text.old ++ map printable_of bytes.now) }
{
    for byte in bytes {
        text.push(printable(*byte))?;
    }
    Ok(())
}

/// The beginning of bytes: at most so many of them, with `..` behind them where there are more, and `?` for each that
/// isn't printable ASCII.
pub fn beginning(alloc: Global, bytes: &[u8], most: usize) -> Result<Text, Memory>
    ensures { IfOk result (λ text. text ≡ beginning_of most bytes.now) }
{
    let mut text = Text::new(alloc);
    if most < bytes.len() {
        push_printable(&mut text, &bytes[..most])?;
        say(&mut text, "..")?;
        Ok(text)
    } else {
        push_printable(&mut text, bytes)?;
        Ok(text)
    }
}
