//! Texts of others, as they stand in HTML and in Prometheus' labels.
ghost use Rattle.std.specs.Prelude.{◌≡◌, ◌++◌, ◌<◌, OnOk, flat_map};
ghost use Rattle.status_page.specs.Escaping.{html_of, label_of};

use cv_io::{Memory, Text};
use script_text::say;

/// Appends a byte as HTML.
fn say_html_byte(text: &mut Text, byte: u8) -> Result<(), Memory>
    requires { byte < 128 }
    ensures { OnOk result (text.new ≡ text.old ++ html_of byte) }
{
    match byte {
        b'&' => say(text, "&amp;"),
        b'<' => say(text, "&lt;"),
        b'>' => say(text, "&gt;"),
        b'"' => say(text, "&quot;"),
        _ => text.push(byte),
    }
}

/// Appends a text as HTML.
pub(crate) fn say_html(text: &mut Text, more: &Text) -> Result<(), Memory>
    ensures { OnOk result (text.new ≡ text.old ++ flat_map html_of more.now) }
{
    for byte in more.as_bytes() {
        say_html_byte(text, *byte)?;
    }
    Ok(())
}

/// Appends a byte of a label's value.
fn say_label_byte(text: &mut Text, byte: u8) -> Result<(), Memory>
    requires { byte < 128 }
    ensures { OnOk result (text.new ≡ text.old ++ label_of byte) }
{
    match byte {
        b'\\' => say(text, "\\\\"),
        b'"' => say(text, "\\\""),
        b'\n' => say(text, "\\n"),
        _ => text.push(byte),
    }
}

/// Appends a text as a label's value.
pub(crate) fn say_label(text: &mut Text, more: &Text) -> Result<(), Memory>
    ensures { OnOk result (text.new ≡ text.old ++ flat_map label_of more.now) }
{
    for byte in more.as_bytes() {
        say_label_byte(text, *byte)?;
    }
    Ok(())
}
