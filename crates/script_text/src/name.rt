//! The names of switches, virtual switches, controllers and sessions.
ghost use Rattle.std.specs.Prelude.{◌≡◌, ◌==◌, ◌≤◌, ◌<◌, IfSome, length, position};
ghost use Rattle.std.specs.List.{list_all};
ghost use Rattle.script_text.specs.Names.{is_letter, is_member, is_name, is_name_byte, is_session};

/// The longest name.
const LONGEST: usize = 16;

/// Whether it is a letter a to z and up to 15 of a to z, 0 to 9 and `_`.
pub fn is_name(text: &[u8]) -> bool
    ensures { result ≡ is_name text.now }
{
    match text {
        [first, ..] => is_letter(*first) && text.len() <= LONGEST && are_name_bytes(text),
        [] => false,
    }
}

fn are_name_bytes(text: &[u8]) -> bool
    ensures { result ≡ list_all is_name_byte text.now }
{
    text.iter().all(|byte| is_name_byte(*byte))
}

fn is_letter(byte: u8) -> bool
    ensures { result ≡ is_letter byte }
{
    (b'a'..=b'z').contains(&byte)
}

fn is_name_byte(byte: u8) -> bool
    ensures { result ≡ is_name_byte byte }
{
    is_letter(byte) || (b'0'..=b'9').contains(&byte) || byte == b'_'
}

/// Whether it is the name of a member's session: a controller's name, `@`, a virtual switch's name.
pub fn is_member(text: &[u8]) -> bool
    ensures { result ≡ is_member text.now }
{
    match place_of(text, b'@') {
        Some(at) => is_name(&text[..at]) && is_name(&text[at + 1..]),
        None => false,
    }
}

/// Whether it is the name of a session: that of a switch, or a member's.
pub fn is_session(text: &[u8]) -> bool
    ensures { result ≡ is_session text.now }
{
    is_name(text) || is_member(text)
}

/// The place of the first byte that is the wanted one.
pub fn place_of(text: &[u8], wanted: u8) -> Option<usize>
    ensures place { result ≡ position (λ byte. byte == wanted) text.now }
    ensures within { IfSome result (λ place. place < length text.now) }
{
    text.iter().position(|byte| *byte == wanted)
}
