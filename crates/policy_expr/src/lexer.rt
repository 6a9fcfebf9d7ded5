ghost use Rattle.std.specs.Prelude.{◌≡◌, ◌<◌, ◌≤◌, length, IsTrue};
ghost use Rattle.policy_expr.specs.Signs.{is_name_byte, name_length, front_sign, name_sign, width_of};
ghost use Rattle.policy_expr.specs.Tokens.{seen, IsInside};

use crate::token::Token;

/// A name has at most so many letters.
const LONGEST_NAME: usize = 16;

/// The sign that the bytes begin with, and how many bytes it takes. They begin with no blank.
pub fn token_at(bytes: &[u8]) -> (Token, usize)
    requires { 0 < length bytes.now }
    ensures sign { seen bytes.now result.0 ≡ front_sign bytes.now }
    ensures width { result.1 ≡ width_of (front_sign bytes.now) bytes.now }
    ensures some { 0 < result.1 }
    ensures within { result.1 ≤ length bytes.now }
    ensures inside { IsInside bytes.now result.0 }
{
    let first = bytes[0];
    let second = if bytes.len() > 1 { bytes[1] } else { 0 };
    if first == b'+' {
        (Token::Plus, 1)
    } else if first == b'(' {
        (Token::Open, 1)
    } else if first == b')' {
        (Token::Close, 1)
    } else if first == b'>' && second == b'>' {
        (Token::Then, 2)
    } else if first == b'|' && second == b'>' {
        (Token::Else, 2)
    } else if first.is_ascii_lowercase() {
        name_at(bytes)
    } else {
        (Token::Other, 1)
    }
}

/// The name that the bytes begin with, or no sign where it is too long.
fn name_at(bytes: &[u8]) -> (Token, usize)
    requires { 0 < name_length bytes.now }
    ensures sign { seen bytes.now result.0 ≡ name_sign (name_length bytes.now) bytes.now }
    ensures width { result.1 ≡ width_of (name_sign (name_length bytes.now) bytes.now) bytes.now }
    ensures some { 0 < result.1 }
    ensures within { result.1 ≤ length bytes.now }
    ensures inside { IsInside bytes.now result.0 }
{
    let len = name_len(bytes);
    if len <= LONGEST_NAME {
        (Token::Name { len }, len)
    } else {
        (Token::Other, 1)
    }
}

/// How many bytes of a name the bytes begin with.
fn name_len(bytes: &[u8]) -> usize
    ensures length { result ≡ name_length bytes.now }
    ensures within { result ≤ length bytes.now }
{
    for (len, byte) in bytes.iter().enumerate() {
        if !is_name_byte(*byte) {
            return len;
        }
    }
    bytes.len()
}

fn is_name_byte(byte: u8) -> bool
    ensures { result ≡ is_name_byte byte }
{
    byte.is_ascii_lowercase() || byte.is_ascii_digit() || byte == b'_'
}
