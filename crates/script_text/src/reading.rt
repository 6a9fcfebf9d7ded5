//! From bytes to lines.
ghost use Rattle.std.specs.Prelude.{◌≡◌, ◌∷◌, []};
ghost use Rattle.std.specs.List.{list_all};
ghost use Rattle.cv_io.specs.Text.{IsAsciiText};
ghost use Rattle.script_text.specs.Reading.{Gives, hex_in, is_blank, line_in, place_in, said, session_in, switch_in};
ghost use Rattle.script_text.specs.Reading.{three_words, two_words};
ghost use Rattle.script_text.specs.Words.{is_visible, is_word, words};

use crate::fault::LineFault;
use crate::form::{Form, Verb, is_text};
use crate::line::Line;
use crate::name::{is_member, is_name, is_session, place_of};
use crate::number::decimal_number;
use cv_io::{Bytes, Memory, Text};
use hex::FromHexError;
use std::alloc::Global;

/// The longest text of an expression.
const EXPRESSION: usize = 1024;

/// The shortest and the longest packet that comes in.
const SHORTEST: usize = 14;

const LONGEST: usize = 65_513;

/// What a line says, which is given without its line feed, or its first fault. A form of the program
/// doesn't know each line; of one that it doesn't know the fault is the word.
pub fn read_line(alloc: Global, form: Form, line: &[u8]) -> Result<Line, LineFault>
    ensures { Gives result (line_in form line.now) }
{
    if is_blank(line) {
        return Ok(Line::Blank);
    }
    let Some(at) = place_of(line, b' ') else {
        return Err(LineFault::Word);
    };
    let (first, rest) = line.split_at(at);
    let (_, rest) = rest.split_at(1);
    read_words(alloc, form, first, rest)
}

fn is_blank(line: &[u8]) -> bool
    ensures { result ≡ is_blank line.now }
{
    line.is_empty() || line[0] == b'#'
}

/// What a line says of a first word and what stands behind the blank after it.
fn read_words(alloc: Global, form: Form, first: &[u8], rest: &[u8]) -> Result<Line, LineFault>
    ensures { Gives result (said form (first.now ∷ words rest.now)) }
{
    let Some(at) = place_of(rest, b' ') else {
        return read_two(alloc, form, first, rest);
    };
    let (second, rest) = rest.split_at(at);
    let (_, third) = rest.split_at(1);
    read_three(alloc, form, first, second, third)
}

/// What a line of two words says.
fn read_two(alloc: Global, form: Form, first: &[u8], second: &[u8]) -> Result<Line, LineFault>
    ensures { Gives result (said form (first.now ∷ second.now ∷ [])) }
{
    if !is_word(first) {
        return Err(LineFault::Word);
    }
    if !is_word(second) {
        return Err(LineFault::Word);
    }
    match form.verb(first) {
        Some(verb) => two_words(alloc, verb, second),
        None => Err(LineFault::Word),
    }
}

/// What a line says of two words and what stands behind them.
fn read_three(
    alloc: Global,
    form: Form,
    first: &[u8],
    second: &[u8],
    third: &[u8],
) -> Result<Line, LineFault>
    ensures { Gives result (said form (first.now ∷ second.now ∷ words third.now)) }
{
    if !is_word(first) {
        return Err(LineFault::Word);
    }
    if !is_word(second) {
        return Err(LineFault::Word);
    }
    if !is_word(third) {
        return Err(LineFault::Word);
    }
    match form.verb(first) {
        Some(verb) => three_words(alloc, form, verb, second, third),
        None => Err(LineFault::Word),
    }
}

/// Whether it is one byte of printable ASCII other than a blank, or more.
fn is_word(word: &[u8]) -> bool
    ensures { result ≡ is_word word.now }
{
    !word.is_empty() && are_visible(word)
}

fn are_visible(word: &[u8]) -> bool
    ensures { result ≡ list_all is_visible word.now }
{
    word.iter().all(|byte| is_visible(*byte))
}

fn is_visible(byte: u8) -> bool
    ensures { result ≡ is_visible byte }
{
    (b'!'..=b'~').contains(&byte)
}

/// What a line of two words says, behind its first.
fn two_words(alloc: Global, verb: Verb, word: &[u8]) -> Result<Line, LineFault>
    requires { IsAsciiText word.now }
    ensures { Gives result (two_words verb word.now) }
{
    match verb {
        Verb::Up => Ok(Line::Up {
            name: session_name(alloc, word)?,
            noarp: false,
        }),
        Verb::Gone => Ok(Line::Gone {
            name: session_name(alloc, word)?,
        }),
        Verb::Tick => match decimal_number(word, u64::MAX) {
            Some(second) => Ok(Line::Tick { second }),
            None => Err(LineFault::Number),
        },
        _ => Err(LineFault::Word),
    }
}

/// What a line of three words says, behind its first.
fn three_words(
    alloc: Global,
    form: Form,
    verb: Verb,
    word: &[u8],
    last: &[u8],
) -> Result<Line, LineFault>
    requires word { IsAsciiText word.now }
    requires last { IsAsciiText last.now }
    ensures { Gives result (three_words form verb word.now last.now) }
{
    match verb {
        Verb::Up => {
            if form.is_sim() || is_member(word) || !is_text(last, "noarp") {
                return Err(LineFault::Word);
            }
            let name = session_name(alloc, word)?;
            Ok(Line::Up { name, noarp: true })
        }
        Verb::From => {
            if form.is_sim() && is_name(word) {
                return Err(LineFault::Word);
            }
            let name = session_name(alloc, word)?;
            let bytes = hex_bytes(alloc, last)?;
            Ok(Line::From { name, bytes })
        }
        Verb::Expr => {
            if last.len() > EXPRESSION {
                return Err(LineFault::Word);
            }
            let name = switch_name(alloc, word)?;
            let text = Text::from_slice(alloc, last)?;
            Ok(Line::Expr { name, text })
        }
        Verb::Ask => {
            let (switch, port) = place(alloc, word)?;
            let bytes = hex_bytes(alloc, last)?;
            Ok(Line::Ask {
                switch,
                port,
                bytes,
            })
        }
        Verb::Packet => {
            let (switch, port) = place(alloc, word)?;
            let bytes = hex_bytes(alloc, last)?;
            if bytes.len() < SHORTEST || bytes.len() > LONGEST {
                return Err(LineFault::Hex);
            }
            Ok(Line::Packet {
                switch,
                port,
                bytes,
            })
        }
        Verb::Gone | Verb::Tick => Err(LineFault::Word),
    }
}

/// The name of a session.
fn session_name(alloc: Global, word: &[u8]) -> Result<Text, LineFault>
    requires { IsAsciiText word.now }
    ensures { Gives result (session_in word.now) }
{
    if is_session(word) {
        Ok(Text::from_slice(alloc, word)?)
    } else {
        Err(LineFault::Name)
    }
}

/// The name of a switch or of a virtual switch.
fn switch_name(alloc: Global, word: &[u8]) -> Result<Text, LineFault>
    requires { IsAsciiText word.now }
    ensures { Gives result (switch_in word.now) }
{
    if is_name(word) {
        Ok(Text::from_slice(alloc, word)?)
    } else {
        Err(LineFault::Name)
    }
}

/// The switch and the port of a place `SWITCH:PORT`.
fn place(alloc: Global, word: &[u8]) -> Result<(Text, u16), LineFault>
    requires { IsAsciiText word.now }
    ensures { Gives result (place_in word.now) }
{
    let Some(at) = place_of(word, b':') else {
        return Err(LineFault::Name);
    };
    let (switch, rest) = word.split_at(at);
    let (_, port) = rest.split_at(1);
    let Some(port) = decimal_number(port, 65535) else {
        return Err(LineFault::Name);
    };
    let switch = switch_name(alloc, switch)?;
    Ok((switch, port as u16))
}

/// The bytes of hexadecimal digits, of which there is at least one.
fn hex_bytes(alloc: Global, digits: &[u8]) -> Result<Bytes, LineFault>
    ensures { Gives result (hex_in digits.now) }
{
    match hex::decode(alloc, digits) {
        Ok(bytes) if bytes.len() > 0 => Ok(Bytes::from_vec(bytes)),
        Err(FromHexError::OutOfMemory) => Err(LineFault::Memory),
        _ => Err(LineFault::Hex),
    }
}
