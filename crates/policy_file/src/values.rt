//! Values of keys.
ghost use Rattle.std.specs.Prelude.{◌≡◌, ◌==◌, true, Some, None, if◌then◌else◌, ◌<◌, ◌≤◌, ◌&&◌, IfOk, IfSome, length};
ghost use Rattle.std.specs.Prelude.{position, option_map};
ghost use Rattle.cv_io.specs.Text.{IsAsciiText};
ghost use Rattle.std.specs.Char.{is_ascii};
ghost use Rattle.std.specs.List.{list_all};
ghost use Rattle.toml.specs.View.{view};
ghost use Rattle.policy_file.specs.Values.{number as number_of, if_fits};
ghost use Rattle.policies.specs.Names.{is_printable as is_printable_of};
ghost use Rattle.policy_file.specs.Values.{address as address_of};
ghost use Rattle.policies.specs.Names.{is_address as is_address_of};
ghost use Rattle.policy_file.specs.Values.{name as name_of};
ghost use Rattle.policies.specs.Names.{is_name_byte as is_name_byte_of, is_name as is_name_of};
ghost use Rattle.policy_file.specs.Values.{expression as expression_of, digit as digit_of};
ghost use Rattle.policy_file.specs.Values.{hexadecimal as hexadecimal_of, dpid as dpid_of, decimal_of};
ghost use Rattle.policy_file.specs.Values.{decimal_digit as decimal_digit_of, is_short as is_short_of};
ghost use Rattle.policy_file.specs.Values.{decimal_within as decimal_within_of, split_at_first as split_at_first_of};
ghost use Rattle.policy_file.specs.Values.{place as place_of, port_place as port_place_of};
ghost use Rattle.policy_file.specs.Values.{virtual_port as virtual_port_of, port as port_of, ports as ports_of};
ghost use Rattle.policy_file.specs.Values.{are_distinct as are_distinct_by, if_distinct as if_distinct_by};
ghost use Rattle.std.specs.BTreeSet.{IsFromIterResult};
ghost use Rattle.std.specs.Ordering.{eq_by_cmp};
ghost use Rattle.toml.specs.Data.{same_key};

use crate::tables::list;
use cv_io::{List, Memory, Text};
use std::alloc::Global;
use std::collections::BTreeSet;
use toml::Value;
use virtual_topology::{PortPlace, VirtualPort};

/// The greatest number of a port (OpenFlow 1.0, section 5.2.1).
const GREATEST_PORT: u32 = 0xfeff;

/// A number in a range.
pub(crate) fn number(value: &Value, least: u32, greatest: u32) -> Option<u32>
    ensures { result ≡ number_of least greatest (view value.now) }
{
    match value.as_integer() {
        Some(number) if i64::from(least) <= number && number <= i64::from(greatest) => {
            Some(number as u32)
        }
        _ => None,
    }
}

/// Whether two texts have the same bytes.
pub(crate) fn are_same(word: &[u8], other: &[u8]) -> bool
    ensures { result ≡ same_key word.now other.now }
{
    word == other
}

/// Whether each byte is ASCII.
fn are_ascii(word: &[u8]) -> bool
    ensures { result ≡ list_all is_ascii word.now }
{
    word.iter().all(|byte| byte.is_ascii())
}

/// A text that passes a test, which no text beyond ASCII passes.
fn text_if(alloc: Global, word: &str, fits: bool) -> Result<Option<Text>, Memory>
    requires { fits ≡ true → IsAsciiText word.now }
    ensures { IfOk result (λ t. t ≡ (if fits then Some word.now else None)) }
{
    if fits {
        Ok(Some(Text::from_slice(alloc, word.as_bytes())?))
    } else {
        Ok(None)
    }
}

/// A text of ASCII.
#[tactic(auto, using(crate::proofs::Texts::ascii_all))]
pub(crate) fn ascii(alloc: Global, word: &str) -> Result<Option<Text>, Memory>
    ensures { IfOk result (λ t. t ≡ if_fits (list_all is_ascii) word.now) }
{
    text_if(alloc, word, are_ascii(word.as_bytes()))
}

fn is_printable(byte: u8) -> bool
    ensures { result ≡ is_printable_of byte }
{
    byte == b' ' || byte.is_ascii_graphic()
}

fn are_printable(word: &[u8]) -> bool
    ensures { result ≡ list_all is_printable_of word.now }
{
    word.iter().all(|byte| is_printable(*byte))
}

/// Whether it is 1 to 64 bytes of printable ASCII.
fn is_address(word: &[u8]) -> bool
    ensures { result ≡ is_address_of word.now }
{
    !word.is_empty() && word.len() <= 64 && are_printable(word)
}

/// An address of the network: 1 to 64 bytes of printable ASCII.
#[tactic(auto, using(crate::proofs::Texts::ascii_address))]
pub(crate) fn address(alloc: Global, value: &Value) -> Result<Option<Text>, Memory>
    ensures { IfOk result (λ t. t ≡ address_of (view value.now)) }
{
    match value.as_str() {
        Some(word) => text_if(alloc, word, is_address(word.as_bytes())),
        None => Ok(None),
    }
}

fn is_name_byte(byte: u8) -> bool
    ensures { result ≡ is_name_byte_of byte }
{
    byte.is_ascii_lowercase() || byte.is_ascii_digit() || byte == b'_'
}

fn are_name_bytes(word: &[u8]) -> bool
    ensures { result ≡ list_all is_name_byte_of word.now }
{
    word.iter().all(|byte| is_name_byte(*byte))
}

/// Whether it is a letter a to z and up to 15 of a to z, 0 to 9 and `_`.
pub(crate) fn is_name(word: &[u8]) -> bool
    ensures { result ≡ is_name_of word.now }
{
    match word {
        [first, rest @ ..] => {
            first.is_ascii_lowercase() && rest.len() < 16 && are_name_bytes(rest)
        }
        [] => false,
    }
}

/// A name.
#[tactic(auto, using(crate::proofs::Texts::ascii_name))]
pub(crate) fn name(alloc: Global, value: &Value) -> Result<Option<Text>, Memory>
    ensures { IfOk result (λ t. t ≡ name_of (view value.now)) }
{
    match value.as_str() {
        Some(word) => text_if(alloc, word, is_name(word.as_bytes())),
        None => Ok(None),
    }
}

/// A text of ASCII as an expression has; whether it is one is asked later.
pub(crate) fn expression(alloc: Global, value: &Value) -> Result<Option<Text>, Memory>
    ensures { IfOk result (λ t. t ≡ expression_of (view value.now)) }
{
    match value.as_str() {
        Some(word) => ascii(alloc, word),
        None => Ok(None),
    }
}

/// The value of a hexadecimal digit, of either case.
pub(crate) fn digit(byte: u8) -> Option<u8>
    ensures value { result ≡ digit_of byte }
    ensures below { IfSome result (λ d. d < 16) }
{
    match byte {
        b'0'..=b'9' => Some(byte - b'0'),
        b'a'..=b'f' => Some(byte - b'a' + 10),
        b'A'..=b'F' => Some(byte - b'A' + 10),
        _ => None,
    }
}

/// The number of hexadecimal digits, at most 16 of them.
pub(crate) fn hexadecimal(digits: &[u8]) -> Option<u64>
    requires { length digits.now ≤ 16 }
    ensures value { result ≡ hexadecimal_of digits.now }
{
    let mut number: u64 = 0;
    for byte in digits {
        match digit(*byte) {
            Some(digit) => number = number * 16 + u64::from(digit),
            None => return None,
        }
    }
    Some(number)
}

/// A datapath id: a text of 16 hexadecimal digits.
pub(crate) fn dpid(value: &Value) -> Option<u64>
    ensures { result ≡ dpid_of (view value.now) }
{
    let word = value.as_str()?.as_bytes();
    if word.len() == 16 {
        hexadecimal(word)
    } else {
        None
    }
}

/// The value of a decimal digit.
fn decimal_digit(byte: u8) -> Option<u8>
    ensures value { result ≡ decimal_digit_of byte }
    ensures below { IfSome result (λ d. d < 10) }
{
    if byte.is_ascii_digit() {
        Some(byte - b'0')
    } else {
        None
    }
}

/// Whether they are one to five, without a zero before others.
fn is_short(digits: &[u8]) -> bool
    ensures { result ≡ is_short_of digits.now }
{
    match digits {
        [] => false,
        [_] => true,
        [first, ..] => *first != b'0' && digits.len() <= 5,
    }
}

/// The number of decimal digits, at most five of them and without a zero in front.
pub(crate) fn decimal(digits: &[u8]) -> Option<u32>
    ensures { result ≡ decimal_of digits.now }
{
    if !is_short(digits) {
        return None;
    }
    let mut number: u32 = 0;
    for byte in digits {
        match decimal_digit(*byte) {
            Some(digit) => number = number * 10 + u32::from(digit),
            None => return None,
        }
    }
    Some(number)
}

/// A number in a range, in decimal digits.
pub(crate) fn decimal_within(digits: &[u8], least: u32, greatest: u32) -> Option<u32>
    ensures value { result ≡ decimal_within_of least greatest digits.now }
    ensures within { IfSome result (λ n. n ≤ greatest) }
{
    decimal(digits).filter(|number| least <= *number && *number <= greatest)
}

/// The place of the first such byte.
fn place_of_byte(word: &[u8], byte: u8) -> Option<usize>
    ensures place { result ≡ position (λ other. other == byte) word.now }
    ensures within { IfSome result (λ at. at < length word.now) }
{
    word.iter().position(|other| *other == byte)
}

/// What stands before the first such byte, and what after it.
pub(crate) fn split_at_first(word: &[u8], byte: u8) -> Option<(&[u8], &[u8])>
    ensures { option_map (λ p. (p.0.now, p.1.now)) result ≡ split_at_first_of byte word.now }
{
    match place_of_byte(word, byte) {
        Some(at) => Some((&word[..at], &word[at + 1..])),
        None => None,
    }
}

/// A port of a switch: NAME:PORT, with a PORT up to 65535.
#[tactic(auto, using(crate::proofs::Texts::ascii_name))]
fn place(alloc: Global, word: &[u8]) -> Result<Option<PortPlace>, Memory>
    ensures { IfOk result (λ p. p ≡ place_of word.now) }
{
    let Some((name, digits)) = split_at_first(word, b':') else {
        return Ok(None);
    };
    let Some(port) = decimal_within(digits, 0, 0xffff) else {
        return Ok(None);
    };
    if !is_name(name) {
        return Ok(None);
    }
    Ok(Some(PortPlace {
        name: Text::from_slice(alloc, name)?,
        port: port as u16,
    }))
}

/// A port of a switch.
pub(crate) fn port_place(alloc: Global, value: &Value) -> Result<Option<PortPlace>, Memory>
    ensures { IfOk result (λ p. p ≡ port_place_of (view value.now)) }
{
    match value.as_str() {
        Some(word) => place(alloc, word.as_bytes()),
        None => Ok(None),
    }
}

/// A port of a virtual switch: N=SWITCH:PORT or N=link.
pub(crate) fn virtual_port(alloc: Global, word: &[u8]) -> Result<Option<VirtualPort>, Memory>
    ensures { IfOk result (λ p. p ≡ virtual_port_of word.now) }
{
    let Some((digits, rest)) = split_at_first(word, b'=') else {
        return Ok(None);
    };
    let Some(port) = decimal_within(digits, 1, GREATEST_PORT) else {
        return Ok(None);
    };
    let port = port as u16;
    if are_same(rest, b"link") {
        return Ok(Some(VirtualPort { port, at: None }));
    }
    Ok(place(alloc, rest)?.map(|place| VirtualPort {
        port,
        at: Some(place),
    }))
}

/// The number of a port.
pub(crate) fn port(value: &Value) -> Option<u16>
    ensures { result ≡ port_of (view value.now) }
{
    match number(value, 1, GREATEST_PORT) {
        Some(port) => Some(port as u16),
        None => None,
    }
}

/// A set of these.
fn set_of<T: Ord + Copy>(alloc: Global, items: &[T]) -> Result<BTreeSet<T>, Memory>
    ensures { IfOk result (IsFromIterResult T.cmp items.now) }
{
    Ok(items.iter().copied().collect(alloc)?)
}

/// Whether no two are equal.
pub(crate) fn are_distinct<T: Ord + Copy>(alloc: Global, items: &[T]) -> Result<bool, Memory>
    ensures { IfOk result (λ distinct. distinct ≡ are_distinct_by (eq_by_cmp T.cmp) items.now) }
{
    let set = set_of(alloc, items)?;
    Ok(set.len() == items.len())
}

/// These ports, if no two are equal.
#[tactic(auto, using(crate::proofs::Distinct::distinct_numbers))]
fn if_distinct(alloc: Global, ports: List<u16>) -> Result<Option<List<u16>>, Memory>
    ensures { IfOk result (λ kept. kept ≡ if_distinct_by (λ a b. a == b) ports) }
{
    if are_distinct(alloc, ports.as_slice())? {
        Ok(Some(ports))
    } else {
        Ok(None)
    }
}

/// The numbers of a list of ports, each once.
pub(crate) fn ports(alloc: Global, value: &Value) -> Result<Option<List<u16>>, Memory>
    ensures { IfOk result (λ ports. ports ≡ ports_of (view value.now)) }
{
    let Some(items) = list(value) else {
        return Ok(None);
    };
    let mut ports = List::new(alloc);
    for item in items {
        match port(item) {
            Some(port) => ports.push(port)?,
            None => return Ok(None),
        }
    }
    if_distinct(alloc, ports)
}
