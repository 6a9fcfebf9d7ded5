//! Where a fault stands in the text of a policy file.
ghost use Rattle.std.specs.Prelude.{◌≡◌, ◌≤◌, IfOk, length};
ghost use Rattle.policy_notes.specs.Places.{IsLineOf, IsPlaceIn, feeds as feeds_of, line_of};

use crate::places::Place;
use crate::search::{
    controllers, find, first_mention, item_called, last_mention, read_name, unquoted, virtuals,
};
use crate::showing::beginning;
use crate::walk::Line;
use cv_io::{Memory, Text};
use policies::PolicyFault;
use policy_file::{ItemKind, Version};
use script_text::is_name;
use std::alloc::Global;
use virtual_topology::TopologyFault;

/// The most characters that are shown of a value.
const SHOWN: usize = 40;

/// And of what the reader of TOML says.
const MESSAGE: usize = 100;

/// How many line feeds there are.
fn feeds(text: &[u8]) -> usize
    ensures { result ≡ feeds_of text.now }
{
    let mut count = 0;
    for byte in text {
        if *byte == b'\n' {
            count += 1;
        }
    }
    count
}

/// The number, from 1, of the line on which a byte stands.
fn line_number(text: &[u8], at: usize) -> u64
    requires { at ≤ length text.now }
    ensures { result ≡ line_of text.now at }
{
    feeds(&text[..at]) as u64 + 1
}

/// Its column, from 1.
fn column(text: &[u8], at: usize) -> u64
    requires { at ≤ length text.now }
{
    match text[..at].iter().rposition(|byte| *byte == b'\n') {
        Some(feed) => (at - feed) as u64,
        None => at as u64 + 1,
    }
}

/// No line that is known.
fn nowhere(alloc: Global) -> Place
    ensures { result.line ≡ 0 }
{
    Place {
        line: 0,
        column: 0,
        item: None,
        version: None,
        written: Text::new(alloc),
        others: Text::new(alloc),
        taken: false,
    }
}

/// The number of the line on which a byte stands; 0 where there is no such byte.
fn line_at(text: &[u8], at: usize) -> u64
    ensures { IsLineOf text.now result }
{
    if at <= text.len() {
        line_number(text, at)
    } else {
        0
    }
}

/// A line of the text.
fn on(alloc: Global, text: &[u8], line: Line<'_>) -> Result<Place, Memory>
    ensures { IfOk result (IsPlaceIn text.now) }
{
    let written = beginning(alloc, line.value.as_bytes(), SHOWN)?;
    Ok(Place {
        line: line_at(text, line.at),
        column: 0,
        item: line.item,
        version: None,
        written,
        others: Text::new(alloc),
        taken: false,
    })
}

/// The line, if there is one.
fn on_some(alloc: Global, text: &[u8], line: Option<Line<'_>>) -> Result<Place, Memory>
    ensures { IfOk result (IsPlaceIn text.now) }
{
    match line {
        Some(line) => on(alloc, text, line),
        None => Ok(nowhere(alloc)),
    }
}

/// Where the syntax is at fault, and what the reader of TOML says of it.
fn syntax(alloc: Global, text: &[u8]) -> Result<Place, Memory>
    ensures { IfOk result (IsPlaceIn text.now) }
{
    let mut place = nowhere(alloc);
    let Err(fault) = toml::de::table_from_slice(alloc, text) else {
        return Ok(place);
    };
    let Some(span) = fault.span() else {
        return Err(Memory);
    };
    place.written = beginning(alloc, fault.message().as_bytes(), MESSAGE)?;
    let at = span.start.min(text.len());
    place.line = line_number(text, at);
    place.column = column(text, at);
    Ok(place)
}

/// The version that a file names.
fn version(text: &[u8]) -> Option<Version> {
    let line = find(text, None, 0, "version")?;
    match line.value {
        "1" => Some(Version::One),
        "2" => Some(Version::Two),
        _ => None,
    }
}

/// Whether a value is such as its key wants, so that another item has it.
fn is_taken(key: &str, value: &str) -> bool {
    let value = unquoted(value).as_bytes();
    match key {
        "name" | "controller" => is_name(value),
        "dpid" => value.len() == 16 && value.iter().all(|byte| byte.is_ascii_hexdigit()),
        _ => false,
    }
}

/// Where a key of this name stands, or the item that lacks it.
fn key_place(alloc: Global, text: &[u8], name: &Text) -> Result<Place, Memory>
    ensures { IfOk result (IsPlaceIn text.now) }
{
    let named = read_name(name.as_bytes());
    let found = find(text, named.item, named.number, named.key);
    let mut place = on_some(alloc, text, found)?;
    place.item = named.item;
    place.version = version(text);
    place.taken = match found {
        Some(line) => is_taken(line.key, line.value),
        None => false,
    };
    if named.key == "virtual" {
        place.others = virtuals(alloc, text)?;
    }
    Ok(place)
}

/// Where the expression of a virtual switch stands.
fn expression_place(alloc: Global, text: &[u8], name: &Text) -> Result<Place, Memory>
    ensures { IfOk result (IsPlaceIn text.now) }
{
    let name = name_of(name);
    let found = match item_called(text, ItemKind::Virtual, name) {
        Some(number) => find(text, Some(ItemKind::Virtual), number, "expr"),
        None => None,
    };
    let mut place = on_some(alloc, text, found)?;
    place.others = controllers(alloc, text, name)?;
    Ok(place)
}

/// Where an item of this name stands: a physical switch, else a virtual one.
fn switch_line<'a>(text: &'a [u8], name: &str, key: &str) -> Option<Line<'a>> {
    match item_called(text, ItemKind::Switch, name) {
        Some(number) => find(text, Some(ItemKind::Switch), number, key),
        None => {
            let number = item_called(text, ItemKind::Virtual, name)?;
            find(text, Some(ItemKind::Virtual), number, key)
        }
    }
}

/// Where a port stands, as NAME:PORT: at its last use, or its first; else the ports of its switch.
fn port_line<'a>(text: &'a [u8], port: &str, last: bool) -> Option<Line<'a>> {
    let found = if last {
        last_mention(text, port)
    } else {
        first_mention(text, port)
    };
    match (found, port.split_once(":")) {
        (Some(line), _) => Some(line),
        (None, Some((name, _))) => switch_line(text, name, "ports"),
        (None, None) => None,
    }
}

/// Where a fault of the topology stands.
fn topology_line<'a>(text: &'a [u8], fault: &TopologyFault) -> Option<Line<'a>> {
    match fault {
        TopologyFault::PortTwice { name } => port_line(text, name_of(name), true),
        TopologyFault::Unknown { name } | TopologyFault::LinkShape { name } => {
            port_line(text, name_of(name), false)
        }
        TopologyFault::Mixed { name } => {
            let number = item_called(text, ItemKind::Virtual, name_of(name))?;
            find(text, Some(ItemKind::Virtual), number, "ports")
        }
        TopologyFault::TooMany { name, .. } => match name_of(name).split_once(":") {
            Some(_) => port_line(text, name_of(name), false),
            None => switch_line(text, name_of(name), "name"),
        },
        TopologyFault::Memory => None,
    }
}

/// A text as std has it.
fn name_of(name: &Text) -> &str {
    str::from_utf8(name.as_bytes()).unwrap_or("")
}

/// Where the fault of the text of a policy file stands: the line of the key or of the item that it names, as far as each
/// is written on a line of its own.
pub fn find_place(alloc: Global, text: &[u8], fault: &PolicyFault) -> Result<Place, Memory>
    ensures { IfOk result (IsPlaceIn text.now) }
{
    match fault {
        PolicyFault::Syntax => syntax(alloc, text),
        PolicyFault::Key { name } | PolicyFault::Missing { name } | PolicyFault::Value { name } => {
            key_place(alloc, text, name)
        }
        PolicyFault::Expr { name, .. } | PolicyFault::TooWide { name, .. } => {
            expression_place(alloc, text, name)
        }
        PolicyFault::Topology { fault } => on_some(alloc, text, topology_line(text, fault)),
        PolicyFault::Long | PolicyFault::Paths { .. } | PolicyFault::Memory => Ok(nowhere(alloc)),
    }
}
