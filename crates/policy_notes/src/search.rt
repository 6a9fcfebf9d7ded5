//! Keys and items that are looked for in the text of a policy file.
use crate::names::kind_named;
use crate::walk::{Line, Walk};
use cv_io::{Memory, Text};
use policies::push_word;
use policy_file::ItemKind;
use std::alloc::Global;

/// A text without the quotes round it.
pub(crate) fn unquoted(value: &str) -> &str {
    let Some(rest) = value.strip_prefix("\"") else {
        return value;
    };
    rest.strip_suffix("\"").unwrap_or(rest)
}

/// What the name of a fault names.
#[derive(Clone, Copy)]
pub(crate) struct Named<'a> {
    pub(crate) item: Option<ItemKind>,
    pub(crate) number: usize,
    /// The key; of an item itself none.
    pub(crate) key: &'a str,
}

/// What a name of a fault names, as `member[0].bits`.
pub(crate) fn read_name(name: &[u8]) -> Named<'_> {
    let name = str::from_utf8(name).unwrap_or("");
    let Some((kind, rest)) = name.split_once("[") else {
        return Named {
            item: None,
            number: 0,
            key: name,
        };
    };
    let (number, behind) = rest.split_once("]").unwrap_or((rest, ""));
    Named {
        item: kind_named(kind.as_bytes()),
        number: number.parse::<usize>().unwrap_or(0),
        key: behind.strip_prefix(".").unwrap_or(""),
    }
}

/// The line that gives a key of an item a value, else the one that begins the item.
pub(crate) fn find<'a>(
    text: &'a [u8],
    item: Option<ItemKind>,
    number: usize,
    key: &str,
) -> Option<Line<'a>> {
    let mut walk = Walk::new(text);
    let mut header = None;
    for _ in 0..=text.len() {
        let Some(line) = walk.next() else {
            break;
        };
        if line.item == item && line.number == number {
            if line.begins {
                header = Some(line);
            } else if !key.is_empty() && line.key == key {
                return Some(line);
            }
        }
    }
    header
}

/// The number of the item of a kind that has a name.
pub(crate) fn item_called(text: &[u8], kind: ItemKind, name: &str) -> Option<usize> {
    let mut walk = Walk::new(text);
    for _ in 0..=text.len() {
        let line = walk.next()?;
        if line.item == Some(kind) && line.key == "name" && unquoted(line.value) == name {
            return Some(line.number);
        }
    }
    None
}

/// Whether a line names a port, as NAME:PORT, at the end of a text.
fn mentions(line: Line<'_>, port: &str) -> bool {
    match line.value.split_once(port) {
        Some((_, behind)) => behind.starts_with("\""),
        None => false,
    }
}

/// The first line that names a port.
pub(crate) fn first_mention<'a>(text: &'a [u8], port: &str) -> Option<Line<'a>> {
    let mut walk = Walk::new(text);
    for _ in 0..=text.len() {
        let line = walk.next()?;
        if mentions(line, port) {
            return Some(line);
        }
    }
    None
}

/// The last line that names it.
pub(crate) fn last_mention<'a>(text: &'a [u8], port: &str) -> Option<Line<'a>> {
    let mut walk = Walk::new(text);
    let mut last = None;
    for _ in 0..=text.len() {
        let Some(line) = walk.next() else {
            break;
        };
        if mentions(line, port) {
            last = Some(line);
        }
    }
    last
}

/// Appends a name behind those that are there.
fn push_name(names: &mut Text, name: &str) -> Result<(), Memory> {
    if !names.is_empty() {
        names.push(b',')?;
        names.push(b' ')?;
    }
    push_word(names, name.as_bytes())
}

/// The names of the virtual switches.
pub(crate) fn virtuals(alloc: Global, text: &[u8]) -> Result<Text, Memory> {
    let mut names = Text::new(alloc);
    let mut walk = Walk::new(text);
    for _ in 0..=text.len() {
        let Some(line) = walk.next() else {
            break;
        };
        if line.item == Some(ItemKind::Virtual) && line.key == "name" {
            push_name(&mut names, unquoted(line.value))?;
        }
    }
    Ok(names)
}

/// The controllers at a virtual switch.
pub(crate) fn controllers(alloc: Global, text: &[u8], name: &str) -> Result<Text, Memory> {
    let mut names = Text::new(alloc);
    let mut walk = Walk::new(text);
    for _ in 0..=text.len() {
        let Some(line) = walk.next() else {
            break;
        };
        if line.item == Some(ItemKind::Member)
            && line.key == "virtual"
            && unquoted(line.value) == name
        {
            let member = find(text, Some(ItemKind::Member), line.number, "controller");
            push_name(&mut names, member.map_or("", |line| unquoted(line.value)))?;
        }
    }
    Ok(names)
}
