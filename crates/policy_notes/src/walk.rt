//! The lines of a policy file, read for where things stand. What isn't written a key a line is passed over.
ghost use Rattle.std.specs.Prelude.{◌≡◌, ◌≤◌, ◌<◌, ◌+◌, length};

use crate::names::kind_named;
use policy_file::ItemKind;

/// A line of a policy file.
#[derive(Clone, Copy)]
pub(crate) struct Line<'a> {
    /// Where it begins.
    pub(crate) at: usize,
    /// The item in which it stands, and its number among those of its kind; none for the file's own keys.
    pub(crate) item: Option<ItemKind>,
    pub(crate) number: usize,
    /// Whether the item begins with it.
    pub(crate) begins: bool,
    /// The key that it gives a value, if it does.
    pub(crate) key: &'a str,
    pub(crate) value: &'a str,
}

/// The bytes from a place up to the next line feed.
fn line_at(text: &[u8], at: usize) -> &[u8]
    requires { at ≤ length text.now }
    ensures { at + length result.now ≤ length text.now }
{
    let rest = &text[at..];
    match rest.iter().position(|byte| *byte == b'\n') {
        Some(end) => &rest[..end],
        None => rest,
    }
}

/// The kind of item that a line begins, as `[[member]]`.
fn header(line: &str) -> Option<ItemKind> {
    let rest = line.strip_prefix("[[")?;
    let (name, _) = rest.split_once("]]")?;
    kind_named(name.trim_start().trim_end().as_bytes())
}

/// Whether a text is a key that needs no quotes.
fn is_bare(key: &str) -> bool {
    !key.is_empty()
        && key.as_bytes().iter().all(|byte| byte.is_ascii_alphanumeric()
            || *byte == b'_'
            || *byte == b'-')
}

/// Whether so many quotes stand in a text that none is open.
fn is_closed(text: &str) -> bool {
    let mut open = false;
    for byte in text.as_bytes() {
        if *byte == b'"' {
            open = !open;
        }
    }
    !open
}

/// A value without the remark behind it.
fn without_remark(value: &str) -> &str {
    match value.split_once(" #") {
        Some((before, _)) if is_closed(before) => before.trim_end(),
        _ => value,
    }
}

/// The key of a line and its value.
fn pair(line: &str) -> Option<(&str, &str)> {
    let (key, value) = line.split_once("=")?;
    let key = key.trim_end();
    if !is_bare(key) {
        return None;
    }
    Some((key, without_remark(value.trim_start())))
}

/// A reader of lines, which knows in which item it is.
#[derive(Drop)]
pub(crate) struct Walk<'a> {
    text: &'a [u8],
    at: usize,
    item: Option<ItemKind>,
    /// How many items of each kind have begun.
    counts: [usize; 5],
}

/// The place of a kind among the counts.
fn place_of(kind: ItemKind) -> usize
    ensures { result < 5 }
{
    match kind {
        ItemKind::Switch => 0,
        ItemKind::Cable => 1,
        ItemKind::Virtual => 2,
        ItemKind::Link => 3,
        ItemKind::Member => 4,
    }
}

impl<'a> Walk<'a> {
    pub(crate) fn new(text: &'a [u8]) -> Walk<'a> {
        Walk {
            text,
            at: 0,
            item: None,
            counts: [0; 5],
        }
    }

    /// The number of the item in which it is.
    fn number(&self) -> usize {
        match self.item {
            Some(kind) => self.counts[place_of(kind)].saturating_sub(1),
            None => 0,
        }
    }

    /// The next line, up to the end of the text.
    pub(crate) fn next(&mut self) -> Option<Line<'a>> {
        let at = self.at;
        if at >= self.text.len() {
            return None;
        }
        let bytes = line_at(self.text, at);
        self.at = at + bytes.len() + 1;
        let line = str::from_utf8(bytes).unwrap_or("").trim_start().trim_end();
        let kind = header(line);
        if let Some(kind) = kind {
            self.item = Some(kind);
            let count = self.counts[place_of(kind)].saturating_add(1);
            self.counts[place_of(kind)] = count;
        }
        let (key, value) = pair(line).unwrap_or(("", ""));
        Some(Line {
            at,
            item: self.item,
            number: self.number(),
            begins: kind.is_some(),
            key,
            value,
        })
    }
}
