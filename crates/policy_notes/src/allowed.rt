//! What a key of a policy file may hold, and which keys there are.
ghost use Rattle.std.specs.Prelude.{◌≡◌, ◌++◌, ◌∷◌, [], IfOk, IsTrue, OnOk, map};
ghost use Rattle.std.specs.List.{list_all};
ghost use Rattle.policy_file.specs.Listed.{may_stand as may_stand_of};
ghost use Rattle.policy_file.specs.Shown.{shown_row};
ghost use Rattle.policy_notes.specs.Allowed.{allowed as allowed_of, allowed_in_item as allowed_in_item_of};
ghost use Rattle.policy_notes.specs.Allowed.{allowed_in_member as allowed_in_member_of};
ghost use Rattle.policy_notes.specs.Allowed.{allowed_in_rights as allowed_in_rights_of, keys as keys_of, more_keys};
ghost use Rattle.policy_notes.specs.Allowed.{ports_allowed as ports_allowed_of, rows_in, version_text as version_text_of};
ghost use Rattle.script_text.specs.Lines.{is_ascii};

use cv_io::{Memory, Text};
use policies::push_word;
use policy_file::{ItemKind, KeyRow, TOP_KEYS, Version};
use script_text::form::is_text;
use script_text::say;
use std::alloc::Global;

/// What the key may hold, by its kind of item.
#[tactic(auto, unfolding(crate::specs::Allowed::allowed))]
pub(crate) fn allowed(item: Option<ItemKind>, key: &[u8]) -> &'static str
    ensures text { result.now ≡ allowed_of item key.now }
    ensures ascii { IsTrue (list_all is_ascii result.now) }
{
    if is_text(key, "version") {
        "1 or 2"
    } else if is_text(key, "hops") {
        "a number from 1 to 4"
    } else if is_text(key, "rounds") {
        "a number from 1 to 1,000,000"
    } else if is_text(key, "listen") {
        "a text of 1 to 64 printable characters, as 127.0.0.1:6633"
    } else if is_text(key, "standby") {
        "a text of 1 to 64 printable characters, as 10.0.0.2:6653"
    } else if is_text(key, "address") {
        "a text of 1 to 64 printable characters, as 127.0.0.1:6634"
    } else if is_text(key, "ports") {
        ports_allowed(item)
    } else {
        allowed_in_item(key)
    }
}

/// The ports that an item lists.
#[tactic(auto, unfolding(crate::specs::Allowed::ports_allowed))]
fn ports_allowed(item: Option<ItemKind>) -> &'static str
    ensures text { result.now ≡ ports_allowed_of item }
    ensures ascii { IsTrue (list_all is_ascii result.now) }
{
    match item {
        Some(ItemKind::Virtual) =>
            "a list of N=SWITCH:PORT or N=link, each once, with N from 1 to 65279",
        Some(ItemKind::Member) => "a list of ports of the virtual switch, each once",
        Some(ItemKind::Switch | ItemKind::Cable | ItemKind::Link) | None => {
            "a list of numbers from 1 to 65279, each once"
        }
    }
}

/// The same of the keys of switches and pairs.
#[tactic(auto, unfolding(crate::specs::Allowed::allowed_in_item))]
fn allowed_in_item(key: &[u8]) -> &'static str
    ensures text { result.now ≡ allowed_in_item_of key.now }
    ensures ascii { IsTrue (list_all is_ascii result.now) }
{
    if is_text(key, "name") {
        "a letter a to z and up to 15 of a to z, 0 to 9 and _"
    } else if is_text(key, "dpid") {
        "a text of 16 hexadecimal digits"
    } else if is_text(key, "expr") {
        "a text in ASCII, as \"monitor + router\""
    } else if is_text(key, "a") || is_text(key, "b") {
        "a text NAME:PORT, as \"s1:4\""
    } else {
        allowed_in_member(key)
    }
}

/// The same of the keys of members.
#[tactic(auto, unfolding(crate::specs::Allowed::allowed_in_member))]
fn allowed_in_member(key: &[u8]) -> &'static str
    ensures text { result.now ≡ allowed_in_member_of key.now }
    ensures ascii { IsTrue (list_all is_ascii result.now) }
{
    if is_text(key, "bits") {
        "a number from 2 to 15"
    } else if is_text(key, "entries") {
        "a number from 1 to 4,096"
    } else if is_text(key, "controller") {
        "a letter a to z and up to 15 of a to z, 0 to 9 and _"
    } else if is_text(key, "virtual") {
        "the name of a virtual switch"
    } else if is_text(key, "actions") {
        "a list of kinds of action, each once"
    } else {
        allowed_in_rights(key)
    }
}

/// The same of the keys that say what members see.
#[tactic(auto, unfolding(crate::specs::Allowed::allowed_in_rights))]
fn allowed_in_rights(key: &[u8]) -> &'static str
    ensures text { result.now ≡ allowed_in_rights_of key.now }
    ensures ascii { IsTrue (list_all is_ascii result.now) }
{
    if is_text(key, "match") {
        "a list of fields, each once; nw_src and nw_dst may have a prefix of 1 to 32, as nw_dst/24"
    } else if is_text(key, "misses") || is_text(key, "packet_out") {
        "true or false"
    } else if is_text(key, "region") {
        "a table of fields; nw_ fields need dl_type, tp_ fields nw_proto too"
    } else if is_text(key, "regions") {
        "a list of 1 to 16 tables of fields, no two of which overlap; nw_ fields need dl_type, tp_ fields nw_proto too"
    } else {
        "what docs/FORMATS.md says"
    }
}

/// The keys of an item, or of the file itself.
pub(crate) fn rows(item: Option<ItemKind>) -> &'static [KeyRow]
    ensures { map shown_row result.now ≡ rows_in item }
{
    match item {
        Some(kind) => kind.rows(),
        None => &TOP_KEYS,
    }
}

/// Whether a key may stand in a version; where the file names none, both versions' keys may.
fn may_stand(row: &KeyRow, version: Option<Version>) -> bool
    ensures { result ≡ may_stand_of row.now.only version }
{
    match (row.only, version) {
        (Some(only), Some(version)) => only == version,
        _ => true,
    }
}

/// Appends a key behind a comma, if it may stand.
fn say_more_key(text: &mut Text, row: &KeyRow, version: Option<Version>) -> Result<(), Memory>
    ensures { OnOk result (text.new ≡ text.old ++ more_keys version (shown_row row.now ∷ [])) }
{
    if may_stand(row, version) {
        say(text, ", ")?;
        push_word(text, row.key.as_bytes())?;
    }
    Ok(())
}

/// Appends each key that may stand in a version, behind a comma.
fn say_more_keys(text: &mut Text, rows: &[KeyRow], version: Option<Version>) -> Result<(), Memory>
    ensures { OnOk result (text.new ≡ text.old ++ more_keys version (map shown_row rows.now)) }
{
    for row in rows {
        say_more_key(text, row, version)?;
    }
    Ok(())
}

/// The keys that may stand in a version.
#[tactic(auto, unfolding(crate::specs::Allowed::keys))]
pub(crate) fn keys(alloc: Global, rows: &[KeyRow], version: Option<Version>) -> Result<Text, Memory>
    ensures { IfOk result (λ text. text ≡ keys_of version (map shown_row rows.now)) }
{
    let mut text = Text::new(alloc);
    if let [first, rest @ ..] = rows {
        push_word(&mut text, first.key.as_bytes())?;
        say_more_keys(&mut text, rest, version)?;
    }
    Ok(text)
}

/// In which version.
#[tactic(auto, unfolding(crate::specs::Allowed::version_text))]
pub(crate) fn version_text(version: Option<Version>) -> &'static str
    ensures text { result.now ≡ version_text_of version }
    ensures ascii { IsTrue (list_all is_ascii result.now) }
{
    match version {
        Some(Version::One) => "in version 1 ",
        Some(Version::Two) => "in version 2 ",
        None => "",
    }
}
