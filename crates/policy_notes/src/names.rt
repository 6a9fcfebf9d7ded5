//! The names of faults, as `hops`, `member[32]` or `member[0].bits`.
ghost use Rattle.std.specs.Prelude.{◌≡◌, ◌<◌, IfSome, length};
ghost use Rattle.policy_notes.specs.Names.{first as first_of, is_item as is_item_of, key_in, kind_named as kind_named_of};

use policy_file::ItemKind;
use script_text::form::is_text;

/// Where such a byte stands first.
pub(crate) fn first(name: &[u8], byte: u8) -> Option<usize>
    ensures place { result ≡ first_of byte name.now }
    ensures within { IfSome result (λ at. at < length name.now) }
{
    name.iter().position(|other| *other == byte)
}

/// The key in a name.
#[tactic(auto, unfolding(crate::specs::Names::key_in))]
pub(crate) fn key_of(name: &[u8]) -> &[u8]
    ensures { result.now ≡ key_in name.now }
{
    match first(name, b'.') {
        Some(at) => &name[at + 1..],
        None => name,
    }
}

/// Whether a name is that of an item itself.
#[tactic(auto, unfolding(crate::specs::Names::is_item))]
pub(crate) fn is_item(name: &[u8]) -> bool
    ensures { result ≡ is_item_of name.now }
{
    first(name, b'[').is_some() && first(name, b'.').is_none()
}

/// The kind of item that a top key lists.
#[tactic(auto, unfolding(crate::specs::Names::kind_named))]
pub(crate) fn kind_named(name: &[u8]) -> Option<ItemKind>
    ensures { result ≡ kind_named_of name.now }
{
    if is_text(name, ItemKind::Switch.key()) {
        Some(ItemKind::Switch)
    } else if is_text(name, ItemKind::Cable.key()) {
        Some(ItemKind::Cable)
    } else if is_text(name, ItemKind::Virtual.key()) {
        Some(ItemKind::Virtual)
    } else if is_text(name, ItemKind::Link.key()) {
        Some(ItemKind::Link)
    } else if is_text(name, ItemKind::Member.key()) {
        Some(ItemKind::Member)
    } else {
        None
    }
}
