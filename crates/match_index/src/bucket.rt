//! The items of one match.
ghost use Rattle.std.specs.Prelude.{◌≡◌, ◌==◌, ◌++◌, ◌∷◌, [], IfOk, OnOk, OnErr, length, true, false};
ghost use Rattle.std.specs.List.{list_any};
ghost use Rattle.match_index.specs.Items.{AddsTo, same_item};

use crate::item::Item;
use crate::search::take_out;
use cv_io::Memory;
use std::alloc::Global;
use std::marker::Model;

/// Items in no order.
#[derive(Drop, Debug)]
pub struct Bucket {
    items: Vec<Item>,
}

impl Model for Bucket {
    ghost use Rattle.std.specs.Prelude.{List};
    ghost use Rattle.match_index.specs.declared.item.Item.{Item};

    ghost Value = { List Item };

    ghost view = { λ a. a.items.items };
}

impl Bucket {
    /// One item alone.
    pub fn of(alloc: Global, item: Item) -> Result<Bucket, Memory>
        ensures { IfOk result (λ bucket. bucket ≡ item ∷ []) }
    {
        let mut items = Vec::new(alloc);
        items.push(item)?;
        Ok(Bucket { items })
    }

    pub fn as_slice(&self) -> &[Item]
        ensures { result.now ≡ self.now }
    {
        self.items.as_slice()
    }

    pub fn is_empty(&self) -> bool
        ensures { result ≡ (length self.now == 0) }
    {
        self.items.is_empty()
    }

    /// Whether the item is there.
    pub fn has(&self, item: &Item) -> bool
        ensures { result ≡ list_any (same_item item.now) self.now }
    {
        self.items.iter().any(|other| *item == *other)
    }

    pub fn push(&mut self, item: Item) -> Result<(), Memory>
        ensures pushed { OnOk result (self.new ≡ self.old ++ item ∷ []) }
        ensures memory { OnErr result (self.new ≡ self.old) }
    {
        self.items.push(item)?;
        Ok(())
    }

    /// Takes an item out; false where it isn't there.
    pub fn remove(&mut self, item: &Item) -> bool
        ensures found { result ≡ list_any (same_item item.now) self.old }
        ensures taken { result ≡ true → AddsTo item.now self.new self.old }
        ensures missing { result ≡ false → self.new ≡ self.old }
    {
        take_out(&mut self.items, item)
    }
}
