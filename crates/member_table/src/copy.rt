//! Tables are copied.
ghost use Rattle.std.specs.Prelude.{◌≡◌, ◌≤◌, ◌==◌, IfOk, map};
ghost use Rattle.std.specs.List.{IsDistinct};
ghost use Rattle.member_table.specs.Sound.{AreApart, EachPair};

use crate::order::Order;
use crate::table::Table;
use cv_io::{Duplicate, Memory};
use std::alloc::Global;

/// The same entries in the same order.
fn copied(alloc: Global, order: &Order) -> Result<Order, Memory>
    requires once { IsDistinct ◌==◌ (map (λ e. e.serial) order.now.entries) }
    requires apart { EachPair AreApart order.now.entries }
    ensures { IfOk result (λ copied. copied.entries ≡ order.now.entries) }
{
    let mut copied = Order::new(alloc);
    copied.reserve(order.len())?;
    for place in 0..order.len() {
        if let Some(entry) = order.at(place) {
            copied.put(entry.copy()?);
        }
    }
    Ok(copied)
}

impl Duplicate for Table {
    fn copy(&self) -> Result<Table, Memory> {
        let mut order = copied(self.alloc, &self.order)?;
        order.reserve(self.room)?;
        let mut ranks = self.ranks.copied(self.alloc)?;
        ranks.reserve(self.room)?;
        Ok(Table {
            alloc: self.alloc,
            limit: self.limit,
            next: self.next,
            room: self.room,
            soonest: self.soonest,
            order,
            ranks,
        })
    }
}
