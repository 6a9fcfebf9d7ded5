//! What a member's table has for a header.
ghost use Rattle.std.specs.Prelude.{◌≡◌, ◌+◌, ◌<◌, ◌^◌, IfSome};
ghost use Rattle.std.specs.Option.{option_copied};
ghost use Rattle.of10_actions.specs.Actions.{AreInRange};
ghost use Rattle.member_table.specs.Best.{best_entry as best_of_table};
ghost use Rattle.member_table.specs.declared.entry.Entry.{Entry};

use grants::{Grant, in_region, sees};
use member_table::{Entry, Table};
use of10_match::Header;

/// A member: a controller at a virtual switch.
#[derive(Clone, Copy)]
pub struct Member<'a> {
    pub number: u32,
    pub grant: &'a Grant,
    pub table: &'a Table,
}

/// What a member's table has for the packets of a header.
#[derive(Clone, Copy)]
pub enum Answer<'a> {
    /// The region doesn't hold the header, or the member doesn't see the port by which it came.
    Outside,
    /// No entry holds the header.
    Miss,
    /// The entry of the highest rank that holds it.
    Entry(&'a Entry),
}

impl<'a> Member<'a> {
    ghost use Rattle.packet_map.specs.Answers.{Answers, HasInRange, table_of};
    ghost use Rattle.policy_meaning.specs.Leaf.{is_inside as is_inside_of};

    /// Whether the member may act on the header.
    fn is_inside(&self, header: &Header) -> bool
        ensures { result ≡ is_inside_of (table_of self.now) header.now }
    {
        in_region(self.grant, header) && sees(&self.grant.ports, header.in_port)
    }

    /// The entry of the highest rank that holds the header.
    fn best(&self, header: &Header) -> Option<&'a Entry>
        ensures best { option_copied result ≡ best_of_table self.now.table.now.table.entries header.now }
        ensures in_range { IfSome result (λ e. AreInRange e.now.actions) }
        ensures serial { IfSome result (λ e. 2 + e.now.serial < 2 ^ 64) }
    {
        // The proof learns what is true of every table.
        let _ = self.table.len();
        let serial = self.table.best(header)?;
        self.table.get(serial)
    }

    /// What the member's table has for a header.
    pub fn answer(&self, header: &Header) -> Answer<'a>
        ensures answer { Answers self.now header.now result }
        ensures in_range { HasInRange result }
    {
        if !self.is_inside(header) {
            return Answer::Outside;
        }
        match self.best(header) {
            None => Answer::Miss,
            Some(entry) => Answer::Entry(entry),
        }
    }
}
