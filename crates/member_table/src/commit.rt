//! Changes are made.
ghost use Rattle.std.specs.Prelude.{◌≡◌, ◌≤◌, ◌+◌, filter, map, not};
ghost use Rattle.std.specs.List.{AllByRecursion};
ghost use Rattle.member_table.specs.Changes.{CanCommit, IsInRange, changed_by, committed, is_among};
ghost use Rattle.member_table.specs.Changes.{replaced as replaced_of, stays};

use crate::change::{Change, Modified};
use crate::entry::Entry;
use crate::table::Table;
use cv_io::List;

impl Table {
    /// Makes a change, which takes no memory. What `plan` answered last can be made, as long as the
    /// table wasn't changed since.
    pub fn commit(&mut self, change: Change)
        requires { CanCommit self.old change }
        ensures table { self.new.table ≡ committed self.old.table change }
        ensures room { self.old.room ≤ self.new.room + 1 }
    {
        let Change {
            added,
            removed,
            modified,
        } = change;
        let place = self.replaced(&added);
        self.remove_all(removed, place);
        self.modify_all(modified);
        if let Some(entry) = added {
            self.put(entry);
        }
    }

    /// Takes the entries of some numbers out, many in one pass. The others keep their order.
    pub fn drop_serials(&mut self, serials: List<u64>)
        ensures table { self.new.table ≡ record self.old.table
            { entries = filter (λ e. not (is_among serials e.serial)) self.old.table.entries } }
        ensures room { self.new.room ≡ self.old.room }
    {
        self.remove_all(serials, None);
    }

    /// The number of the entry whose place the one that comes takes.
    fn replaced(&self, added: &Option<Entry>) -> Option<u64>
        ensures { result ≡ replaced_of added.now self.now.table.entries }
    {
        match added {
            Some(entry) => match self.order.identical(&entry.identity()) {
                Some(old) => Some(old.serial),
                None => None,
            },
            None => None,
        }
    }

    /// Takes entries out but the one whose place is taken: many in one pass, and one alone by its place.
    fn remove_all(&mut self, serials: List<u64>, place: Option<u64>)
        ensures table { self.new.table ≡ record self.old.table
            { entries = filter (stays serials place) self.old.table.entries } }
        ensures room { self.new.room ≡ self.old.room }
    {
        if serials.len() > 1 {
            self.drop_all(serials, place);
        } else {
            self.drop_each(serials, place);
        }
    }

    /// Takes entries out but the one whose place is taken, one after the other.
    fn drop_each(&mut self, mut serials: List<u64>, place: Option<u64>)
        ensures table { self.new.table ≡ record self.old.table
            { entries = filter (stays serials place) self.old.table.entries } }
        ensures room { self.new.room ≡ self.old.room }
    {
        while let Some(serial) = serials.pop() {
            if place != Some(serial) {
                self.drop_serial(serial);
            }
        }
    }

    /// Gives entries other actions.
    fn modify_all(&mut self, mut modified: List<Modified>)
        requires { AllByRecursion IsInRange modified }
        ensures table { self.new.table ≡ record self.old.table
            { entries = map (changed_by modified) self.old.table.entries } }
        ensures room { self.new.room ≡ self.old.room }
    {
        while let Some(one) = modified.pop() {
            self.modify(one);
        }
    }
}
