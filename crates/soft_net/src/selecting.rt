//! The entries of a table that a message selects, and what is told of them.
ghost use Rattle.std.specs.Prelude.{◌≡◌, ◌&&◌, ◌++◌, IfOk, OnOk, filter, find, flat_map, map, option_to_list};
ghost use Rattle.soft_net.specs.Answers.{removals as removals_of, stat as stat_of};
ghost use Rattle.soft_net.specs.Entries.{has_serial, outputs_to};
ghost use Rattle.soft_net.specs.InsideTables.{AreRising, number_if, removal_if, stat_if};
ghost use Rattle.soft_net.specs.Tables.{TableOf, is_selected, serials_of, without_all};

use crate::answer::{Answer, removal, stat};
use crate::selection::Selection;
use crate::table::Table;
use cv_io::{List, Memory};
use of10_stats::FlowStat;
use std::alloc::Global;

impl Table {
    /// The numbers of the entries that are meant and have an OUTPUT to the port, rising.
    pub fn selected(
        &self,
        alloc: Global,
        selection: &Selection,
        out_port: u16,
    ) -> Result<List<u64>, Memory>
        ensures rising { AreRising self.now.entries }
        ensures serials { IfOk result (λ serials. serials
            ≡ serials_of (filter (is_selected selection.now out_port) self.now.entries)) }
    {
        let meant = self.meant(selection)?;
        let selected = self.with_output(alloc, meant.as_slice(), out_port)?;
        Ok(selected)
    }

    /// Of these numbers those of entries with an OUTPUT to the port.
    fn with_output(
        &self,
        alloc: Global,
        serials: &[u64],
        out_port: u16,
    ) -> Result<List<u64>, Memory>
        ensures { IfOk result (λ found. found
            ≡ flat_map (λ s. number_if out_port (find (has_serial s) self.now.entries)) serials.now) }
    {
        let mut found = List::new(alloc);
        for serial in serials {
            found.push_some(self.number_if(*serial, out_port))?;
        }
        Ok(found)
    }

    /// The number, where it is that of an entry with an OUTPUT to the port.
    fn number_if(&self, serial: u64, out_port: u16) -> Option<u64>
        ensures { option_to_list result ≡ number_if out_port (find (has_serial serial) self.now.entries) }
    {
        match self.get(serial) {
            Some(entry) => {
                if entry.outputs_to(out_port) {
                    Some(entry.serial)
                } else {
                    None
                }
            }
            None => None,
        }
    }

    /// The FLOW_REMOVEDs of the entries of these numbers that ask for one.
    pub fn removals(&self, alloc: Global, serials: &[u64]) -> Result<List<Answer>, Memory>
        ensures { IfOk result (λ told. told
            ≡ flat_map (λ s. removal_if (find (has_serial s) self.now.entries)) serials.now) }
    {
        let mut told = List::new(alloc);
        for serial in serials {
            told.push_some(self.removal_if(*serial))?;
        }
        Ok(told)
    }

    /// The FLOW_REMOVED of the entry of a number, where it is there and asks for one.
    fn removal_if(&self, serial: u64) -> Option<Answer>
        ensures { option_to_list result ≡ removal_if (find (has_serial serial) self.now.entries) }
    {
        match self.get(serial) {
            Some(entry) => {
                if entry.asks_removal() {
                    Some(Answer::Message(removal(entry)))
                } else {
                    None
                }
            }
            None => None,
        }
    }

    /// What statistics tell of the entries of these numbers.
    pub fn stats(&self, alloc: Global, serials: &[u64]) -> Result<List<FlowStat>, Memory>
        ensures { IfOk result (λ told. told
            ≡ flat_map (λ s. stat_if (find (has_serial s) self.now.entries)) serials.now) }
    {
        let mut told = List::new(alloc);
        for serial in serials {
            let one = self.stat_if(alloc, *serial)?;
            told.push_some(one)?;
        }
        Ok(told)
    }

    /// What statistics tell of the entry of a number, where it is there.
    fn stat_if(&self, alloc: Global, serial: u64) -> Result<Option<FlowStat>, Memory>
        ensures { IfOk result (λ told. option_to_list told ≡ stat_if (find (has_serial serial) self.now.entries)) }
    {
        match self.get(serial) {
            Some(entry) => Ok(Some(stat(alloc, entry)?)),
            None => Ok(None),
        }
    }

    /// Takes the entries of these numbers out. It takes no memory.
    pub fn take_all(&mut self, serials: &[u64])
        ensures { self.new ≡ without_all serials.now self.old }
    {
        for serial in serials {
            self.take(*serial);
        }
    }
}
