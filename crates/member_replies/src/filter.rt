//! Filters of statistics.
ghost use Rattle.std.specs.Prelude.{◌≡◌};
ghost use Rattle.member_replies.specs.Filters.{filter_of, is_listed, is_the_table as is_the_table_of};

use member_table::Entry;
use of10_match::Match;
use of10_msgs::MATCH;

/// Which entries statistics are asked for (`ofp_flow_stats_request`).
#[derive(Clone, Copy, PartialEq, Eq, Debug)]
pub struct Filter {
    /// The match that covers theirs.
    pub normal: Match,
    /// Their table; there is only 0, and 0xff stands for all.
    pub table_id: u8,
    /// The port to which they have an OUTPUT; `port::NONE` asks for none.
    pub out_port: u16,
}

/// Whether the number is that of the one table, or of all tables.
fn is_the_table(table_id: u8) -> bool
    ensures { result ≡ is_the_table_of table_id }
{
    table_id == 0 || table_id == 0xff
}

impl Filter {
    /// The filter of a request.
    pub fn new(m: &[u8; MATCH], table_id: u8, out_port: u16) -> Filter
        ensures { result ≡ filter_of m.now table_id out_port }
    {
        Filter {
            normal: of10_match::read(m).normal,
            table_id,
            out_port,
        }
    }

    /// Whether it lists an entry.
    pub fn lists(&self, entry: &Entry) -> bool
        ensures { result ≡ is_listed self.now entry.now }
    {
        is_the_table(self.table_id)
            && self.normal.covers(&entry.normal)
            && entry.outputs_to(self.out_port)
    }
}
