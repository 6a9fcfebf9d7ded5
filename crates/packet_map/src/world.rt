//! What is read of the machine.
ghost use Rattle.std.specs.Prelude.{◌≡◌, ◌↔◌, All, IfSome, IsTrue, Some, option_map, slice_get};
ghost use Rattle.policy_meaning.specs.Hops.{leads, peer_of};
ghost use Rattle.policy_meaning.specs.Walk.{takes as takes_of};
ghost use Rattle.virtual_topology.specs.Wires.{is_spread_of};
ghost use Rattle.packet_map.specs.Rising.{SeesRising};

use crate::answer::Member;
use cv_io::List;
use grants::Grant;
use member_table::Table;
use of10_actions::Tail;
use of10_match::{Header, UNTAGGED};
use policy_expr::Expr;
use policy_meaning::{Onward, Place};
use virtual_topology::Topology;

/// The policy and the members' tables, as the machine keeps them.
#[derive(Clone, Copy)]
pub struct World<'a> {
    pub topology: &'a Topology,
    /// The expression of each virtual switch, by number.
    pub exprs: &'a List<Expr>,
    /// The grant and the table of each member, by number.
    pub grants: &'a List<Grant>,
    pub tables: &'a List<Table>,
    /// So many evaluations are made of a packet at most.
    pub hops: u32,
}

/// Whether the ports that a member sees are listed in rising order.
fn rises(grant: &Grant) -> bool
    ensures { IsTrue result ↔ SeesRising grant.now }
{
    grant.ports.is_rising()
}

/// Whether those of each member are.
fn all_rise(grants: &List<Grant>) -> bool
    ensures { IsTrue result ↔ All SeesRising grants.now }
{
    for grant in grants.as_slice() {
        if !rises(grant) {
            return false;
        }
    }
    true
}

impl<'a> World<'a> {
    ghost use Rattle.packet_map.specs.Answers.{table_of};
    ghost use Rattle.packet_map.specs.Networks.{SeeRising, links_of, tables_of};

    /// Whether the visible ports of each member are listed in rising order.
    pub fn sees_rising(&self) -> bool
        ensures { IsTrue result ↔ SeeRising self.now }
    {
        all_rise(self.grants)
    }

    /// Whether a virtual switch takes a packet: one that is spread drops packets that have a tag.
    pub fn takes(&self, v: u32, header: &Header) -> bool
        ensures { result ≡ takes_of (is_spread_of self.now.topology.now v) header.now }
    {
        !(self.topology.is_spread(v) && header.dl_vlan != UNTAGGED)
    }

    /// A member by number, if it has a grant and a table.
    pub fn member(&self, number: u32) -> Option<Member<'a>>
        ensures table { option_map table_of result
            ≡ slice_get (tables_of self.now.grants.now self.now.tables.now) number }
        ensures number { IfSome result (λ m. m.number ≡ number) }
        ensures grant { IfSome result (λ m. slice_get self.now.grants.now number ≡ Some m.grant.now) }
    {
        let grant = self.grants.get(number as usize)?;
        let table = self.tables.get(number as usize)?;
        Some(Member {
            number,
            grant,
            table,
        })
    }

    /// Where a link leads from a port of a virtual switch.
    fn peer(&self, v: u32, port: u16) -> Option<Place>
        ensures { result ≡ peer_of (links_of self.now.topology.now v) port }
    {
        let (v, port) = self.topology.peer(v, port)?;
        Some(Place { v, port })
    }

    /// Where a packet goes on at a virtual switch whose tail is this, where it came in by a port: over a
    /// link, but not back by that port.
    pub fn onward(&self, v: u32, tail: &Tail, in_port: u16) -> Option<Onward>
        ensures { result ≡ leads tail.now (links_of self.now.topology.now v) in_port }
    {
        match tail {
            Tail::Link(rewrite, port) if *port != in_port => {
                let place = self.peer(v, *port)?;
                Some(Onward {
                    rewrite: *rewrite,
                    place,
                })
            }
            _ => None,
        }
    }
}
