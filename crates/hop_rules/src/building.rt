//! The parts of a table without rules.
ghost use Rattle.std.specs.Prelude.{◌≡◌, ◌+◌, ◌*◌, ◌<◌, ◌≤◌, ◌^◌, ℕ, IfOk, List, OnOk, false, filter_map, length, map};
ghost use Rattle.std.specs.Prelude.{slice_index_or};
ghost use Rattle.std.specs.Prelude.{suc, true};
ghost use Rattle.std.specs.List.{AllByRecursion};
ghost use Rattle.policy_meaning.specs.Hops.{Fabric, peers_size as peers_size_of};
ghost use Rattle.hop_rules.specs.Building.{CanBuild, CanRise, IsEmptyNode, IsFabric, IsLast, IsRisen, arrival_stand};
ghost use Rattle.hop_rules.specs.Building.{given_size, joint_stand, last_made as last_made_of, none_of};
ghost use Rattle.hop_rules.specs.Building.{outside_stand as outside_stand_of, size_at as size_at_of};
ghost use Rattle.hop_rules.specs.Levels.{given_at};
ghost use Rattle.hop_rules.specs.Links.{exit_link};
ghost use Rattle.hop_rules.specs.declared.exits.LinkEnd.{LinkEnd};

use crate::exits::{Exit, LinkEnd, exits};
use crate::given::Given;
use crate::level::{Level, Stand};
use crate::node::Node;
use cv_io::{List, Memory};
use made_rules::Made;
use of10_actions::Tail;
use of10_match::Match;
use policy_meaning::{Place, Rule};
use std::alloc::Global;

/// The rule of a packet that has no hop left.
fn last_made(alloc: Global) -> Made
    ensures { result ≡ last_made_of }
{
    let rule = Rule {
        m: Match::everything(),
        level: 0,
        touched: true,
        outs: List::new(alloc),
        tail: Tail::Nothing,
        ancestry: List::new(alloc),
    };
    Made {
        rule,
        origins: List::new(alloc),
    }
}

/// The nodes of packets that have no hop left, one for each end of a link.
pub(crate) fn last_nodes(alloc: Global, ends: &[LinkEnd]) -> Result<List<Node>, Memory>
    ensures count { IfOk result (λ nodes. length nodes ≡ length ends.now) }
    ensures each { IfOk result (AllByRecursion IsLast) }
{
    let mut nodes = List::with_capacity(alloc, ends.len())?;
    for _end in ends {
        let node = Node::of(alloc, last_made(alloc))?;
        nodes.push(node)?;
    }
    Ok(nodes)
}

/// The rules of so many virtual switches that have none.
pub(crate) fn none_given(
    alloc: Global,
    ends: &[LinkEnd],
    count: usize,
) -> Result<List<Given>, Memory>
    requires { count < 2 ^ 32 }
    ensures count { IfOk result (λ given. length given ≡ count) }
    ensures each { IfOk result (λ given. (v : ℕ) → v < count → given_at given v ≡ none_of ends.now v) }
{
    let mut given = List::with_capacity(alloc, count)?;
    for v in 0..count {
        let found = exits(alloc, ends, v as u32)?;
        given.push(Given::new(alloc, found))?;
    }
    Ok(given)
}

/// A size by the number of a virtual switch, and 1 past the last.
fn size_at(sizes: &[u64], v: u32) -> u64
    ensures { result ≡ size_at_of sizes.now v }
{
    match sizes.get(v as usize) {
        Some(size) => *size,
        None => 1,
    }
}

/// The greatest size of a virtual switch to which links lead, and at least 1.
fn peers_size(exits: &[Exit], sizes: &[u64]) -> u64
    ensures { result ≡ peers_size_of (size_at_of sizes.now) (map exit_link exits.now) }
{
    let mut greatest = 1;
    for exit in exits {
        greatest = size_at(sizes, exit.peer.v).max(greatest);
    }
    greatest
}

/// Those of each virtual switch.
fn peers_sizes(alloc: Global, given: &[Given], sizes: &[u64]) -> Result<Vec<u64>, Memory>
    ensures { IfOk result (λ greatest. greatest.items ≡ map (given_size sizes.now) given.now) }
{
    let mut greatest = Vec::with_capacity(alloc, given.len())?;
    for one in given {
        greatest.push(peers_size(one.exits(), sizes))?;
    }
    Ok(greatest)
}

/// The sizes for one hop more, of those of the virtual switches and of their peers.
fn next_sizes(alloc: Global, own: &[u64], peers: &[u64]) -> Result<Vec<u64>, Memory>
    requires count { length peers.now ≡ length own.now }
    requires fits { (v : ℕ) → v < length own.now → size_at_of own.now v * size_at_of peers.now v < 2 ^ 64 }
    ensures count { IfOk result (λ sizes. length sizes.items ≡ length own.now) }
    ensures each { IfOk result (λ sizes. (v : ℕ) → v < length own.now
        → size_at_of sizes.items v ≡ size_at_of own.now v * size_at_of peers.now v) }
{
    let mut sizes = Vec::with_capacity(alloc, own.len())?;
    for (v, size) in own.iter().enumerate() {
        sizes.push(*size * peers[v])?;
    }
    Ok(sizes)
}

/// The sizes for no hop.
fn no_hop_sizes(alloc: Global, given: &[Given]) -> Result<Vec<u64>, Memory>
    ensures { IfOk result (λ sizes. (v : ℕ) → size_at_of sizes.items v ≡ 1) }
{
    let mut sizes = Vec::with_capacity(alloc, given.len())?;
    for _one in given {
        sizes.push(1)?;
    }
    Ok(sizes)
}

/// The ports at which links arrive, where the nodes to which links lead from there have these sizes.
fn arrival_stands(alloc: Global, ends: &[LinkEnd], peers: &[u64]) -> Result<List<Stand>, Memory>
    ensures { IfOk result (λ stands. stands ≡ map (arrival_stand peers.now) ends.now) }
{
    let mut stands = List::with_capacity(alloc, ends.len())?;
    for end in ends {
        stands.push(Stand {
            at: end.peer,
            size: size_at(peers, end.peer.v),
        })?;
    }
    Ok(stands)
}

/// Whether a virtual switch is whole, and none past the last.
pub(crate) fn whole_at(whole: &[bool], v: u32) -> bool
    ensures { result ≡ slice_index_or whole.now v false }
{
    match whole.get(v as usize) {
        Some(is_whole) => *is_whole,
        None => false,
    }
}

/// An outside port, if its virtual switch isn't whole.
fn outside_stand(v: u32, port: u16, whole: &[bool], peers: &[u64]) -> Option<Stand>
    ensures { result ≡ outside_stand_of whole.now peers.now v port }
{
    if whole_at(whole, v) {
        return None;
    }
    Some(Stand {
        at: Place { v, port },
        size: size_at(peers, v),
    })
}

/// The outside ports of the virtual switches that aren't whole.
pub(crate) fn outside_stands(
    alloc: Global,
    outside: &[((u32, u16), (u32, u16))],
    whole: &[bool],
    peers: &[u64],
) -> Result<List<Stand>, Memory>
    ensures { IfOk result (λ stands. stands ≡ filter_map (joint_stand whole.now peers.now) outside.now) }
{
    let mut stands = List::new(alloc);
    for joint in outside {
        let ((v, port), _) = *joint;
        stands.push_some(outside_stand(v, port, whole, peers))?;
    }
    Ok(stands)
}

/// A node without rules at each of these places.
fn empty_nodes(alloc: Global, stands: &[Stand], is_read: bool) -> Result<List<Node>, Memory>
    ensures count { IfOk result (λ nodes. length nodes ≡ length stands.now) }
    ensures each { IfOk result (AllByRecursion (IsEmptyNode is_read)) }
{
    let mut nodes = List::with_capacity(alloc, stands.len())?;
    for _stand in stands {
        nodes.push(Node::new(alloc, is_read))?;
    }
    Ok(nodes)
}

/// The level of these places, without rules.
pub(crate) fn level_of(alloc: Global, stands: List<Stand>, is_read: bool) -> Result<Level, Memory>
    ensures stands { IfOk result (λ level. level.stands ≡ stands) }
    ensures count { IfOk result (λ level. length level.nodes ≡ length stands) }
    ensures nodes { IfOk result (λ level. AllByRecursion (IsEmptyNode is_read) level.nodes) }
{
    let nodes = empty_nodes(alloc, stands.as_slice(), is_read)?;
    Ok(Level { stands, nodes })
}

/// What is known of the levels below some number of hops: their nodes, and the sizes of the peers.
#[derive(Drop)]
pub struct Rising {
    pub levels: List<Level>,
    pub peers: List<u64>,
}

/// The levels of no number of hops yet.
fn no_levels(alloc: Global, given: &[Given]) -> Result<Rising, Memory>
    ensures { (f : Fabric) → (es : List LinkEnd) → (sizes : List ℕ) → IsFabric f es given.now sizes
        → IfOk result (λ rising. IsRisen f es (length given.now) rising × (length rising.levels ≡ 0)) }
{
    let sizes = no_hop_sizes(alloc, given)?;
    Ok(Rising {
        levels: List::new(alloc),
        peers: List::from_vec(peers_sizes(alloc, given, &sizes)?),
    })
}

/// The level of the ports at which links arrive, where the peers have these sizes.
fn next_level(alloc: Global, ends: &[LinkEnd], peers: &[u64]) -> Result<Level, Memory>
    ensures stands { IfOk result (λ level. level.stands ≡ map (arrival_stand peers.now) ends.now) }
    ensures count { IfOk result (λ level. length level.nodes ≡ length level.stands) }
    ensures nodes { IfOk result (λ level. AllByRecursion (IsEmptyNode true) level.nodes) }
{
    let stands = arrival_stands(alloc, ends, peers)?;
    level_of(alloc, stands, true)
}

/// The sizes at the peers for one hop more.
fn next_peers(
    alloc: Global,
    given: &[Given],
    own: &[u64],
    peers: &[u64],
) -> Result<List<u64>, Memory>
    requires count { length peers.now ≡ length own.now }
    requires fits { (v : ℕ) → v < length own.now → size_at_of own.now v * size_at_of peers.now v < 2 ^ 64 }
    ensures { IfOk result (λ greatest. (sizes : List ℕ) × (length sizes ≡ length own.now)
        × ((v : ℕ) → v < length own.now → size_at_of sizes v ≡ size_at_of own.now v * size_at_of peers.now v)
        × (greatest ≡ map (given_size sizes) given.now)) }
{
    let sizes = next_sizes(alloc, own, peers)?;
    Ok(List::from_vec(peers_sizes(alloc, given, &sizes)?))
}

/// One level more.
fn add_level(
    alloc: Global,
    rising: &mut Rising,
    ends: &[LinkEnd],
    given: &[Given],
    sizes: &[u64],
) -> Result<(), Memory>
    requires { (f : Fabric) × CanRise f ends.now given.now sizes.now rising.old }
    ensures count { OnOk result (length rising.new.levels ≡ length rising.old.levels + 1) }
    ensures risen { (f : Fabric) → CanRise f ends.now given.now sizes.now rising.old
        → OnOk result (IsRisen f ends.now (length given.now) rising.new) }
{
    let level = next_level(alloc, ends, rising.peers.as_slice())?;
    let peers = next_peers(alloc, given, sizes, rising.peers.as_slice())?;
    rising.levels.push(level)?;
    rising.peers = peers;
    Ok(())
}

/// The levels of each number of hops below this one.
pub(crate) fn levels_below(
    alloc: Global,
    hops: u32,
    ends: &[LinkEnd],
    given: &[Given],
    sizes: &[u64],
) -> Result<Rising, Memory>
    requires { (f : Fabric) × CanBuild f ends.now given.now sizes.now hops }
    ensures count { IfOk result (λ rising. suc (length rising.levels) ≡ hops) }
    ensures risen { (f : Fabric) → CanBuild f ends.now given.now sizes.now hops
        → IfOk result (IsRisen f ends.now (length given.now)) }
{
    let mut rising = no_levels(alloc, given)?;
    for _level in 1..hops {
        add_level(alloc, &mut rising, ends, given, sizes)?;
    }
    Ok(rising)
}
