//! An index of matches, beside a look at each of them.
ghost use Rattle.std.specs.Prelude.{◌<◌, IfSome};
ghost use Rattle.of10_match.specs.Ranges.{IsPrefix};

use cv_io::Duplicate;
use match_index::{Index, Item};
use of10_match::{Header, Match, Prefix};
use std::alloc::Global;
use std::process::Abort;
use std::test::*;

const ADDRESSES: [u32; 4] = [0x0a00_0001, 0x0a00_0101, 0x0a80_0001, 0xc0a8_0001];

/// How many low bits of an address are left out.
const LEFT_OUT: [u32; 8] = [32, 0, 0, 8, 9, 16, 24, 31];

/// Numbers that look random (a linear congruence modulo 2^32).
fn next(seed: u64) -> u64
    ensures { result < 4294967296 }
{
    (seed % 4_294_967_296 * 1_664_525 + 1_013_904_223) % 4_294_967_296
}

fn address(choice: u64) -> u32 {
    ADDRESSES[(choice % 4) as usize]
}

fn some_prefix(choice: u64) -> Option<Prefix>
    ensures { IfSome result IsPrefix }
{
    let left_out = LEFT_OUT[(choice % 8) as usize];
    if left_out < 32 {
        Some(Prefix {
            addr: (address(choice / 8) >> left_out) << left_out,
            len: 32 - left_out as u8,
        })
    } else {
        None
    }
}

fn some_match(seed: u64) -> Match {
    let choice = seed / 65536;
    Match {
        in_port: (choice % 3 == 0).then_some(1),
        dl_type: Some(0x0800),
        nw_proto: (choice / 6 % 2 == 0).then_some(6),
        nw_src: some_prefix(choice / 12),
        nw_dst: some_prefix(choice / 384),
        tp_dst: (choice / 12288 % 4 == 0).then_some(80),
        ..Match::everything()
    }
}

fn some_header(seed: u64) -> Header {
    let choice = seed / 65536;
    Header {
        in_port: if choice % 3 == 0 { 1 } else { 2 },
        dl_src: 1,
        dl_dst: 2,
        dl_vlan: 65535,
        dl_vlan_pcp: 0,
        dl_type: 0x0800,
        nw_tos: 0,
        nw_proto: if choice / 3 % 2 == 0 { 6 } else { 17 },
        nw_src: address(choice / 6),
        nw_dst: address(choice / 24),
        tp_src: 1,
        tp_dst: if choice / 96 % 2 == 0 { 80 } else { 443 },
    }
}

/// Items with the ids from 0 up.
fn some_items(alloc: Global, count: u64) -> Result<Vec<Item>, Fail> {
    let mut items = Vec::new(alloc);
    let mut seed = 7;
    for id in 0..count {
        seed = next(seed);
        items.push(Item {
            id,
            rank: if seed % 3 == 0 { 10 } else { 20 },
            normal: some_match(seed),
        })?;
    }
    Ok(items)
}

/// An index of these items, which are among more that come and go.
fn indexed(alloc: Global, items: &[Item], count: u64) -> Result<Index, Fail> {
    let mut index = Index::new(alloc);
    for item in items {
        if !index.has(item.id) {
            index.insert_ranked(item.id, item.rank, &item.normal)?;
        }
    }
    for id in 0..count {
        if id % 3 == 1 {
            index.remove(id);
        }
    }
    Ok(index)
}

/// The ids of the items that stay and that meet the match, or that it covers.
fn scanned(alloc: Global, items: &[Item], m: &Match, covers: bool) -> Result<Vec<u64>, Fail> {
    let mut ids = Vec::new(alloc);
    for item in items {
        let asked = if covers {
            m.covers(&item.normal)
        } else {
            m.overlaps(&item.normal)
        };
        if asked && item.id % 3 != 1 {
            ids.push(item.id)?;
        }
    }
    Ok(ids)
}

/// The best of the items that stay and that hold the header.
fn scanned_best(items: &[Item], header: &Header) -> Option<u64> {
    let mut best: Option<(u32, u64)> = None;
    for item in items {
        if item.id % 3 != 1 && item.normal.holds(header) {
            let higher = match best {
                Some((rank, _)) => item.rank > rank,
                None => true,
            };
            if higher {
                best = Some((item.rank, item.id));
            }
        }
    }
    best.map(|(_, id)| id)
}

/// The first of the items that stay and that are in the way.
fn scanned_way(items: &[Item], rank: u32, m: &Match) -> Option<u64> {
    for item in items {
        if item.id % 3 != 1 && item.rank == rank && m.overlaps(&item.normal) && *m != item.normal {
            return Some(item.id);
        }
    }
    None
}

/// What an index answers to one question of each kind.
fn answers(alloc: Global, index: &Index, seed: u64) -> Result<String, Fail> {
    let m = some_match(seed);
    let best = index.best(&some_header(seed)).map(|item| item.id);
    let way = index.first_in_way(20, &m);
    let meeting = index.meeting(&m)?;
    let covered = index.covered(&m)?;
    Ok(format!(in alloc;
        "{best:?} {way:?} {:?} {:?}",
        meeting.as_slice(),
        covered.as_slice()
    )?)
}

/// What a look at each item answers to the same questions.
fn scanned_answers(alloc: Global, items: &[Item], seed: u64) -> Result<String, Fail> {
    let m = some_match(seed);
    let best = scanned_best(items, &some_header(seed));
    let way = scanned_way(items, 20, &m);
    let meeting = scanned(alloc, items, &m, false)?;
    let covered = scanned(alloc, items, &m, true)?;
    Ok(format!(in alloc;
        "{best:?} {way:?} {:?} {:?}",
        meeting.as_slice(),
        covered.as_slice()
    )?)
}

/// Both answer random questions as a look at each item does.
fn both_answer(
    rt: &(impl Abort + AllocGlobal),
    items: &[Item],
    index: &Index,
    copied: &Index,
) -> Result<(), Fail> {
    let mut seed = 99;
    for _ in 0..200 {
        seed = next(seed);
        let want = scanned_answers(rt.alloc(), items, seed)?;
        assert_eq!(rt; answers(rt.alloc(), index, seed)?.as_str(), want.as_str());
        assert_eq!(rt; answers(rt.alloc(), copied, seed)?.as_str(), want.as_str());
    }
    Ok(())
}

/// An index and its copy answer so.
fn answers_with_its_copy(
    rt: &(impl Abort + AllocGlobal),
    items: &[Item],
    index: &Index,
) -> Result<(), Fail> {
    let copied = index.copy()?;
    let answered = both_answer(rt, items, index, &copied);
    drop(copied);
    answered
}

#[test]
fn answers_are_those_of_a_look_at_each_item(rt: HostRuntime) -> Result<(), Fail> {
    let items = some_items(rt.alloc(), 90)?;
    let index = indexed(rt.alloc(), &items, 90)?;
    let answered = answers_with_its_copy(&rt, &items, &index);
    drop(index);
    answered
}

/// An index of everything under 7, and of nothing else.
fn of_everything(alloc: Global) -> Result<Index, Fail> {
    let mut index = Index::new(alloc);
    index.reserve(2)?;
    if !index.has(7) {
        index.insert(7, &Match::everything())?;
    }
    Ok(index)
}

/// What the index of everything answers, before and after its item goes.
fn told(alloc: Global, index: &mut Index) -> Result<String, Fail> {
    let (len, found) = (index.len(), index.get(7).map(|item| item.rank));
    let holding = index.holding(&some_header(1))?.len();
    let (gone, gone_again) = (index.remove(7), index.remove(7));
    Ok(format!(in alloc;
        "{len} {found:?} {holding} {gone} {gone_again} {}",
        index.is_empty()
    )?)
}

#[test]
fn items_come_and_go(rt: HostRuntime) -> Result<(), Fail> {
    let mut index = of_everything(rt.alloc())?;
    let shown = told(rt.alloc(), &mut index);
    drop(index);
    assert_eq!(rt; shown?.as_str(), "1 Some(0) 1 true false true");
    Ok(())
}
