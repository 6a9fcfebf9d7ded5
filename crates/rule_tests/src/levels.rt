//! Levels of ranks.
use cv_io::Duplicate;
use level_map::{LevelMap, PlaceFault, Placed};
use std::process::Abort;
use std::test::Fail;

const fn kept(level: u32) -> Result<Placed, PlaceFault> {
    Ok(Placed::Kept { level })
}

const fn renumbered(level: u32) -> Result<Placed, PlaceFault> {
    Ok(Placed::Renumbered { level })
}

/// Each rank is placed in turn, with this outcome.
fn place_all(rt: &impl Abort, levels: &mut LevelMap, steps: &[(u32, Result<Placed, PlaceFault>)]) {
    for (rank, want) in steps {
        let placed = levels.place(*rank);
        assert_eq!(rt; placed, *want, "rank {rank}");
    }
}

/// Each rank has this level, if it is there.
fn have_levels(rt: &impl Abort, levels: &LevelMap, ranks: &[(u32, Option<u32>)]) {
    for (rank, want) in ranks {
        assert_eq!(rt; levels.level(*rank), *want, "rank {rank}");
    }
}

/// Six ranks fill a map of three bits: how each is placed, and the levels of the first four.
fn fill(rt: &impl Abort, levels: &mut LevelMap) {
    let four = [
        (10, kept(4)),
        (20, kept(6)),
        (30, kept(7)),
        (20, kept(6)),
        (40, renumbered(6)),
    ];
    place_all(rt, levels, &four);
    let ranks = [(10, Some(2)), (20, Some(3)), (30, Some(5)), (40, Some(6))];
    have_levels(rt, levels, &ranks);
    let six = [
        (50, kept(7)),
        (60, renumbered(7)),
        (70, Err(PlaceFault::Full { ranks: 6, limit: 6 })),
        (60, kept(7)),
    ];
    place_all(rt, levels, &six);
}

/// One rank makes room for another.
fn exchange(rt: &impl Abort, levels: &mut LevelMap) {
    levels.drop_rank(30);
    place_all(rt, levels, &[(70, renumbered(7))]);
    let ranks = [
        (10, Some(2)),
        (20, Some(3)),
        (30, None),
        (40, Some(4)),
        (50, Some(5)),
        (60, Some(6)),
        (70, Some(7)),
    ];
    have_levels(rt, levels, &ranks);
}

#[test]
fn three_bits_hold_six_ranks(rt: HostRuntime) -> Result<(), Fail> {
    let mut levels = LevelMap::new(rt.alloc(), 3);
    fill(&rt, &mut levels);
    let copied = levels.copy()?;
    assert_eq!(rt; copied.size(), 8);
    exchange(&rt, &mut levels);
    assert_eq!(rt; copied.level(30), Some(4));
    Ok(())
}

#[test]
fn eight_bits_begin_in_the_middle(rt: HostRuntime) -> Result<(), Fail> {
    let mut levels = LevelMap::new(rt.alloc(), 8);
    assert_eq!(rt; levels.place(32_768)?, Placed::Kept { level: 128 });
    Ok(())
}

#[test]
fn a_full_map_says_so(rt: HostRuntime) -> Result<(), Fail> {
    let text = format!(in rt.alloc(); "{}", PlaceFault::Full { ranks: 6, limit: 6 })?;
    assert_eq!(rt; text.as_str(), "6 ranks are there, and there may be 6");
    Ok(())
}
