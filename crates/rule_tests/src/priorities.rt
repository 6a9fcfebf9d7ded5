//! Levels and sizes of compositions.
use alg_priority::{TooWide, concat, fits, shift, size_concat, size_shift, size_sum, sum};

#[test]
fn levels_side_by_side(rt: HostRuntime) {
    // A member of 3 bits has 8 levels; its first rank has level 4 and a higher one 6, its miss 1.
    for (a, b, want) in [
        (4, 4, 8),
        (4, 6, 10),
        (4, 1, 5),
        (1, 4, 5),
        (1, 6, 7),
        (1, 1, 2),
    ] {
        assert_eq!(rt; sum(a, b), want, "{a} + {b}");
    }
}

#[test]
fn levels_of_chains(rt: HostRuntime) {
    for (a, b, want) in [(4, 4, 36), (4, 1, 33), (1, 0, 8)] {
        assert_eq!(rt; concat(a, b, 8), want, "{a} >> {b}");
    }
    assert_eq!(rt; shift(4, 8), 12);
}

#[test]
fn sizes_of_pairs(rt: HostRuntime) {
    assert_eq!(rt; size_sum(8, 8), 15);
    assert_eq!(rt; size_concat(8, 8), 64);
    assert_eq!(rt; size_shift(8, 8), 16);
}

#[test]
fn sizes_at_the_ends(rt: HostRuntime) {
    let top = u64::MAX;
    for (a, b, want) in [
        (0, 0, 0),
        (0, 5, 4),
        (top, 1, top),
        (top, 2, top),
        (top, top, top),
    ] {
        assert_eq!(rt; size_sum(a, b), want, "{a} + {b}");
    }
    let mut chain = 1;
    for _ in 0..12 {
        chain = size_concat(chain, 1 << 15);
    }
    assert_eq!(rt; chain, top);
}

#[test]
fn widths(rt: HostRuntime) -> Result<(), std::test::Fail> {
    assert_eq!(rt; fits(65_534), Ok(()));
    let wide = fits(65_536);
    assert_eq!(rt;
        wide,
        Err(TooWide {
            needed: 65_536,
            limit: 65_534
        })
    );
    let text = format!(in rt.alloc();
        "{}",
        TooWide {
            needed: 65_535,
            limit: 65_534
        }
    )?;
    assert_eq!(rt;
        text.as_str(),
        "65535 priorities are needed and 65534 are there"
    );
    Ok(())
}
