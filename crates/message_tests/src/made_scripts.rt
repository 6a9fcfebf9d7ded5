//! The script of a seed, and the line that tells what it gave.
use cv_io::Text;
use made_script::{Made, Summary, summary_line};
use std::alloc::Global;
use std::test::*;

/// The lines of the script of seed 1 with four messages.
const LINES: [&str; 7] = [
    "up s1",
    "up mon@v1",
    "up rt@v1",
    "from mon@v1 010e004800000001003808ef0000000000000000000000000000000000000800000000000a00c600000000000000000000000000000000000000000000000064ffffffffffff0000",
    "from rt@v1 010e005000000002003220ef000000000000000000000000000000000000080000000000000000000a007e000000000000000000000000000000000000000064ffffffffffff00000000000800030000",
    "from mon@v1 010e004800000003003808ef0000000000000000000000000000000000000800000000000a008100000000000000000000000000000000000000000000000064ffffffffffff0000",
    "from rt@v1 010e005000000004003220ef000000000000000000000000000000000000080000000000000000000a006b000000000000000000000000000000000000000064ffffffffffff00000000000800010000",
];

/// A line as text.
fn shown(alloc: Global, line: Text) -> Result<String, Fail> {
    let shown = format!(in alloc; "{line}");
    drop(line);
    Ok(shown?)
}

/// The next line of a script, or its end.
fn next(alloc: Global, script: &mut Made) -> Result<String, Fail> {
    match script.next()? {
        Some(line) => shown(alloc, line),
        None => Ok(String::from_str(alloc, "end")?),
    }
}

/// Whether the next line is this one.
fn is_next(alloc: Global, script: &mut Made, expected: &str) -> Result<bool, Fail> {
    let shown = next(alloc, script)?;
    Ok(shown.as_str() == expected)
}

/// Whether the lines come, one after the other, and no other comes then.
fn has_lines(alloc: Global, script: &mut Made) -> Result<bool, Fail> {
    for expected in &LINES {
        if !is_next(alloc, script, expected)? {
            return Ok(false);
        }
    }
    Ok(script.next()?.is_none())
}

#[test]
fn a_script_of_four_messages(rt: HostRuntime) -> Result<(), Fail> {
    let mut script = Made::new(rt.alloc(), 1, 4);
    let same = has_lines(rt.alloc(), &mut script);
    drop(script);
    assert!(rt; same?);
    Ok(())
}

#[test]
fn a_summary(rt: HostRuntime) -> Result<(), Fail> {
    let summary = Summary {
        lines: 7,
        accepted: 4,
        rules: 9,
        sent: 17,
    };
    let line = summary_line(rt.alloc(), &summary)?;
    let shown = shown(rt.alloc(), line)?;
    assert_eq!(rt; shown.as_str(), "make lines=7 accepted=4 rules=9 sent=17");
    Ok(())
}
