//! Words of the command line.
use command_line::{Command, asked};
use std::alloc::Global;
use std::test::*;

/// The words of a line.
fn words(alloc: Global, line: &str) -> Result<Vec<String>, Fail> {
    let mut words = Vec::new(alloc);
    for word in line.split(' ') {
        words.push(String::from_str(alloc, word)?)?;
    }
    Ok(words)
}

/// What a command is.
fn told(alloc: Global, command: &Command) -> Result<String, Fail> {
    let text = match command {
        Command::Replay => format!(in alloc; "replay"),
        Command::ReplayPolicy { name } => format!(in alloc; "replay {name}"),
        Command::ExplainPolicy { name } => format!(in alloc; "explain {name}"),
        Command::Serve { name } => format!(in alloc; "serve {name}"),
        Command::Make { seed, count } => format!(in alloc; "make {seed} {count}"),
    };
    Ok(text?)
}

/// What the words of a line ask for.
fn shown(alloc: Global, line: &str) -> Result<String, Fail> {
    match asked(alloc, words(alloc, line)?.as_slice())? {
        Some(command) => told(alloc, &command),
        None => Ok(format!(in alloc; "no form")?),
    }
}

const LINES: [(&str, &str); 27] = [
    ("replay", "replay"),
    ("replay replay", "replay replay"),
    ("replay help", "replay help"),
    ("replay a=--b", "replay a=--b"),
    ("replay +x", "replay +x"),
    ("replay --help", "no form"),
    ("replay -", "no form"),
    ("replay ", "no form"),
    ("replay a b", "no form"),
    ("replay \u{e9}", "no form"),
    ("explain", "no form"),
    ("explain a.policy", "explain a.policy"),
    ("serve", "no form"),
    ("serve a.policy", "serve a.policy"),
    ("serve serve", "serve serve"),
    ("serve a b", "no form"),
    ("serve -v", "no form"),
    ("make 0 1", "make 0 1"),
    (
        "make 18446744073709551615 2000",
        "make 18446744073709551615 2000",
    ),
    ("make 18446744073709551616 1", "no form"),
    ("make 1 0", "no form"),
    ("make 1 2001", "no form"),
    ("make 1", "no form"),
    ("make 01 1", "no form"),
    ("help", "no form"),
    ("help replay", "no form"),
    ("", "no form"),
];

#[test]
fn lines_are_asked(rt: HostRuntime) -> Result<(), Fail> {
    for (line, wanted) in &LINES {
        let text = shown(rt.alloc(), line)?;
        assert_eq!(rt; text.as_str(), *wanted);
    }
    Ok(())
}
