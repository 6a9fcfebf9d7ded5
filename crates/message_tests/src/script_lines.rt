//! Lines of scripts, of their reports and of the audit.
use cv_io::{Bytes, Text};
use script_text::{Audit, DownCause, Form, Line, audit_line, read_line, report_line};
use std::alloc::Global;
use std::test::*;

/// What a line says.
fn told(alloc: Global, line: &Line) -> Result<String, Fail> {
    let text = match line {
        Line::Blank => format!(in alloc; "blank"),
        Line::Up { name, noarp } => format!(in alloc; "up {name} {noarp}"),
        Line::From { name, bytes } => format!(in alloc; "from {name} {:?}", bytes.as_slice()),
        Line::Gone { name } => format!(in alloc; "gone {name}"),
        Line::Tick { second } => format!(in alloc; "tick {second}"),
        Line::Expr { name, text } => format!(in alloc; "expr {name} {text}"),
        Line::Ask {
            switch,
            port,
            bytes,
        } => format!(in alloc; "ask {switch} {port} {:?}", bytes.as_slice()),
        Line::Packet {
            switch,
            port,
            bytes,
        } => format!(in alloc; "packet {switch} {port} {}", bytes.len()),
    };
    Ok(text?)
}

/// What is read, or the kind of its fault.
fn shown(alloc: Global, form: Form, line: &[u8]) -> Result<String, Fail> {
    match read_line(alloc, form, line) {
        Ok(line) => {
            let text = told(alloc, &line);
            drop(line);
            text
        }
        Err(fault) => Ok(format!(in alloc; "{fault}")?),
    }
}

const LINES: [(Form, &str, &str); 20] = [
    (Form::Replay, "# up s1", "blank"),
    (Form::Replay, "up s1", "up s1 false"),
    (Form::Replay, "up s1 noarp", "up s1 true"),
    (Form::Replay, "up a_345678901234567", "name"),
    (Form::Replay, "up app@v1@v2", "name"),
    (Form::Replay, "up s1 ", "word"),
    (Form::Replay, "up app@v1 noarp", "word"),
    (Form::Replay, "from app@v1 0aF0", "from app@v1 [10, 240]"),
    (Form::Replay, "from s1 0", "hex"),
    (Form::Replay, "gone s1", "gone s1"),
    (
        Form::Replay,
        "tick 18446744073709551615",
        "tick 18446744073709551615",
    ),
    (Form::Replay, "tick 18446744073709551616", "number"),
    (Form::Replay, "tick 01", "number"),
    (Form::Replay, "expr v1 mon|>rt", "expr v1 mon|>rt"),
    (Form::Replay, "ask s1:1 00", "word"),
    (Form::Explain, "ask s1:65535 00", "ask s1 65535 [0]"),
    (Form::Explain, "ask s1:65536 00", "name"),
    (Form::Sim, "packet s1:1 00112233445566778899aabbcc", "hex"),
    (
        Form::Sim,
        "packet s1:1 00112233445566778899aabbccdd",
        "packet s1 1 14",
    ),
    (Form::Sim, "up s1 noarp", "word"),
];

#[test]
fn lines(rt: HostRuntime) -> Result<(), Fail> {
    for (form, line, want) in &LINES {
        let text = shown(rt.alloc(), *form, line.as_bytes())?;
        assert_eq!(rt; text.as_str(), *want, "at {line}");
    }
    Ok(())
}

fn text(alloc: Global, letters: &str) -> Result<Text, Fail> {
    Ok(Text::from_bytes(Bytes::from_slice(alloc, letters.as_bytes())?)?)
}

fn texts(alloc: Global, one: &str, other: &str) -> Result<(Text, Text), Fail> {
    let one = text(alloc, one)?;
    Ok((one, text(alloc, other)?))
}

/// Session app@v1 is refused its message 33.
fn denial(alloc: Global) -> Result<Audit, Fail> {
    let (controller, vsw) = texts(alloc, "app", "v1")?;
    let (rule, detail) = texts(alloc, "form", "error=2,1")?;
    Ok(Audit::Deny {
        controller,
        vsw,
        xid: 33,
        rule,
        detail,
    })
}

/// What the audit tells.
fn audited(alloc: Global, audit: Audit) -> Result<Text, Fail> {
    let line = audit_line(alloc, &audit);
    drop(audit);
    Ok(line?)
}

/// What it tells when the switch s1 goes down.
fn down(alloc: Global, cause: DownCause) -> Result<Text, Fail> {
    let name = text(alloc, "s1")?;
    audited(alloc, Audit::Down { name, cause })
}

/// Whether a line is this one.
fn is_line(line: Text, want: &str) -> bool {
    let same = line.as_bytes() == want.as_bytes();
    drop(line);
    same
}

#[test]
fn audit_of_a_denial(rt: HostRuntime) -> Result<(), Fail> {
    let denial = denial(rt.alloc())?;
    let line = audited(rt.alloc(), denial)?;
    let same = is_line(line, "deny ctl=app vsw=v1 xid=33 rule=form error=2,1");
    assert!(rt; same);
    Ok(())
}

#[test]
fn audit_of_switches(rt: HostRuntime) -> Result<(), Fail> {
    for (cause, want) in [
        (DownCause::Gone, "down s1 why=gone"),
        (DownCause::Removal, "down s1 why=removal"),
    ] {
        let line = down(rt.alloc(), cause)?;
        let same = is_line(line, want);
        assert!(rt; same, "{want}");
    }
    Ok(())
}

/// The line of three bytes to a session.
fn reported(alloc: Global) -> Result<Text, Fail> {
    let name = text(alloc, "app@v1")?;
    let line = report_line(alloc, &name, &[1, 0x12, 0xff]);
    drop(name);
    Ok(line?)
}

#[test]
fn report(rt: HostRuntime) -> Result<(), Fail> {
    let line = reported(rt.alloc())?;
    let same = is_line(line, "to app@v1 0112ff");
    assert!(rt; same);
    Ok(())
}
