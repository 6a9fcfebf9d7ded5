//! Runs worked examples of the program over files and connections in memory, and prints what each writes and its
//! status. Standard input has rows, one after the other:
//!
//!     == TITLE            begins a row, without a script, connections and failing calls; the policy of the last stands
//!     -- policy           the file policy.toml is the lines that follow
//!     -- script           the script is the lines that follow
//!     -- cut              the script's last line lacks its line feed
//!     -- pad N            the script has one more line, of N times #
//!     -- member N M       the controller of member N has a connection: it says what the lines that follow are the
//!                         digits of, and ends once M bytes were written to it
//!     -- switch N M       the same of switch N
//!     -- after WHO N M    what the connection says from here on it says once M bytes were written to WHO N
//!     -- say TIMES HEX    the connection says these bytes so many times
//!     -- full N           a write by which more than N bytes were written to the connection lasts until it says
//!                         nothing more
//!     -- fail WHAT        the first such call fails: a read of the script, of a file, a write, a dial, or the running
//!                         of works: script, file, write, dial, spawn
//!     $ covisor WORDS..   runs the program with these words; what the operator was told stands before the status, each
//!                         line behind `note`, and what was written to each connection behind it
#![tactic(auto)]

mod row;
mod wires;

use cv_io::{Bytes, Memory};
use row::{Played, Row, play};
use std::io::{self, ErrorKind};
use std::sync::Wait;
use std::thread::Threads;
use wires::Party;

fn wanted(_memory: Memory) -> io::Error {
    io::Error::from(ErrorKind::OutOfMemory)
}

/// Prints what was written to a connection.
fn show_wire(rt: &HostRuntime, party: Party, written: &Bytes) -> io::Result<()> {
    let digits = hex::encode(rt.alloc(), written.as_slice())?;
    let shown = if digits.is_empty() {
        "-"
    } else {
        digits.as_str()
    };
    match party {
        Party::Member { index } => println!(rt; "member {index} {shown}"),
        Party::Switch { index } => println!(rt; "switch {index} {shown}"),
    }
}

/// Prints what the operator was told, a line each.
fn show_notes(host: &HostRuntime, notes: &Bytes) -> io::Result<()> {
    for line in str::from_utf8(notes.as_slice()).unwrap_or("").lines() {
        println!(host; "note {line}")?;
    }
    Ok(())
}

/// Prints what a run wrote, what the operator was told, and its status.
fn tell(host: &HostRuntime, row: &Row, played: &Played) -> io::Result<()> {
    print!(host;
        "{}",
        str::from_utf8(played.out.as_slice()).unwrap_or("(not text)\n")
    )?;
    show_notes(host, &played.notes)?;
    println!(host; "status {}", played.status)?;
    for (number, written) in played.wires.as_slice().iter().enumerate() {
        if let Some(party) = row.party(number) {
            show_wire(host, party, written)?;
        }
    }
    Ok(())
}

/// Runs the program and prints what it writes, and its status.
fn show<R: Wait + Threads + Sync>(
    host: &HostRuntime,
    rt: &R,
    row: &Row,
    words: &str,
) -> io::Result<()> {
    println!(host; "$ covisor{words}")?;
    let played = play(rt, host.alloc(), row, words).map_err(wanted)?;
    tell(host, row, &played)
}

/// Does what a line of standard input says.
fn take_line<R: Wait + Threads + Sync>(
    host: &HostRuntime,
    rt: &R,
    row: &mut Row,
    line: &str,
) -> io::Result<()> {
    if line.starts_with("== ") {
        println!(host; "{line}")?;
        row.begin();
    } else if let Some(words) = line.strip_prefix("$ covisor") {
        show(host, rt, row, words)?;
        row.pause();
    } else if let Some(mark) = line.strip_prefix("-- ") {
        row.mark(host.alloc(), mark).map_err(wanted)?;
    } else {
        row.line(host.alloc(), line).map_err(wanted)?;
    }
    Ok(())
}

fn main(rt: HostRuntime) -> io::Result<()> {
    let mut row = Row::new(rt.alloc());
    for line in rt.lines(rt.alloc()) {
        take_line(&rt, &rt, &mut row, line?.as_str())?;
    }
    Ok(())
}
