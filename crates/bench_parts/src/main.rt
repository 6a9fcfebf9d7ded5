//! Benchmarks. They are parts of one program, so that the libraries below them are read once. The first word names a
//! part, the others are its own; the word `all` has each part do little once, as the gate does.
#![tactic(auto)]

mod compose;
mod install;
mod join;
mod lock;
mod map;
mod nets;
mod packet;
mod parts;
mod table;

use parts::{PARTS, Part};
use std::sync::Wait;
use std::thread::Threads;
use std::{env, io};

/// Each part does little.
fn run_all<R: Wait + Threads + Sync>(host: &HostRuntime, rt: &R) -> io::Result<()> {
    for part in PARTS {
        part.run_few(host, rt)?;
    }
    Ok(())
}

/// The words that each part takes.
fn print_usage(host: &HostRuntime) -> io::Result<()> {
    for part in PARTS {
        println!(host; "{}", part.usage())?;
    }
    Ok(())
}

fn main(rt: HostRuntime) -> io::Result<()> {
    let mut words = env::args(&rt)?;
    let _program = words.next();
    let Some(name) = words.next() else {
        return print_usage(&rt);
    };
    match Part::named(&name) {
        Some(part) => part.run(&rt, &rt, &mut words),
        None if name.as_str() == "all" => run_all(&rt, &rt),
        None => print_usage(&rt),
    }
}
