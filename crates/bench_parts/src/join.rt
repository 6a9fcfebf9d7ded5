//! Joins each of so many rules with each of as many, under `+` and under `>>`, and prints how many
//! rules that makes and the sum of their levels. `bench/join_run` measures its time.
ghost use Rattle.std.specs.Prelude.{◌≡◌, ◌<◌};

mod pairs;
mod rules;

use cv_io::Steps;
use std::env::Args;
use std::io;
use std::marker::Brand;
use std::sync::ledger::{Blank, Ledger};

pub(crate) const USAGE: &str = "usage: bench_parts join RULES, of which there are 1 to 4096";

const FEW: u16 = 16;

/// The number of rules that the words ask for, from 1 to 4096.
fn asked(words: &mut Args) -> Option<u16> {
    let (Some(rules), None) = (words.next(), words.next()) else {
        return None;
    };
    rules
        .parse()
        .ok()
        .filter(|rules| 0 < *rules && *rules <= 4096)
}

/// Joins with a counter of its own.
fn counted<G: Ledger>(rt: &HostRuntime, rules: u16, blank: Blank) -> io::Result<()>
    requires { (blank.name ≡ G.name) × (blank.parts ≡ G.parts) × (0 < blank.parts) }
{
    let mut steps = Steps::<G>::new(blank);
    match pairs::join_all(rt.alloc(), rules, &mut steps) {
        Ok(made) => println!(rt; "rules={rules} made={} levels={}", made.rules, made.levels)?,
        Err(memory) => println!(rt; "{memory}")?,
    }
    Ok(())
}

/// Joins so many, and prints what that gives.
fn show(rt: &HostRuntime, rules: u16) -> io::Result<()> {
    counted::<Brand>(rt, rules, Blank::new(1))
}

/// Does what the words ask for.
pub(crate) fn run(rt: &HostRuntime, words: &mut Args) -> io::Result<()> {
    match asked(words) {
        Some(rules) => show(rt, rules),
        None => println!(rt; "{USAGE}"),
    }
}

/// Joins few.
pub(crate) fn run_few(rt: &HostRuntime) -> io::Result<()> {
    show(rt, FEW)
}
