//! The program `covisor`: a hypervisor for OpenFlow 1.0 networks. The words after its name say what it does; a script
//! comes on standard input, a report goes to standard output, sentences to the operator go to standard error, policies are
//! files, controllers and switches are reached over TCP.
#![tactic(auto)]

ghost use Rattle.std.specs.Prelude.{◌≡◌, ◌<◌};

mod watched;

use covisor_proxy::{MEMORY, run};
use cv_io::Steps;
use outside::{Dial, DiskFiles, Incoming, Links, Outgoing, ScopeSpawner, SystemClock};
use std::io::ErrorKind;
use std::marker::Brand;
use std::process::ExitCode;
use std::sync::Wait;
use std::sync::ledger::{Blank, Ledger};
use std::thread::Threads;
use std::{env, io};
use tcp_links::{Settings, TcpLinks};
use watched::Watched;

/// The words after the program's name. Where one isn't text there are none, which is no form of
/// the command line either; None for want of memory.
fn given_words(rt: &HostRuntime) -> Option<Vec<String>> {
    let mut words = Vec::new(rt.alloc());
    let given = match env::args(rt) {
        Ok(given) => given,
        Err(fault) if fault.kind() == ErrorKind::OutOfMemory => return None,
        Err(_) => return Some(words),
    };
    for word in given.skip(1) {
        if words.push(word).is_err() {
            return None;
        }
    }
    Some(words)
}

/// Runs over the machine's files, standard input and output, connections and clock, with a counter of steps of its own.
fn run_counted<R: Wait + Threads + Sync, L: Links, G: Ledger>(
    host: &HostRuntime,
    rt: &R,
    words: &[String],
    links: &mut L,
    blank: Blank,
) -> u8
where
    L::Dial: Drop,
    <L::Dial as Dial>::In: Drop + Send,
    <L::Dial as Dial>::Out: Drop + Send,
    requires { (blank.name ≡ G.name) × (blank.parts ≡ G.parts) × (0 < blank.parts) }
{
    let mut files = DiskFiles::new(host);
    let mut input = Incoming::new(host.stdin());
    let mut out = Watched::new(host, Outgoing::new(io::writer(host)));
    let mut notes = Outgoing::new(host.stderr());
    let mut spawner = ScopeSpawner::new();
    let clock = SystemClock::new(host);
    let mut steps = Steps::<G>::new(blank);
    run(
        rt,
        host.alloc(),
        words,
        &mut files,
        &mut input,
        &mut out,
        &mut notes,
        links,
        &mut spawner,
        &clock,
        &mut steps,
    )
}

fn main(rt: HostRuntime) -> ExitCode {
    let Some(words) = given_words(&rt) else {
        return ExitCode::from(MEMORY);
    };
    let settings = Settings::read(&rt);
    // connections are for policies that are served
    let mut links = match words.first() {
        Some(word) if word.as_str() == "serve" => TcpLinks::open(&rt, rt.alloc(), settings),
        _ => TcpLinks::new(&rt, rt.alloc(), settings),
    };
    let status = run_counted::<_, _, Brand>(&rt, &rt, words.as_slice(), &mut links, Blank::new(1));
    links.close();
    ExitCode::from(status)
}
