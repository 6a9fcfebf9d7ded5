//! The parts, by their names.
use crate::{compose, install, join, lock, map, packet, table};
use std::env::Args;
use std::io;
use std::sync::Wait;
use std::thread::Threads;

/// A part.
#[derive(Clone, Copy)]
pub enum Part {
    Join,
    Packet,
    Table,
    Lock,
    Install,
    Map,
    Compose,
}

/// All of them, in the order in which they run.
pub const PARTS: [Part; 7] = [
    Part::Join,
    Part::Packet,
    Part::Table,
    Part::Lock,
    Part::Install,
    Part::Map,
    Part::Compose,
];

impl Part {
    /// The part that a word names.
    pub fn named(word: &str) -> Option<Part> {
        match word {
            "join" => Some(Part::Join),
            "packet" => Some(Part::Packet),
            "table" => Some(Part::Table),
            "lock" => Some(Part::Lock),
            "install" => Some(Part::Install),
            "map" => Some(Part::Map),
            "compose" => Some(Part::Compose),
            _ => None,
        }
    }

    /// The line that tells its words.
    pub fn usage(self) -> &'static str {
        match self {
            Part::Join => join::USAGE,
            Part::Packet => packet::USAGE,
            Part::Table => table::USAGE,
            Part::Lock => lock::USAGE,
            Part::Install => install::USAGE,
            Part::Map => map::USAGE,
            Part::Compose => compose::USAGE,
        }
    }

    /// Does what its words ask for.
    pub fn run<R: Wait + Threads + Sync>(
        self,
        host: &HostRuntime,
        rt: &R,
        words: &mut Args,
    ) -> io::Result<()> {
        match self {
            Part::Join => join::run(host, words),
            Part::Packet => packet::run(host, words),
            Part::Table => table::run(host, words),
            Part::Lock => lock::run(host, rt, words),
            Part::Install => install::run(host, words),
            Part::Map => map::run(host, words),
            Part::Compose => compose::run(host, rt, words),
        }
    }

    /// Does little.
    pub fn run_few<R: Wait + Threads + Sync>(self, host: &HostRuntime, rt: &R) -> io::Result<()> {
        match self {
            Part::Join => join::run_few(host),
            Part::Packet => packet::run_few(host),
            Part::Table => table::run_few(host),
            Part::Lock => lock::run_few(host, rt),
            Part::Install => install::run_few(host),
            Part::Map => map::run_few(host),
            Part::Compose => compose::run_few(host, rt),
        }
    }
}
