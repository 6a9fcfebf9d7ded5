//! A row: what a run of the program is given.
ghost use Rattle.std.specs.Prelude.{◌≡◌, ◌<◌};

use crate::wires::{Party, Pause, RowLinks, RowSpawner, Wire, Wires, Written};
use covisor_proxy::run;
use cv_io::{Bytes, List, Memory, Steps, Text};
use outside::{MemClock, MemFile, MemFiles, MemSink, MemSource};
use std::alloc::Global;
use std::marker::Brand;
use std::sync::Wait;
use std::sync::ledger::{Blank, Ledger};
use std::thread::Threads;

/// Where lines go.
#[derive(Clone, Copy, PartialEq, Eq)]
enum Part {
    /// Nowhere: they are remarks.
    Remarks,
    Policy,
    Script,
    /// To the last connection, which says what they are the digits of.
    Wire,
}

/// Which first calls fail.
#[derive(Clone, Copy, PartialEq, Eq)]
struct Fails {
    file: bool,
    script: bool,
    write: bool,
    dial: bool,
    spawn: bool,
}

const NONE: Fails = Fails {
    file: false,
    script: false,
    write: false,
    dial: false,
    spawn: false,
};

#[derive(Drop)]
pub struct Row {
    /// The file policy.toml, once it was given.
    policy: Option<Bytes>,
    script: Bytes,
    wires: List<Wire>,
    part: Part,
    fails: Fails,
}

/// What a run came to.
#[derive(Drop)]
pub struct Played {
    /// What was written to the output.
    pub out: Bytes,
    /// What the operator was told.
    pub notes: Bytes,
    pub status: u8,
    /// What was written to each connection of the row.
    pub wires: List<Bytes>,
}

/// The calls that fail: the first, or none.
fn first_if(alloc: Global, fails: bool) -> Result<List<u64>, Memory> {
    let mut calls = List::new(alloc);
    if fails {
        calls.push(1)?;
    }
    Ok(calls)
}

/// The words that blanks separate.
fn words_of(alloc: Global, line: &str) -> Result<Vec<String>, Memory> {
    let mut words = Vec::new(alloc);
    for word in line.split_ascii_whitespace() {
        words.push(String::from_str(alloc, word)?)?;
    }
    Ok(words)
}

/// Whose connection a mark begins, and how many bytes end it.
fn connection(mark: &str) -> Option<(Party, usize)> {
    let mut words = mark.split_ascii_whitespace();
    let (kind, index, until) = (words.next()?, words.next()?, words.next()?);
    let index = index.parse::<u32>().ok()?;
    let until = until.parse::<usize>().ok()?;
    match kind {
        "member" => Some((Party::Member { index }, until)),
        "switch" => Some((Party::Switch { index }, until)),
        _ => None,
    }
}

impl Row {
    pub fn new(alloc: Global) -> Row {
        Row {
            policy: None,
            script: Bytes::new(alloc),
            wires: List::new(alloc),
            part: Part::Remarks,
            fails: NONE,
        }
    }

    /// Begins the next row, over the policy of this one.
    pub fn begin(&mut self) {
        self.script.clear();
        self.wires.clear();
        self.part = Part::Remarks;
        self.fails = NONE;
    }

    /// What follows is a remark.
    pub fn pause(&mut self) {
        self.part = Part::Remarks;
    }

    /// Does what a mark says; one that isn't known says nothing.
    pub fn mark(&mut self, alloc: Global, mark: &str) -> Result<(), Memory> {
        match mark {
            "policy" => {
                self.policy = Some(Bytes::new(alloc));
                self.part = Part::Policy;
            }
            "script" => {
                self.script.clear();
                self.part = Part::Script;
            }
            "cut" => {
                let _feed = self.script.pop();
            }
            "fail file" => self.fails.file = true,
            "fail script" => self.fails.script = true,
            "fail write" => self.fails.write = true,
            "fail dial" => self.fails.dial = true,
            "fail spawn" => self.fails.spawn = true,
            _ => return self.mark_with(alloc, mark),
        }
        Ok(())
    }

    /// Does what a mark of several words says.
    fn mark_with(&mut self, alloc: Global, mark: &str) -> Result<(), Memory> {
        match mark.split_once(" ") {
            Some(("pad", number)) => self.pad(number),
            Some(("after", wait)) => self.wait(wait),
            Some(("full", number)) => {
                self.fill(number);
                Ok(())
            }
            Some(("say", saying)) => self.say_often(alloc, saying),
            _ => self.begin_wire(alloc, mark),
        }
    }

    fn begin_wire(&mut self, alloc: Global, mark: &str) -> Result<(), Memory> {
        let Some((party, until)) = connection(mark) else {
            return Ok(());
        };
        self.part = Part::Wire;
        self.wires.push(Wire {
            party,
            says: Bytes::new(alloc),
            pauses: List::new(alloc),
            holds: usize::MAX,
            until,
        })
    }

    fn pad(&mut self, number: &str) -> Result<(), Memory> {
        for _ in 0..number.parse::<u32>().unwrap_or(0) {
            self.script.push(b'#')?;
        }
        self.script.push(b'\n')
    }

    /// What the last connection says from here on waits for what is written to another.
    fn wait(&mut self, mark: &str) -> Result<(), Memory> {
        let Some((party, until)) = connection(mark) else {
            return Ok(());
        };
        match self.wires.as_mut_slice().last_mut() {
            Some(wire) => {
                let at = wire.says.len();
                wire.pauses.push(Pause { at, party, until })
            }
            None => Ok(()),
        }
    }

    /// The last connection holds so many bytes, and takes more only once it says nothing more.
    fn fill(&mut self, number: &str) {
        if let (Ok(holds), Some(wire)) = (number.parse(), self.wires.as_mut_slice().last_mut()) {
            wire.holds = holds;
        }
    }

    /// The last connection says the same so many times.
    fn say_often(&mut self, alloc: Global, mark: &str) -> Result<(), Memory> {
        let Some((number, digits)) = mark.split_once(" ") else {
            return Ok(());
        };
        for _ in 0..number.parse::<u32>().unwrap_or(0) {
            self.say(alloc, digits)?;
        }
        Ok(())
    }

    /// A line of the policy, of the script or of a connection.
    pub fn line(&mut self, alloc: Global, line: &str) -> Result<(), Memory> {
        let bytes = match self.part {
            Part::Remarks => return Ok(()),
            Part::Policy => match &mut self.policy {
                Some(policy) => policy,
                None => return Ok(()),
            },
            Part::Script => &mut self.script,
            Part::Wire => return self.say(alloc, line),
        };
        bytes.extend_from_slice(line.as_bytes())?;
        bytes.push(b'\n')
    }

    /// The last connection says these digits' bytes too.
    fn say(&mut self, alloc: Global, digits: &str) -> Result<(), Memory> {
        let Ok(bytes) = hex::decode(alloc, digits) else {
            return Ok(());
        };
        match self.wires.as_mut_slice().last_mut() {
            Some(wire) => wire.says.extend_from_slice(bytes.as_slice()),
            None => Ok(()),
        }
    }

    fn files(&self, alloc: Global) -> Result<MemFiles, Memory> {
        let mut files = List::new(alloc);
        if let Some(policy) = &self.policy {
            let bytes = policy.copied()?;
            let name = Text::from_slice(alloc, b"policy.toml")?;
            files.push(MemFile { name, bytes })?;
        }
        Ok(MemFiles::new(files, first_if(alloc, self.fails.file)?))
    }

    /// A connection of the row, which says nothing more.
    pub fn party(&self, number: usize) -> Option<Party> {
        Some(self.wires.get(number)?.party)
    }
}

/// Runs the program with these words.
pub fn play<R: Wait + Threads + Sync>(
    rt: &R,
    alloc: Global,
    row: &Row,
    words: &str,
) -> Result<Played, Memory> {
    let words = words_of(alloc, words)?;
    play_counted::<R, Brand>(rt, alloc, row, words.as_slice(), Blank::new(1))
}

/// The same, with a counter of steps of this ledger.
fn play_counted<R: Wait + Threads + Sync, G: Ledger>(
    rt: &R,
    alloc: Global,
    row: &Row,
    words: &[String],
    blank: Blank,
) -> Result<Played, Memory>
    requires { (blank.name ≡ G.name) × (blank.parts ≡ G.parts) × (0 < blank.parts) }
{
    let written = sheets(alloc, row)?;
    let mut ends = Ends::of(alloc, row)?;
    let mut steps = Steps::<G>::new(blank);
    let status = run_between(
        rt,
        alloc,
        row,
        words,
        &mut ends,
        written.as_slice(),
        &mut steps,
    );
    let (out, notes) = ends.into_written();
    let wires = copies(rt, alloc, written.as_slice())?;
    Ok(Played {
        out,
        notes,
        status,
        wires,
    })
}

/// Runs the program between these ends, over the connections of a row.
fn run_between<R: Wait + Threads + Sync, G: Ledger>(
    rt: &R,
    alloc: Global,
    row: &Row,
    words: &[String],
    ends: &mut Ends,
    written: &[Written],
    steps: &mut Steps<G>,
) -> u8 {
    let wires = row.wires.as_slice();
    let mut links = RowLinks::new(rt, Wires { wires, written }, row.fails.dial);
    let mut spawner = RowSpawner::new(row.fails.spawn);
    let clock = MemClock::new(List::new(alloc));
    run(
        rt,
        alloc,
        words,
        &mut ends.files,
        &mut ends.input,
        &mut ends.out,
        &mut ends.notes,
        &mut links,
        &mut spawner,
        &clock,
        steps,
    )
}

/// The files, the script and the output of a run.
#[derive(Drop)]
struct Ends {
    files: MemFiles,
    input: MemSource,
    out: MemSink,
    notes: MemSink,
}

impl Ends {
    fn of(alloc: Global, row: &Row) -> Result<Ends, Memory> {
        let script = first_if(alloc, row.fails.script)?;
        let write = first_if(alloc, row.fails.write)?;
        let input = MemSource::new(row.script.copied()?, script);
        let out = MemSink::new(Bytes::new(alloc), write);
        let notes = MemSink::new(Bytes::new(alloc), List::new(alloc));
        Ok(Ends {
            files: row.files(alloc)?,
            input,
            out,
            notes,
        })
    }

    /// What was written to the output, and to the operator.
    fn into_written(self) -> (Bytes, Bytes) {
        let Ends { out, notes, .. } = self;
        (out.held, notes.held)
    }
}

/// Nothing was written to the connections of a row yet.
fn sheets(alloc: Global, row: &Row) -> Result<Vec<Written>, Memory> {
    let mut written = Vec::new(alloc);
    for _ in row.wires.as_slice() {
        written.push(Written::new(Bytes::new(alloc)))?;
    }
    Ok(written)
}

/// What was written to each connection.
fn copies<R: Wait>(rt: &R, alloc: Global, written: &[Written]) -> Result<List<Bytes>, Memory> {
    let mut wires = List::new(alloc);
    for wire in written {
        wires.push(wire.copy(rt)?)?;
    }
    Ok(wires)
}
