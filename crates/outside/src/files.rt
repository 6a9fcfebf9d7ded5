//! Files that are read whole, by name.
ghost use Rattle.std.specs.Prelude.{◌≡◌, ◌≤◌, ◌↔◌, ℕ, List, Option, Some, None, Ok, Err, false, option_copied, IfOk};
ghost use Rattle.std.specs.Prelude.{IfErr, OnOk, IfSome, IsTrue};
ghost use Rattle.outside.specs.Outside.{Rose, is_listed, next_count};
ghost use Rattle.outside.specs.Files.{FilesOf, found};

use crate::calls::Calls;
use cv_io::{Bytes, Duplicate, List, Memory, Text};
use std::alloc::Global;
use std::fs;
use std::io::ErrorKind;
use std::marker::Model;
use thiserror::Error;

/// Why a file wasn't read.
#[derive(Clone, Copy, PartialEq, Eq, Debug, Error)]
pub enum FileFault {
    #[error("there is no such file")]
    Absent,
    #[error("the file could not be read")]
    Failed,
    #[error("out of memory")]
    Memory,
}

/// A file in memory.
#[derive(Drop, Debug)]
pub struct MemFile {
    pub name: Text,
    pub bytes: Bytes,
}

/// Files that are read whole, by name.
pub trait Files {
    ghost use Rattle.outside.specs.declared.files.MemFile.{MemFile};

    // The files, where they are told.
    ghost files: { Self → Option (List MemFile) };

    // How many calls failed.
    ghost faults: { Self → ℕ };

    /// The bytes of the first file of that name.
    fn read(&mut self, name: &Text) -> Result<Bytes, FileFault>
        ensures bytes { IfOk result (λ bytes. IfSome (files self.old) (λ files. found files name.now ≡ Some bytes)) }
        ensures absent { IfSome (files self.old)
            (λ files. (result ≡ Err FileFault.Absent) ↔ (found files name.now ≡ None)) }
        ensures kept { files self.new ≡ files self.old }
        ensures fault { result ≡ Err FileFault.Failed → Rose (faults self.old) (faults self.new) }
        ensures quiet { OnOk result (faults self.new ≡ faults self.old) }
        ensures never_falls { faults self.old ≤ faults self.new };
}

/// Files in memory. Of the calls that name a file that is there, listed ones fail.
#[derive(Drop, Debug)]
pub struct MemFiles {
    files: List<MemFile>,
    calls: Calls,
}

impl Model for MemFiles {
    ghost use Rattle.outside.specs.Files.{FilesOf};

    ghost Value = { FilesOf };

    ghost view = { λ f. record {
      files = f.files;
      fails = f.calls.fails;
      made = f.calls.made;
      faults = f.calls.faults;
    } };
}

impl MemFiles {
    /// These files; of two with one name the first is read. `fails` lists the numbers of the calls
    /// that are to fail, from 1.
    pub fn new(files: List<MemFile>, fails: List<u64>) -> Self
        ensures { result ≡ record { files = files; fails = fails; made = 0; faults = 0 } }
    {
        MemFiles {
            files,
            calls: Calls::new(fails),
        }
    }
}

/// The bytes of the first file of a name.
fn find<'a>(files: &'a [MemFile], name: &Text) -> Option<&'a Bytes>
    ensures { option_copied result ≡ found files.now name.now }
{
    for file in files {
        if file.name == *name {
            return Some(&file.bytes);
        }
    }
    None
}

impl Files for MemFiles {
    ghost files = { λ f. Some f.files };

    ghost faults = { λ f. f.faults };

    fn read(&mut self, name: &Text) -> Result<Bytes, FileFault>
        ensures bytes { IfOk result (λ bytes. found self.old.files name.now ≡ Some bytes) }
        ensures absent { (result ≡ Err FileFault.Absent) ↔ (found self.old.files name.now ≡ None) }
        ensures kept { self.new.files ≡ self.old.files }
        ensures fault { result ≡ Err FileFault.Failed → Rose self.old.faults self.new.faults }
        ensures quiet { OnOk result (self.new.faults ≡ self.old.faults) }
        ensures never_falls { self.old.faults ≤ self.new.faults }
        ensures unlisted { result ≡ Err FileFault.Failed
            → IsTrue (is_listed self.old.fails (next_count self.old.made)) }
        ensures listed { IfOk result (λ _. is_listed self.old.fails (next_count self.old.made) ≡ false) }
        ensures made { (self.new.made ≡ next_count self.old.made) × (self.new.fails ≡ self.old.fails) }
    {
        let fails = self.calls.make();
        let Some(bytes) = find(self.files.as_slice(), name) else {
            return Err(FileFault::Absent);
        };
        if fails {
            self.calls.fault();
            return Err(FileFault::Failed);
        }
        match bytes.copy() {
            Ok(bytes) => Ok(bytes),
            Err(Memory) => Err(FileFault::Memory),
        }
    }
}

/// The machine's files. They tell nothing of what they hold.
#[derive(Drop)]
pub struct DiskFiles<'a, R> {
    rt: &'a R,
    faults: u64,
}

impl<'a, R> DiskFiles<'a, R> {
    pub fn new(rt: &'a R) -> Self
        ensures { result.faults ≡ 0 }
    {
        DiskFiles { rt, faults: 0 }
    }
}

/// The bytes of a file of the machine.
fn read_whole<R: fs::Files + Alloc<A = Global>>(rt: &R, name: &Text) -> Result<Bytes, FileFault> {
    let Ok(path) = str::from_utf8(name.as_bytes()) else {
        return Err(FileFault::Failed);
    };
    match fs::read(rt, path) {
        Ok(bytes) => Ok(List::from_vec(bytes)),
        Err(fault) => Err(match fault.kind() {
            ErrorKind::NotFound => FileFault::Absent,
            ErrorKind::OutOfMemory => FileFault::Memory,
            _ => FileFault::Failed,
        }),
    }
}

impl<R: fs::Files + Alloc<A = Global>> Files for DiskFiles<'_, R> {
    ghost files = { λ _. None };

    ghost faults = { λ f. f.faults };

    fn read(&mut self, name: &Text) -> Result<Bytes, FileFault> {
        let result = read_whole(self.rt, name);
        if let Err(FileFault::Failed) = result {
            self.faults = self.faults.saturating_add(1);
        }
        result
    }
}
