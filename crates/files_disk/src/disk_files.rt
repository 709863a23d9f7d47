//! Real files, by their paths.
ghost use Rattle.std.specs.Prelude.{IfOk};
ghost use Rattle.lt_world.specs.FileAnswers.{OpenedWithin};
ghost use Rattle.files_disk.specs.Opening.{OpensOne, RegularWithin};

use crate::last_found::LastFound;
use crate::looking::{look, seen};
use crate::names::name_of;
use crate::open_files::OpenFiles;
use crate::ranges::fill;
use crate::refusals::{Refusal, refusal_of};
use lt_world::{Fault, FileId, Files, Found, Opened, Owner, ReadLog};
use std::fs::File;
use std::{fs, rt};

/// The files of a file system, over the runtime `R`. They tell nothing of what stands there.
///
/// A path that is not UTF-8, or that holds a NUL, names nothing. Only regular files are opened: a directory, a pipe, a
/// socket or a device is none, and none of them is waited for: `open` opens only where a look found a regular file, its own
/// or that of the last `find` that found one, if it was of the same path. It cannot look and open in one step: where a pipe
/// takes the place of a regular file between the two, `open` waits for its writer.
#[derive(Drop)]
pub struct DiskFiles<R> {
    rt: R,
    table: OpenFiles<File>,
    last: LastFound,
    faults: u64,
    reads: ReadLog,
}

impl<R: AllocGlobal> DiskFiles<R> {
    /// No file is open, and no memory is taken.
    pub fn new(rt: R) -> DiskFiles<R> {
        let table = OpenFiles::new(rt.alloc());
        DiskFiles {
            rt,
            table,
            last: LastFound::none(),
            faults: 0,
            reads: ReadLog::new(),
        }
    }
}

impl<R: rt::Files<File = File>> Files for DiskFiles<R> {
    ghost use Rattle.std.specs.Prelude.{◌≤◌, [], None};
    ghost use Rattle.std.proofs.Common.{le_refl, le_trans};
    ghost use Rattle.lt_world.specs.Disk.{Missing};

    ghost tells = { ⊥ };

    ghost disk = { λ _. record { tree = λ _. Missing; table = λ _. None; calls = [] } };

    ghost faults = { λ files. files.faults };

    ghost reads = { λ files. files.reads };

    // What is later has failed as often or more.
    ghost later = { λ a b. a.faults ≤ b.faults };

    ghost later_same = { λ a. le_refl a.faults };

    ghost later_later = { λ _ _ _ ab bc. le_trans ab bc };

    ghost later_faults = { λ _ _ later. later };

    fn find(&mut self, _owner: Owner, path: &[u8]) -> Found {
        let found = look(&self.rt, path);
        match found {
            Found::File { size: _, time: _ } => self.last.keep(path),
            Found::Failed => self.faults = self.faults.saturating_add(1),
            _ => {}
        }
        found
    }

    fn open(&mut self, _owner: Owner, path: &[u8]) -> Opened {
        let found = self.last.take(path);
        let opened = open_at(&self.rt, &mut self.table, path, found);
        if let Opened::Failed = opened {
            self.faults = self.faults.saturating_add(1);
        }
        opened
    }

    fn read_at(
        &mut self,
        owner: Owner,
        file: FileId,
        start: u64,
        buf: &mut [u8],
    ) -> Result<(), Fault> {
        let read = match self.table.at(file) {
            Some(file) => fill(file, start, buf),
            None => Err(Fault),
        };
        if read.is_err() {
            self.faults = self.faults.saturating_add(1);
        }
        self.reads.add(owner, &read);
        read
    }

    fn release(&mut self, file: FileId) {
        self.table.release(file);
    }
}

// Opens the regular file at a path under a number that no open file has. `found` says that a look has just found one.
fn open_at<R: rt::Files<File = File>>(
    rt: &R,
    table: &mut OpenFiles<File>,
    path: &[u8],
    found: bool,
) -> Opened
    ensures opens { OpensOne result table.old table.new }
    ensures within { OpenedWithin result path.now }
{
    if table.make_room().is_err() {
        return Opened::NoMemory;
    }
    match open_regular(rt, path, found) {
        Ok(Regular { file, size, time }) => Opened::File {
            file: table.add(file),
            size,
            time,
        },
        Err(Refusal::NoMemory) => Opened::NoMemory,
        Err(_) => Opened::Failed,
    }
}

// A regular file that was opened, with its size and its time.
#[derive(Drop)]
struct Regular {
    file: File,
    size: u64,
    time: u64,
}

fn open_regular<R: rt::Files<File = File>>(
    rt: &R,
    path: &[u8],
    found: bool,
) -> Result<Regular, Refusal>
    ensures { IfOk result (λ regular. RegularWithin regular.size path.now) }
{
    let Some(name) = name_of(path) else {
        return Err(Refusal::Missing);
    };
    if !found {
        refuse_irregular(rt, path)?;
    }
    let file = match fs::open(rt, name) {
        Ok(file) => file,
        Err(error) => return Err(refusal_of(&error)),
    };
    let metadata = match file.metadata() {
        Ok(metadata) => metadata,
        Err(error) => return Err(refusal_of(&error)),
    };
    match seen(&metadata, path) {
        Found::File { size, time } => Ok(Regular { file, size, time }),
        _ => Err(Refusal::Failed),
    }
}

// Only a regular file is opened.
fn refuse_irregular<R: rt::Files>(rt: &R, path: &[u8]) -> Result<(), Refusal> {
    match look(rt, path) {
        Found::File { size: _, time: _ } => Ok(()),
        Found::Missing => Err(Refusal::Missing),
        Found::NoMemory => Err(Refusal::NoMemory),
        _ => Err(Refusal::Failed),
    }
}
