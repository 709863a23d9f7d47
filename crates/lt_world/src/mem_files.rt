//! Files in memory, some of whose calls fail as planned. They tell all.
ghost use Rattle.std.specs.Prelude.{◌≡◌, ◌+◌, ◌≤◌, ◌<◌, length, [], ◌∷◌, ◌++◌, None, OnOk, OnErr, ℕ, List, Some, true};
ghost use Rattle.lt_world.specs.Disk.{IsFileAt};
ghost use Rattle.lt_world.specs.FileAnswers.{FoundRight, FoundWithin, OpenedWithin};
ghost use Rattle.lt_world.specs.FileRuns.{planned, after_find, after_open, after_read, after_release, FindPlanned, OpenPlanned, ReadPlanned, OpensAt, ReadsAt};
ghost use Rattle.lt_world.specs.Memory.{no_files, tree_of, table_by, with_file_at, with_directory_at, is_path};
ghost use Rattle.lt_world.specs.Plans.{is_due};
ghost use Rattle.lt_world.specs.Slots.{closes_slot};

use crate::content::Content;
use crate::fault::Fault;
use crate::files::{Call, FileCall, FileId, Files, Found, Opened};
use crate::log::Log;
use crate::net::Owner;
use crate::places::{Places, Seen, Standing};
use crate::plan::Plan;
use crate::slots::Slots;
use lt_bytes::NoMemory;
use std::alloc::Global;
use std::marker::Model;

/// Files and directories that were added by hand. Contracts see them as what was placed, what is open, the calls that
/// were made and the plans.
#[derive(Drop)]
pub struct MemFiles {
    alloc: Global,
    places: Places,
    slots: Slots,
    calls: Log<Call>,
    find_plan: Plan,
    open_plan: Plan,
    read_plan: Plan,
    faults: u64,
    failed_read: Option<Owner>,
}

impl Model for MemFiles {
    ghost use Rattle.lt_world.specs.Memory.{Stored};

    ghost Value = { Stored };

    ghost view = { λ f. record { places = f.places; opened = f.slots; calls = f.calls; find_plan = f.find_plan; open_plan = f.open_plan; read_plan = f.read_plan; faults = f.faults; failed_read = f.failed_read } };
}

impl MemFiles {
    /// No files, no calls, no plans.
    pub fn new(alloc: Global) -> MemFiles
        ensures { result ≡ no_files }
    {
        MemFiles {
            alloc,
            places: Places::new(alloc),
            slots: Slots::new(alloc),
            calls: Log::new(alloc),
            find_plan: Plan::new(alloc),
            open_plan: Plan::new(alloc),
            read_plan: Plan::new(alloc),
            faults: 0,
            failed_read: None,
        }
    }

    /// Makes a path a file of these bytes, and each of its parents a directory. What stands below the path stays, and so
    /// do the bytes of opened files. 2^62 bytes or more are answered as want of memory.
    pub fn add_file(&mut self, path: &[u8], time: u64, bytes: &[u8]) -> Result<(), NoMemory>
        requires { is_path path.now ≡ true }
        ensures tree { OnOk result (tree_of self.new ≡ with_file_at path.now time bytes.now (tree_of self.old)) }
        ensures rest { self.new ≡ record self.old { places = self.new.places } }
        ensures err { OnErr result (self.new ≡ self.old) }
    {
        let content = Content::copy_of(self.alloc, time, bytes)?;
        self.places.place(path, Standing::File(content))
    }

    /// Makes a path and each of its parents a directory.
    pub fn add_dir(&mut self, path: &[u8]) -> Result<(), NoMemory>
        requires { is_path path.now ≡ true }
        ensures tree { OnOk result (tree_of self.new ≡ with_directory_at path.now (tree_of self.old)) }
        ensures rest { self.new ≡ record self.old { places = self.new.places } }
        ensures err { OnErr result (self.new ≡ self.old) }
    {
        self.places.place(path, Standing::Directory)
    }

    /// The call of this kind with this number, counted from 0, fails.
    pub fn plan(&mut self, kind: FileCall, nth: u32) -> Result<(), NoMemory>
        ensures ok { OnOk result (self.new ≡ planned kind nth self.old) }
        ensures err { OnErr result (self.new ≡ self.old) }
    {
        match kind {
            FileCall::Find => self.find_plan.add(nth),
            FileCall::Open => self.open_plan.add(nth),
            FileCall::Read => self.read_plan.add(nth),
        }
    }

    fn find_next(&mut self, owner: Owner, path: &[u8]) -> Found
        ensures becomes { self.new ≡ after_find result owner self.old }
        ensures planned { FindPlanned result (is_due self.old.find_plan) }
        ensures right { FoundRight result (tree_of self.old path.now) }
        ensures within { FoundWithin result path.now }
        ensures faults { self.old.faults ≤ self.new.faults }
    {
        let failed = self.find_plan.is_due();
        let call = Call {
            kind: FileCall::Find,
            owner,
            failed,
        };
        if self.calls.add(call).is_err() {
            return Found::NoMemory;
        }
        self.find_plan.count();
        if failed {
            self.faults = self.faults.saturating_add(1);
            return Found::Failed;
        }
        match self.places.at(path) {
            Seen::Missing => Found::Missing,
            Seen::Directory => Found::Directory,
            Seen::File(content) => Found::File {
                size: content.size(),
                time: content.time,
            },
        }
    }

    fn open_next(&mut self, owner: Owner, path: &[u8]) -> Opened
        requires { IsFileAt path.now (tree_of self.old) }
        ensures becomes { self.new ≡ after_open result owner path.now self.old }
        ensures planned { OpenPlanned result (is_due self.old.open_plan) }
        ensures right { OpensAt result (tree_of self.old path.now) (length self.old.opened) }
        ensures within { OpenedWithin result path.now }
        ensures faults { self.old.faults ≤ self.new.faults }
    {
        let Seen::File(content) = self.places.at(path) else {
            return Opened::NoMemory;
        };
        let failed = self.open_plan.is_due();
        let call = Call {
            kind: FileCall::Open,
            owner,
            failed,
        };
        if self.calls.add(call).is_err() {
            return Opened::NoMemory;
        }
        if failed {
            self.open_plan.count();
            self.faults = self.faults.saturating_add(1);
            return Opened::Failed;
        }
        let Some(file) = self.slots.open(&content.bytes) else {
            self.calls.undo();
            return Opened::NoMemory;
        };
        self.open_plan.count();
        Opened::File {
            file: FileId(file),
            size: content.size(),
            time: content.time,
        }
    }

    fn read_next(
        &mut self,
        owner: Owner,
        file: FileId,
        start: u64,
        buf: &mut [u8],
    ) -> Result<(), Fault>
        requires { (bytes : List ℕ) × (table_by self.old.opened file.0 ≡ Some bytes) × (start + length buf.old ≤ length bytes) }
        ensures becomes { self.new ≡ after_read result owner self.old }
        ensures planned { ReadPlanned result (is_due self.old.read_plan) }
        ensures bytes { OnOk result (ReadsAt file.0 start self.old.opened buf.new) }
        ensures faults { self.old.faults ≤ self.new.faults }
    {
        let failed = self.read_plan.is_due();
        self.read_plan.count();
        if failed {
            self.faults = self.faults.saturating_add(1);
            self.failed_read = Some(owner);
            return Err(Fault);
        }
        self.slots.read(file.0, start, buf);
        Ok(())
    }

    fn close(&mut self, file: FileId)
        ensures { self.new ≡ after_release file.0 self.old }
    {
        self.slots.release(file.0);
    }
}

impl Files for MemFiles {
    ghost use Rattle.lt_world.specs.Memory.{disk_of, reads_of};
    ghost use Rattle.lt_world.specs.FileRuns.{FilesLater, FilesLater-same, FilesLater-more, FilesLater-faults};

    ghost tells = { Unit {0} };

    ghost disk = { disk_of };

    ghost faults = { λ files. files.faults };

    ghost reads = { reads_of };

    ghost later = { FilesLater };

    ghost later_same = { FilesLater-same };

    ghost later_later = { FilesLater-more };

    ghost later_faults = { FilesLater-faults };

    fn find(&mut self, owner: Owner, path: &[u8]) -> Found {
        self.find_next(owner, path)
    }

    fn open(&mut self, owner: Owner, path: &[u8]) -> Opened {
        self.open_next(owner, path)
    }

    fn read_at(
        &mut self,
        owner: Owner,
        file: FileId,
        start: u64,
        buf: &mut [u8],
    ) -> Result<(), Fault> {
        self.read_next(owner, file, start, buf)
    }

    fn release(&mut self, file: FileId) {
        self.close(file);
    }
}
