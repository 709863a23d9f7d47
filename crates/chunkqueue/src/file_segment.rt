//! A segment that is a range of an opened file.
ghost use Rattle.std.specs.Prelude.{◌≡◌, ◌+◌, ◌^◌, ◌≤◌, ◌<◌, ◌==◌, [], length, min, take, Some, IfOk, OnOk, OnErr, IsTrue, ◌↔◌};
ghost use Rattle.lt_world.specs.Causes.{Rose};
ghost use Rattle.lt_world.specs.Disk.{HasRange, range_of};
ghost use Rattle.chunkqueue.specs.Ranged.{without_front, front_of_range, rest_of_range, unstaged};

use buffer_pool::BUFFER_SIZE;
use lt_bytes::NoMemory;
use lt_world::{Fault, FileId, Files, Owner};
use std::alloc::Global;
use std::marker::Model;

/// What is left of a range of an opened file, with a buffer for its first bytes.
#[derive(Drop)]
pub(crate) struct FileSegment {
    file: FileId,
    start: u64,
    len: u64,
    buffer: Vec<u8>,
    // What is staged lies in the buffer between these two.
    read: usize,
    filled: usize,
}

impl Model for FileSegment {
    ghost use Rattle.chunkqueue.specs.Ranged.{Ranged};

    ghost Value = { Ranged };

    ghost use Rattle.chunkqueue.specs.Inside.{ranged_of, IsFileSegment};

    ghost view = { ranged_of };

    ghost invariant = { IsFileSegment };
}

impl FileSegment {
    /// A range of which nothing is staged. The buffer is taken here, so that staging takes no memory.
    pub(crate) fn new(
        alloc: Global,
        file: FileId,
        start: u64,
        len: u64,
    ) -> Result<FileSegment, NoMemory>
        requires { start + len < 2 ^ 63 }
        ensures { IfOk result (λ segment. segment ≡ record { file = file.0; start = start; len = len; staged = [] }) }
    {
        match Vec::from_elem(alloc, 0u8, BUFFER_SIZE) {
            Ok(buffer) => Ok(FileSegment {
                file,
                start,
                len,
                buffer,
                read: 0,
                filled: 0,
            }),
            Err(_) => Err(NoMemory),
        }
    }

    /// How many bytes are left.
    pub(crate) fn len(&self) -> u64
        ensures { result ≡ self.now.len }
    {
        self.len
    }

    /// The first `n` bytes as a range of which nothing is staged.
    pub(crate) fn copy_front(&self, alloc: Global, n: u64) -> Result<FileSegment, NoMemory>
        requires { n ≤ self.now.len }
        ensures { IfOk result (λ front. front ≡ front_of_range n self.now) }
    {
        FileSegment::new(alloc, self.file, self.start, n)
    }

    pub(crate) fn staged(&self) -> &[u8]
        ensures bytes { result.now ≡ self.now.staged }
        ensures most { length result.now ≤ BUFFER_SIZE }
    {
        &self.buffer[self.read..self.filled]
    }

    /// No byte is left.
    pub(crate) fn is_spent(&self) -> bool
        ensures { result ≡ (self.now.len == 0) }
    {
        self.len == 0
    }

    pub(crate) fn is_staged(&self) -> bool
        ensures { IsTrue result ↔ (0 < length self.now.staged) }
    {
        self.read < self.filled
    }

    /// Reads the first bytes of a range of which nothing is staged.
    pub(crate) fn stage<F: Files>(&mut self, files: &mut F, owner: Owner) -> Result<(), Fault>
        requires unstaged { self.old.staged ≡ [] }
        requires lies { F.tells → HasRange (F.disk files.old) self.old.file self.old.start (min self.old.len BUFFER_SIZE) }
        ensures rest { unstaged self.new ≡ unstaged self.old }
        ensures len { OnOk result (length self.new.staged ≡ min self.old.len BUFFER_SIZE) }
        ensures bytes { OnOk result (F.tells → self.new.staged ≡ range_of (F.disk files.old) self.old.file self.old.start (min self.old.len BUFFER_SIZE)) }
        ensures err { OnErr result (self.new ≡ self.old) }
        ensures cause { OnErr result (Rose (F.faults files.old) (F.faults files.new)) }
        ensures owner { OnErr result ((F.reads files.new).failed ≡ Some owner) }
        ensures read { OnOk result ((F.reads files.new).failed ≡ (F.reads files.old).failed) }
        ensures once { (F.reads files.new).made ≤ (F.reads files.old).made + 1 }
        ensures disk { F.tells → F.disk files.new ≡ F.disk files.old }
        ensures faults { F.faults files.old ≤ F.faults files.new }
        ensures later { F.later files.old files.new }
    {
        let n = self.len.min(BUFFER_SIZE as u64) as usize;
        self.read = 0;
        self.filled = 0;
        read_front(&mut self.buffer, n, files, owner, self.file, self.start)?;
        self.filled = n;
        Ok(())
    }

    /// Takes off bytes that are staged.
    pub(crate) fn drop_front(&mut self, n: usize)
        requires { n ≤ length self.old.staged }
        ensures { self.new ≡ without_front n self.old }
    {
        self.start += n as u64;
        self.len -= n as u64;
        self.read += n;
    }

    /// Takes off the first `n` bytes, and forgets what is staged.
    pub(crate) fn skip(&mut self, n: u64)
        requires { n ≤ self.old.len }
        ensures { self.new ≡ rest_of_range n self.old }
    {
        self.start += n;
        self.len -= n;
        self.read = 0;
        self.filled = 0;
    }

    /// Forgets what is staged.
    pub(crate) fn unstage(&mut self)
        ensures { self.new ≡ unstaged self.old }
    {
        self.read = 0;
        self.filled = 0;
    }
}

// Fills the first n bytes of a buffer by one read.
fn read_front<F: Files>(
    buffer: &mut [u8],
    n: usize,
    files: &mut F,
    owner: Owner,
    file: FileId,
    start: u64,
) -> Result<(), Fault>
    requires within { n ≤ length buffer.old }
    requires lies { F.tells → HasRange (F.disk files.old) file.0 start n }
    ensures bytes { OnOk result (F.tells → take n buffer.new ≡ range_of (F.disk files.old) file.0 start n) }
    ensures cause { OnErr result (Rose (F.faults files.old) (F.faults files.new)) }
    ensures owner { OnErr result ((F.reads files.new).failed ≡ Some owner) }
    ensures read { OnOk result ((F.reads files.new).failed ≡ (F.reads files.old).failed) }
    ensures once { (F.reads files.new).made ≤ (F.reads files.old).made + 1 }
    ensures disk { F.tells → F.disk files.new ≡ F.disk files.old }
    ensures faults { F.faults files.old ≤ F.faults files.new }
    ensures later { F.later files.old files.new }
{
    match files.read_at(owner, file, start, &mut buffer[..n]) {
        Ok(()) => Ok(()),
        Err(fault) => Err(fault),
    }
}
