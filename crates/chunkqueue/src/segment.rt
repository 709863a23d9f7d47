//! One segment of a plain queue.
ghost use Rattle.std.specs.Prelude.{◌≡◌, ◌+◌, ◌<◌, ◌≤◌, length, take, Some, IsTrue, IsOk, IfOk, OnOk, OnErr, ◌↔◌};
ghost use Rattle.lt_world.specs.Causes.{Rose};
ghost use Rattle.chunkqueue.specs.Plain.{front_of_segment, segment_after, segment_unstaged, segment_left, segment_front, segment_rest, segment_staged, segment_staging, segment_reads, IsHeld, SegmentLies};

use crate::file_segment::FileSegment;
use crate::memory_segment::MemorySegment;
use buffer_pool::BUFFER_SIZE;
use lt_bytes::NoMemory;
use lt_world::{Fault, Files, Owner};
use std::alloc::Global;

/// Bytes in memory, or a range of an opened file.
#[derive(Drop)]
pub(crate) enum Segment {
    Memory(MemorySegment),
    File(FileSegment),
}

impl Segment {
    /// The bytes that can leave now.
    pub(crate) fn front(&self) -> &[u8]
        ensures front { result.now ≡ front_of_segment self.now }
        ensures most { length result.now ≤ BUFFER_SIZE }
    {
        match self {
            Segment::Memory(memory) => at_most(memory.bytes(), BUFFER_SIZE),
            Segment::File(file) => file.staged(),
        }
    }

    /// Nothing is left.
    pub(crate) fn is_spent(&self) -> bool
        ensures { IsTrue result ↔ (segment_left self.now ≡ 0) }
    {
        match self {
            Segment::Memory(memory) => memory.bytes().is_empty(),
            Segment::File(file) => file.is_spent(),
        }
    }

    pub(crate) fn drop_front(&mut self, n: usize)
        requires { n ≤ length (front_of_segment self.old) }
        ensures { self.new ≡ segment_after n self.old }
    {
        match self {
            Segment::Memory(memory) => memory.drop_front(n),
            Segment::File(file) => file.drop_front(n),
        }
    }

    /// Reads the first bytes of a range of which nothing is staged.
    pub(crate) fn stage<F: Files>(&mut self, files: &mut F, owner: Owner) -> Result<(), Fault>
        requires held { IsHeld self.old }
        requires lies { F.tells → SegmentLies (F.disk files.old) self.old }
        ensures rest { segment_unstaged self.new ≡ segment_unstaged self.old }
        ensures staged { OnOk result (length (segment_staged self.new) ≡ segment_staging self.old) }
        ensures bytes { OnOk result (F.tells → segment_staged self.new ≡ segment_reads (F.disk files.old) self.old) }
        ensures idle { segment_staging self.old ≡ length (segment_staged self.old) →
            IsOk result × (self.new ≡ self.old) × (files.new ≡ files.old) }
        ensures err { OnErr result (self.new ≡ self.old) }
        ensures cause { OnErr result (Rose (F.faults files.old) (F.faults files.new)) }
        ensures owner { OnErr result ((F.reads files.new).failed ≡ Some owner) }
        ensures read { OnOk result ((F.reads files.new).failed ≡ (F.reads files.old).failed) }
        ensures once { (F.reads files.new).made ≤ (F.reads files.old).made + 1 }
        ensures disk { F.tells → F.disk files.new ≡ F.disk files.old }
        ensures faults { F.faults files.old ≤ F.faults files.new }
        ensures later { F.later files.old files.new }
    {
        match self {
            Segment::Memory(_) => Ok(()),
            Segment::File(file) => {
                if file.is_staged() {
                    return Ok(());
                }
                file.stage(files, owner)
            }
        }
    }

    /// How many items are left.
    pub(crate) fn len(&self) -> u64
        ensures { result ≡ segment_left self.now }
    {
        match self {
            Segment::Memory(memory) => memory.bytes().len() as u64,
            Segment::File(file) => file.len(),
        }
    }

    /// The first `n` items in a segment of their own.
    pub(crate) fn copy_front(&self, alloc: Global, n: u64) -> Result<Segment, NoMemory>
        requires { n ≤ segment_left self.now }
        ensures { IfOk result (λ s. s ≡ segment_front n self.now) }
    {
        match self {
            Segment::Memory(memory) => {
                match MemorySegment::copy_of(alloc, &memory.bytes()[..n as usize]) {
                    Ok(front) => Ok(Segment::Memory(front)),
                    Err(error) => Err(error),
                }
            }
            Segment::File(file) => match file.copy_front(alloc, n) {
                Ok(front) => Ok(Segment::File(front)),
                Err(error) => Err(error),
            },
        }
    }

    /// Takes off the first `n` items, and forgets what is staged.
    pub(crate) fn skip(&mut self, n: u64)
        requires { n ≤ segment_left self.old }
        ensures { self.new ≡ segment_rest n self.old }
    {
        match self {
            Segment::Memory(memory) => memory.drop_front(n as usize),
            Segment::File(file) => file.skip(n),
        }
    }

    pub(crate) fn unstage(&mut self)
        ensures { self.new ≡ segment_unstaged self.old }
    {
        if let Segment::File(file) = self {
            file.unstage();
        }
    }
}

fn at_most(bytes: &[u8], most: usize) -> &[u8]
    ensures front { result.now ≡ take most bytes.now }
    ensures most { length result.now ≤ most }
{
    if bytes.len() <= most {
        return bytes;
    }
    &bytes[..most]
}
