//! Files: what they answer, and what their answers mean.
use crate::fault::Fault;
use crate::net::Owner;

/// An opened file, by its number.
#[derive(Clone, Copy, Debug, PartialEq, Eq)]
pub struct FileId(pub u32);

/// The kinds of calls that may fail.
#[derive(Clone, Copy, Debug, PartialEq, Eq)]
pub enum FileCall {
    Find,
    Open,
    Read,
}

/// A call of `find` or `open` that was made for a request.
#[derive(Clone, Copy, Debug, PartialEq, Eq)]
pub struct Call {
    pub kind: FileCall,
    pub owner: Owner,
    pub failed: bool,
}

/// What stands at a path.
#[derive(Clone, Copy, Debug, PartialEq, Eq)]
pub enum Found {
    /// Its size in bytes, and the time of its last change in seconds since 1970.
    File { size: u64, time: u64 },
    Directory,
    Missing,
    Failed,
    NoMemory,
}

#[derive(Clone, Copy, Debug, PartialEq, Eq)]
pub enum Opened {
    /// As `Found::File`, with the number under which the bytes can be read now.
    File { file: FileId, size: u64, time: u64 },
    Failed,
    NoMemory,
}

/// The files that the server serves.
///
/// `read_at` and `release` take no memory. A call that answers for want of memory is not counted among the calls that
/// were made.
pub trait Files {
    ghost use Rattle.std.specs.Prelude.{◌≡◌, ℕ, ◌≤◌, length, OnOk, OnErr};
    ghost use Rattle.lt_world.specs.Disk.{Disk, Reads, IsFileAt, IsOpenAt, HasRange, range_of, released};
    ghost use Rattle.lt_world.specs.FileAnswers.{found_disk, FoundRight, FoundWithin, FoundCause, Opens, OpenedWithin, OpenedCause, read_once};
    ghost use Rattle.lt_world.specs.Causes.{Rose};

    /// Whether files of this type tell what they hold and what was asked.
    ghost tells: { Type 0 };

    /// The tree, the table of opened files, and the calls of `find` and `open` so far.
    ghost disk: { Self → Disk };

    /// How often a call has failed. It never falls.
    ghost faults: { Self → ℕ };

    /// How often `read_at` was called, and for whom it failed last.
    ghost reads: { Self → Reads };

    /// The second files are what the first may become. What is later has failed as often or more.
    ghost later: { Self → Self → Type 0 };

    /// What stands at a path.
    fn find(&mut self, owner: Owner, path: &[u8]) -> Found
        ensures disk { tells → disk self.new ≡ found_disk result owner (disk self.old) }
        ensures right { tells → FoundRight result ((disk self.old).tree path.now) }
        ensures within { FoundWithin result path.now }
        ensures cause { FoundCause result (faults self.old) (faults self.new) }
        ensures faults { faults self.old ≤ faults self.new }
        ensures reads { reads self.new ≡ reads self.old }
        ensures later { later self.old self.new };

    /// Opens the file at a path.
    fn open(&mut self, owner: Owner, path: &[u8]) -> Opened
        requires { tells → IsFileAt path.now (disk self.old).tree }
        ensures opens { tells → Opens result owner path.now (disk self.old) (disk self.new) }
        ensures within { OpenedWithin result path.now }
        ensures cause { OpenedCause result (faults self.old) (faults self.new) }
        ensures faults { faults self.old ≤ faults self.new }
        ensures reads { reads self.new ≡ reads self.old }
        ensures later { later self.old self.new };

    /// Fills the whole buffer with the bytes of an opened file from `start` on, or fails.
    fn read_at(
        &mut self,
        owner: Owner,
        file: FileId,
        start: u64,
        buf: &mut [u8],
    ) -> Result<(), Fault>
        requires { tells → HasRange (disk self.old) file.0 start (length buf.old) }
        ensures bytes { OnOk result (tells → buf.new ≡ range_of (disk self.old) file.0 start (length buf.new)) }
        ensures disk { tells → disk self.new ≡ disk self.old }
        ensures cause { OnErr result (Rose (faults self.old) (faults self.new)) }
        ensures faults { faults self.old ≤ faults self.new }
        ensures reads { reads self.new ≡ read_once result owner (reads self.old) }
        ensures later { later self.old self.new };

    /// Closes an opened file.
    fn release(&mut self, file: FileId)
        requires { tells → IsOpenAt file.0 (disk self.old) }
        ensures disk { tells → disk self.new ≡ released file.0 (disk self.old) }
        ensures faults { faults self.old ≤ faults self.new }
        ensures reads { reads self.new ≡ reads self.old }
        ensures later { later self.old self.new };

    ghost later_same: { (files : Self) → later files files };

    ghost later_later: { (a b c : Self) → later a b → later b c → later a c };

    ghost later_faults: { (a b : Self) → later a b → faults a ≤ faults b };
}
