//! Bytes of a file that are read into the first chunk of a list.
ghost use Rattle.std.specs.Prelude.{◌≡◌, ◌+◌, ◌≤◌, length, Some, MatchOption, IsOk, OnOk, OnErr};
ghost use Rattle.buffer_pool.specs.Kept.{numbers};
ghost use Rattle.lt_world.specs.Causes.{Rose};
ghost use Rattle.chunkqueue.specs.Plain.{FirstLies, first_staged, first_staging, segments_unstaged, staged_by};
ghost use Rattle.chunkqueue.specs.Pooled.{AreKept, FillsOnly, IsIdle, Unread, segments_of};

use buffer_pool::{BUFFER_SIZE, ChunkList, Kind, Piece, Pool};
use lt_world::{Fault, FileId, Files, Owner};

// Bytes of an opened file, and for whom they are read.
#[derive(Drop)]
struct FilePiece {
    owner: Owner,
    file: FileId,
    start: u64,
}

impl<F: Files> Piece<F> for FilePiece {
    ghost use Rattle.lt_world.specs.Disk.{HasRange};
    ghost use Rattle.chunkqueue.specs.Reading.{IsRead};

    type Fault = Fault;

    ghost can_read = { λ piece files n. F.tells → HasRange (F.disk files) piece.file.0 piece.start n };

    ghost reads = { λ piece old result bytes new.
        IsRead piece F.tells (F.disk old) (F.disk new) (F.faults old) (F.faults new) (F.reads old) (F.reads new) result bytes × F.later old new };

    fn read(&self, files: &mut F, buf: &mut [u8]) -> Result<(), Fault> {
        files.read_at(self.owner, self.file, self.start, buf)
    }
}

/// Reads the first bytes of a range that stands first and of which nothing is staged, by one read.
pub(crate) fn stage_front<F: Files>(
    chunks: &mut ChunkList,
    pool: &mut Pool,
    files: &mut F,
    owner: Owner,
) -> Result<(), Fault>
    requires kept { AreKept chunks.old }
    requires lies { F.tells → FirstLies (F.disk files.old) (segments_of chunks.old) }
    ensures still { AreKept chunks.new }
    ensures rest { segments_unstaged (segments_of chunks.new) ≡ segments_unstaged (segments_of chunks.old) }
    ensures staged { OnOk result (length (first_staged (segments_of chunks.new)) ≡ first_staging (segments_of chunks.old)) }
    ensures bytes { OnOk result (F.tells → first_staged (segments_of chunks.new) ≡ staged_by (F.disk files.old) (segments_of chunks.old)) }
    ensures idle { first_staging (segments_of chunks.old) ≡ length (first_staged (segments_of chunks.old)) →
        IsOk result × (chunks.new ≡ chunks.old) × (files.new ≡ files.old) }
    ensures err { OnErr result (chunks.new ≡ chunks.old) }
    ensures cause { OnErr result (Rose (F.faults files.old) (F.faults files.new)) }
    ensures owner { OnErr result ((F.reads files.new).failed ≡ Some owner) }
    ensures read { OnOk result ((F.reads files.new).failed ≡ (F.reads files.old).failed) }
    ensures once { (F.reads files.new).made ≤ (F.reads files.old).made + 1 }
    ensures disk { F.tells → F.disk files.new ≡ F.disk files.old }
    ensures faults { F.faults files.old ≤ F.faults files.new }
    ensures later { F.later files.old files.new }
    ensures numbers { numbers chunks.new ≡ numbers chunks.old }
    ensures pool { FillsOnly pool.old pool.new BUFFER_SIZE }
{
    let Some((file, start, n)) = unread_front(chunks) else {
        return Ok(());
    };
    let piece = FilePiece {
        owner,
        file: FileId(file),
        start,
    };
    chunks.fill_front(pool, n, &piece, files)
}

// The file, the position and the number of the bytes that are to be read.
fn unread_front(chunks: &ChunkList) -> Option<(u32, u64, usize)>
    ensures { MatchOption result (IsIdle chunks.now) (λ m. Unread chunks.now m.0 m.1 m.2) }
{
    let view = chunks.front()?;
    match view.kind {
        Kind::Bytes => None,
        Kind::File { file, start, len } => {
            if !view.bytes.is_empty() {
                return None;
            }
            Some((file, start, len.min(BUFFER_SIZE as u64) as usize))
        }
    }
}
