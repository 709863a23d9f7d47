//! Bytes behind those of the last chunk of a list.
ghost use Rattle.std.specs.Prelude.{◌≡◌, ◌+◌, ◌≤◌, ◌<◌, length, map, MatchOption};
ghost use Rattle.std.specs.Bool.{OnTrue, OnFalse};
ghost use Rattle.buffer_pool.specs.Edits.{last_of};
ghost use Rattle.buffer_pool.specs.Kept.{numbers};
ghost use Rattle.buffer_pool.specs.declared.buffer.Kind.TheVariants.{Bytes};
ghost use Rattle.chunkqueue.specs.Items.{Byte};
ghost use Rattle.chunkqueue.specs.Pooled.{AreKept, Gains, FillsOnly, weight_of};

use buffer_pool::{BUFFER_SIZE, ChunkList, Kind, Pool};

/// Two neighbouring chunks in memory behind the front hold more than this together.
pub const MERGE_SIZE: usize = 2048;

// What the last chunk holds and the room behind that, where it holds bytes in memory.
fn last_memory(chunks: &ChunkList) -> Option<(usize, usize)>
    ensures { MatchOption result
        (0 < length chunks.now → (weight_of (last_of chunks.now) ≡ MERGE_SIZE) × ((last_of chunks.now).kind ≡ Bytes → ⊥))
        (λ m. (0 < length chunks.now) × ((last_of chunks.now).kind ≡ Bytes) × (m.0 ≡ length (last_of chunks.now).bytes) × (m.1 ≡ (last_of chunks.now).room) × (m.0 + m.1 ≤ BUFFER_SIZE)) }
{
    let view = chunks.back()?;
    match view.kind {
        Kind::Bytes => Some((view.bytes.len(), view.room)),
        Kind::File { .. } => None,
    }
}

/// Puts bytes into the last chunk, where there is room for all of them.
pub(crate) fn fill_back(chunks: &mut ChunkList, pool: &mut Pool, bytes: &[u8]) -> bool
    requires kept { AreKept chunks.old }
    requires some { 0 < length bytes.now }
    ensures gains { OnTrue result (Gains chunks.old chunks.new (map Byte bytes.now)) }
    ensures same { OnFalse result ((chunks.new ≡ chunks.old) × (pool.new ≡ pool.old)) }
    ensures apart { OnFalse result (1 < length chunks.old → MERGE_SIZE < weight_of (last_of chunks.old) + length bytes.now) }
    ensures last { OnTrue result (length bytes.now ≤ weight_of (last_of chunks.new)) }
    ensures numbers { numbers chunks.new ≡ numbers chunks.old }
    ensures pool { FillsOnly pool.old pool.new (length bytes.now) }
{
    let Some((_, room)) = last_memory(chunks) else {
        return false;
    };
    if room < bytes.len() {
        return false;
    }
    chunks.put_back(pool, bytes);
    true
}
