//! Chunks of one list behind those of another.
ghost use Rattle.std.specs.Prelude.{◌≡◌, ◌+◌, ◌*◌, ◌≤◌, ◌<◌, ◌^◌, [], ◌∷◌, ◌++◌, length, take, drop};
ghost use Rattle.buffer_pool.specs.Edits.{first_of, last_of, packed};
ghost use Rattle.buffer_pool.specs.Kept.{numbers, Kept, HeldWithin};
ghost use Rattle.chunkqueue.specs.Items.{staged_behind};
ghost use Rattle.chunkqueue.specs.Pooled.{AreKept, CanFollow, Gains, FillsOnly, IsSound, items_of_chunks, staged_of_chunks, staged_from, weight_of};

use crate::merging::fill_back;
use buffer_pool::{BUFFER_SIZE, Chunk, ChunkList, Kind, Pool};

/// Moves the chunks of `from` behind the others. Bytes of the first two for which there is room in the chunk before them are
/// put there, else they are moved to the beginning of their buffer, where some were taken off before them.
pub(crate) fn append_chunks(chunks: &mut ChunkList, pool: &mut Pool, from: &mut ChunkList)
    requires kept { AreKept chunks.old }
    requires behind { AreKept from.old }
    requires countable { length chunks.old + length from.old < 2 ^ 64 }
    requires counted { HeldWithin pool.old (length (numbers chunks.old) + length (numbers from.old)) }
    ensures still { AreKept chunks.new }
    ensures items { items_of_chunks chunks.new ≡ items_of_chunks chunks.old ++ items_of_chunks from.old }
    ensures staged { staged_of_chunks chunks.new ≡ staged_behind (items_of_chunks chunks.old) (staged_of_chunks chunks.old) (staged_of_chunks from.old) }
    ensures emptied { from.new ≡ [] }
    ensures len { length chunks.new ≤ length chunks.old + length from.old }
    ensures spare { length pool.old.free ≤ length pool.new.free }
    ensures filled { pool.new.filled ≤ pool.old.filled + 2 * BUFFER_SIZE }
    ensures moves { pool.new.filled ≤ pool.old.filled + length (items_of_chunks from.old) }
    ensures kept { Kept pool.old (numbers chunks.old ++ numbers from.old) pool.new (numbers chunks.new) }
{
    if chunks.len() == 0 {
        chunks.append(from);
        return;
    }
    unstage(from);
    move_front(chunks, pool, from);
    move_front(chunks, pool, from);
    chunks.append(from);
}

// Forgets what is staged of a range that stands first.
pub(crate) fn unstage(chunks: &mut ChunkList)
    requires kept { AreKept chunks.old }
    ensures follows { CanFollow chunks.new }
    ensures items { items_of_chunks chunks.new ≡ items_of_chunks chunks.old }
    ensures numbers { numbers chunks.new ≡ numbers chunks.old }
    ensures len { length chunks.new ≡ length chunks.old }
{
    let n = staged_front(chunks);
    if n > 0 {
        chunks.drop_from_front(n);
    }
}

fn staged_front(chunks: &ChunkList) -> usize
    ensures { result ≡ length (staged_from (first_of chunks.now).kind (first_of chunks.now).bytes) }
{
    match chunks.front() {
        Some(view) => match view.kind {
            Kind::Bytes => 0,
            Kind::File { .. } => view.bytes.len(),
        },
        None => 0,
    }
}

// Moves the first chunk of `from` behind the others, or its bytes into the last of these.
fn move_front(chunks: &mut ChunkList, pool: &mut Pool, from: &mut ChunkList)
    requires kept { AreKept chunks.old }
    requires some { 0 < length chunks.old }
    requires follows { CanFollow from.old }
    requires countable { length chunks.old + length from.old < 2 ^ 64 }
    requires counted { HeldWithin pool.old (length (numbers chunks.old) + length (numbers from.old)) }
    ensures gains { Gains chunks.old chunks.new (items_of_chunks (take 1 from.old)) }
    ensures last { 0 < length from.old → weight_of (first_of from.old) ≤ weight_of (last_of chunks.new) }
    ensures some { 0 < length chunks.new }
    ensures from { from.new ≡ drop 1 from.old }
    ensures len { length chunks.new + length from.new ≤ length chunks.old + length from.old }
    ensures spare { length pool.old.free ≤ length pool.new.free }
    ensures filled { pool.new.filled ≤ pool.old.filled + BUFFER_SIZE }
    ensures moves { pool.new.filled + length (items_of_chunks from.new) ≤ pool.old.filled + length (items_of_chunks from.old) }
    ensures kept { Kept pool.old (numbers chunks.old ++ numbers from.old) pool.new (numbers chunks.new ++ numbers from.new) }
{
    if let Some(chunk) = from.pop_front() {
        attach(chunks, pool, chunk);
    }
}

fn attach(chunks: &mut ChunkList, pool: &mut Pool, chunk: Chunk)
    requires kept { AreKept chunks.old }
    requires some { 0 < length chunks.old }
    requires follows { CanFollow (chunk ∷ []) }
    requires countable { length chunks.old + 1 < 2 ^ 64 }
    requires lent { length pool.old.free < pool.old.made }
    ensures gains { Gains chunks.old chunks.new (items_of_chunks (chunk ∷ [])) }
    ensures last { weight_of chunk ≤ weight_of (last_of chunks.new) }
    ensures some { 0 < length chunks.new }
    ensures len { length chunks.new ≤ length chunks.old + 1 }
    ensures spare { length pool.old.free ≤ length pool.new.free }
    ensures filled { pool.new.filled ≤ pool.old.filled + length chunk.bytes }
    ensures kept { Kept pool.old (numbers chunks.old ++ chunk.number ∷ []) pool.new (numbers chunks.new) }
{
    match chunk.kind() {
        Kind::Bytes => {
            if fill_back(chunks, pool, chunk.bytes()) {
                pool.give(chunk);
            } else {
                chunks.push_back(tightened(pool, chunk));
            }
        }
        Kind::File { .. } => chunks.push_back(chunk),
    }
}

// The chunk with its bytes at the beginning of its buffer.
fn tightened(pool: &mut Pool, chunk: Chunk) -> Chunk
    requires sound { IsSound chunk }
    ensures packed { result ≡ packed chunk }
    ensures pool { FillsOnly pool.old pool.new (length chunk.bytes) }
{
    if chunk.bytes().len() + chunk.room() == BUFFER_SIZE {
        return chunk;
    }
    let mut tight = chunk;
    tight.pack(pool);
    tight
}
