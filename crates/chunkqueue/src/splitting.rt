//! The first items of one list of chunks behind those of another.
ghost use Rattle.std.specs.Prelude.{◌≡◌, ◌+◌, ◌*◌, ◌≤◌, ◌<◌, ◌^◌, [], ◌++◌, length, take, drop, MatchOption};
ghost use Rattle.buffer_pool.specs.Edits.{first_of};
ghost use Rattle.buffer_pool.specs.Kept.{numbers, Kept, HeldWithin};
ghost use Rattle.buffer_pool.specs.declared.buffer.Kind.TheVariants.{Bytes, File};
ghost use Rattle.chunkqueue.specs.Plain.{segment_left};
ghost use Rattle.chunkqueue.specs.Pooled.{AreKept, CanFollow, Gains, Moved, segment_of, items_of_chunks, staged_of_chunks};

use crate::advancing::front_kind;
use crate::appending::{append_piece, append_range};
use crate::joining::{append_chunks, unstage};
use buffer_pool::{BUFFER_SIZE, ChunkList, Kind, Pool};

/// Moves the first `n` items of `from` behind the others. Where a chunk is split there is a spare one.
pub(crate) fn steal_chunks(chunks: &mut ChunkList, pool: &mut Pool, from: &mut ChunkList, n: u64)
    requires kept { AreKept chunks.old }
    requires behind { AreKept from.old }
    requires within { n ≤ length (items_of_chunks from.old) }
    requires countable { length chunks.old + length from.old + 1 < 2 ^ 64 }
    requires spare { n < length (items_of_chunks from.old) → 0 < length pool.old.free }
    requires counted { HeldWithin pool.old (length (numbers chunks.old) + length (numbers from.old)) }
    ensures still { AreKept chunks.new }
    ensures rest { CanFollow from.new }
    ensures items { items_of_chunks chunks.new ≡ items_of_chunks chunks.old ++ take n (items_of_chunks from.old) }
    ensures left { items_of_chunks from.new ≡ drop n (items_of_chunks from.old) }
    ensures staged { staged_of_chunks chunks.new ≡ staged_of_chunks chunks.old }
    ensures filled { pool.new.filled ≤ pool.old.filled + 3 * BUFFER_SIZE }
    ensures moves { pool.new.filled ≤ pool.old.filled + n }
    ensures kept { Kept pool.old (numbers chunks.old ++ numbers from.old) pool.new (numbers chunks.new ++ numbers from.new) }
{
    unstage(from);
    let left = steal_whole(chunks, pool, from, n);
    if left > 0 {
        split_front(chunks, pool, from, left);
    }
}

// Moves the chunks that lie whole in the first `n` items behind the others, and answers how many of these items are still
// to be moved.
fn steal_whole(chunks: &mut ChunkList, pool: &mut Pool, from: &mut ChunkList, n: u64) -> u64
    requires kept { AreKept chunks.old }
    requires follows { CanFollow from.old }
    requires countable { length chunks.old + length from.old < 2 ^ 64 }
    requires counted { HeldWithin pool.old (length (numbers chunks.old) + length (numbers from.old)) }
    ensures moved { Moved chunks.old from.old chunks.new from.new n result }
    ensures inside { 0 < length from.new → result < segment_left (segment_of (first_of from.new)) }
    ensures len { length chunks.new + length from.new ≤ length chunks.old + length from.old }
    ensures spare { length pool.old.free ≤ length pool.new.free }
    ensures filled { pool.new.filled ≤ pool.old.filled + 2 * BUFFER_SIZE }
    ensures moves { pool.new.filled + result ≤ pool.old.filled + n }
    ensures kept { Kept pool.old (numbers chunks.old ++ numbers from.old) pool.new (numbers chunks.new ++ numbers from.new) }
{
    let mut front = ChunkList::new();
    let left = move_whole(&mut front, from, n);
    append_chunks(chunks, pool, &mut front);
    front.close();
    left
}

// Moves these chunks into a list of their own.
fn move_whole(front: &mut ChunkList, from: &mut ChunkList, n: u64) -> u64
    requires follows { CanFollow from.old }
    requires countable { length front.old + length from.old < 2 ^ 64 }
    ensures parts { front.new ++ from.new ≡ front.old ++ from.old }
    ensures count { length (items_of_chunks front.new) + result ≡ length (items_of_chunks front.old) + n }
    ensures inside { 0 < length from.new → result < segment_left (segment_of (first_of from.new)) }
{
    let mut left = n;
    while let Some(len) = whole_front(from, left) {
        move_chunk(front, from);
        left -= len;
    }
    left
}

// How many items the first chunk has, where they are no more than `n`.
fn whole_front(from: &ChunkList, n: u64) -> Option<u64>
    ensures { MatchOption result (0 < length from.now → n < segment_left (segment_of (first_of from.now)))
        (λ len. (0 < length from.now) × (len ≡ segment_left (segment_of (first_of from.now))) × (len ≤ n)) }
{
    let view = from.front()?;
    let len = match view.kind {
        Kind::Bytes => view.bytes.len() as u64,
        Kind::File { len, .. } => len,
    };
    if len <= n { Some(len) } else { None }
}

fn move_chunk(front: &mut ChunkList, from: &mut ChunkList)
    requires countable { length front.old + length from.old < 2 ^ 64 }
    ensures front { front.new ≡ front.old ++ take 1 from.old }
    ensures from { from.new ≡ drop 1 from.old }
{
    if let Some(chunk) = from.pop_front() {
        front.push_back(chunk);
    }
}

// Moves the first `n` items, which are fewer than the first chunk has, behind the others.
fn split_front(chunks: &mut ChunkList, pool: &mut Pool, from: &mut ChunkList, n: u64)
    requires kept { AreKept chunks.old }
    requires follows { CanFollow from.old }
    requires some { 0 < n }
    requires first { 0 < length from.old }
    requires inside { n < segment_left (segment_of (first_of from.old)) }
    requires spare { 0 < length pool.old.free }
    requires countable { length chunks.old + 1 < 2 ^ 64 }
    ensures gains { Gains chunks.old chunks.new (take n (items_of_chunks from.old)) }
    ensures rest { CanFollow from.new }
    ensures left { items_of_chunks from.new ≡ drop n (items_of_chunks from.old) }
    ensures numbers { numbers from.new ≡ numbers from.old }
    ensures len { length chunks.new ≤ length chunks.old + 1 }
    ensures filled { pool.new.filled ≤ pool.old.filled + BUFFER_SIZE }
    ensures moves { pool.new.filled ≤ pool.old.filled + n }
    ensures kept { Kept pool.old (numbers chunks.old) pool.new (numbers chunks.new) }
{
    match front_kind(from) {
        Kind::Bytes => {
            append_piece(chunks, pool, first_bytes(from, n));
            from.drop_from_front(n as usize);
        }
        Kind::File { file, start, len } => match append_range(chunks, pool, file, start, n) {
            Ok(()) => from.set_front(file, start + n, len - n),
            Err(_) => unreachable!(),
        },
    }
}

// The first `n` bytes of the first chunk.
fn first_bytes(from: &ChunkList, n: u64) -> &[u8]
    requires first { 0 < length from.now }
    requires inside { n ≤ length (first_of from.now).bytes }
    ensures bytes { result.now ≡ take n (first_of from.now).bytes }
    ensures most { length result.now ≤ BUFFER_SIZE }
{
    match from.front() {
        Some(view) => &view.bytes[..n as usize],
        None => unreachable!(),
    }
}
