//! Chunks that leave a list at its front.
ghost use Rattle.std.specs.Prelude.{◌≡◌, ◌≤◌, ◌<◌, ◌==◌, [], length, drop};
ghost use Rattle.buffer_pool.specs.Edits.{first_of, with_first};
ghost use Rattle.buffer_pool.specs.Kept.{numbers, Kept, HeldWithin};
ghost use Rattle.chunkqueue.specs.Plain.{front_of_segments, segment_left};
ghost use Rattle.chunkqueue.specs.Pooled.{AreKept, segment_of, segments_of, chunk_after, chunks_after};

use buffer_pool::{ChunkList, Kind, Pool};

/// Takes the first `n` items off, which are bytes of the first chunk that can leave. A chunk that is spent is given back.
pub(crate) fn drop_from(chunks: &mut ChunkList, pool: &mut Pool, n: usize)
    requires kept { AreKept chunks.old }
    requires within { n ≤ length (front_of_segments (segments_of chunks.old)) }
    requires counted { HeldWithin pool.old (length (numbers chunks.old)) }
    ensures after { chunks.new ≡ chunks_after n chunks.old }
    ensures filled { pool.new.filled ≡ pool.old.filled }
    ensures kept { Kept pool.old (numbers chunks.old) pool.new (numbers chunks.new) }
{
    if chunks.len() == 0 {
        return;
    }
    cut_front(chunks, n);
    if is_front_spent(chunks) {
        give_front(chunks, pool);
    }
}

// Takes the first `n` items off the first chunk.
fn cut_front(chunks: &mut ChunkList, n: usize)
    requires kept { AreKept chunks.old }
    requires within { n ≤ length (front_of_segments (segments_of chunks.old)) }
    requires some { 0 < length chunks.old }
    ensures front { chunks.new ≡ with_first chunks.old (chunk_after (first_of chunks.old) n) }
    ensures numbers { numbers chunks.new ≡ numbers chunks.old }
{
    match front_kind(chunks) {
        Kind::Bytes => chunks.drop_from_front(n),
        Kind::File { file, start, len } => {
            chunks.drop_from_front(n);
            chunks.set_front(file, start + n as u64, len - n as u64);
        }
    }
}

pub(crate) fn front_kind(chunks: &ChunkList) -> Kind
    requires { 0 < length chunks.now }
    ensures { result ≡ (first_of chunks.now).kind }
{
    match chunks.front() {
        Some(view) => view.kind,
        None => unreachable!(),
    }
}

fn is_front_spent(chunks: &ChunkList) -> bool
    requires { 0 < length chunks.now }
    ensures { result ≡ (segment_left (segment_of (first_of chunks.now)) == 0) }
{
    match chunks.front() {
        Some(view) => match view.kind {
            Kind::Bytes => view.bytes.is_empty(),
            Kind::File { len, .. } => len == 0,
        },
        None => unreachable!(),
    }
}

fn give_front(chunks: &mut ChunkList, pool: &mut Pool)
    requires counted { HeldWithin pool.old (length (numbers chunks.old)) }
    ensures rest { chunks.new ≡ drop 1 chunks.old }
    ensures filled { pool.new.filled ≡ pool.old.filled }
    ensures kept { Kept pool.old (numbers chunks.old) pool.new (numbers chunks.new) }
{
    if let Some(chunk) = chunks.pop_front() {
        pool.give(chunk);
    }
}

/// Gives every chunk back.
pub(crate) fn empty(chunks: &mut ChunkList, pool: &mut Pool)
    requires counted { HeldWithin pool.old (length (numbers chunks.old)) }
    ensures empty { chunks.new ≡ [] }
    ensures filled { pool.new.filled ≡ pool.old.filled }
    ensures kept { Kept pool.old (numbers chunks.old) pool.new [] }
{
    while let Some(chunk) = chunks.pop_front() {
        pool.give(chunk);
    }
}
