//! Bytes and ranges behind the chunks of a list.
ghost use Rattle.std.specs.Prelude.{◌≡◌, ◌+◌, ◌*◌, ◌≤◌, ◌<◌, ◌^◌, length, map, OnOk, OnErr, IsOk};
ghost use Rattle.buffer_pool.specs.Kept.{numbers, Kept, HeldWithin};
ghost use Rattle.chunkqueue.specs.Items.{Byte, range};
ghost use Rattle.chunkqueue.specs.Pooled.{AreKept, Gains};

use crate::merging::fill_back;
use buffer_pool::{BUFFER_SIZE, ChunkList, Pool};
use lt_bytes::NoMemory;

/// Puts bytes of at most one buffer behind the others, into the last chunk or a spare one.
pub(crate) fn append_piece(chunks: &mut ChunkList, pool: &mut Pool, piece: &[u8])
    requires kept { AreKept chunks.old }
    requires some { 0 < length piece.now }
    requires most { length piece.now ≤ BUFFER_SIZE }
    requires spare { 0 < length pool.old.free }
    requires countable { length chunks.old + 1 < 2 ^ 64 }
    ensures gains { Gains chunks.old chunks.new (map Byte piece.now) }
    ensures length { length chunks.new ≤ length chunks.old + 1 }
    ensures spare { length pool.old.free ≤ length pool.new.free + 1 }
    ensures filled { pool.new.filled ≤ pool.old.filled + length piece.now }
    ensures kept { Kept pool.old (numbers chunks.old) pool.new (numbers chunks.new) }
{
    if fill_back(chunks, pool, piece) {
        return;
    }
    match pool.take() {
        Ok(mut chunk) => {
            chunk.put(pool, piece);
            chunks.push_back(chunk);
        }
        Err(_) => unreachable!(),
    }
}

/// Puts bytes behind the others, all or none.
pub(crate) fn append_bytes(
    chunks: &mut ChunkList,
    pool: &mut Pool,
    bytes: &[u8],
) -> Result<(), NoMemory>
    requires kept { AreKept chunks.old }
    requires some { 0 < length bytes.now }
    requires countable { length chunks.old + length bytes.now < 2 ^ 64 }
    ensures gains { OnOk result (Gains chunks.old chunks.new (map Byte bytes.now)) }
    ensures err { OnErr result (chunks.new ≡ chunks.old) }
    ensures spare { length bytes.now ≤ BUFFER_SIZE * length pool.old.free → IsOk result }
    ensures filled { pool.new.filled ≤ pool.old.filled + length bytes.now }
    ensures kept { Kept pool.old (numbers chunks.old) pool.new (numbers chunks.new) }
{
    if fill_back(chunks, pool, bytes) {
        return Ok(());
    }
    match pool.reserve(bytes.len().div_ceil(BUFFER_SIZE) as u64) {
        Ok(()) => {
            append_pieces(chunks, pool, bytes);
            Ok(())
        }
        Err(error) => Err(error),
    }
}

fn append_pieces(chunks: &mut ChunkList, pool: &mut Pool, bytes: &[u8])
    requires kept { AreKept chunks.old }
    requires some { 0 < length bytes.now }
    requires spare { length bytes.now ≤ BUFFER_SIZE * length pool.old.free }
    requires countable { length chunks.old + length bytes.now < 2 ^ 64 }
    ensures gains { Gains chunks.old chunks.new (map Byte bytes.now) }
    ensures filled { pool.new.filled ≤ pool.old.filled + length bytes.now }
    ensures kept { Kept pool.old (numbers chunks.old) pool.new (numbers chunks.new) }
{
    let mut rest = bytes;
    while rest.len() > BUFFER_SIZE {
        let (piece, more) = rest.split_at(BUFFER_SIZE);
        append_piece(chunks, pool, piece);
        rest = more;
    }
    append_piece(chunks, pool, rest);
}

/// Puts a range of a file behind the others.
pub(crate) fn append_range(
    chunks: &mut ChunkList,
    pool: &mut Pool,
    file: u32,
    start: u64,
    len: u64,
) -> Result<(), NoMemory>
    requires kept { AreKept chunks.old }
    requires some { 0 < len }
    requires ends { start + len < 2 ^ 63 }
    requires countable { length chunks.old + 1 < 2 ^ 64 }
    ensures gains { OnOk result (Gains chunks.old chunks.new (range file start len)) }
    ensures length { length chunks.new ≤ length chunks.old + 1 }
    ensures err { OnErr result (chunks.new ≡ chunks.old) }
    ensures spare { 0 < length pool.old.free → IsOk result }
    ensures filled { pool.new.filled ≡ pool.old.filled }
    ensures kept { Kept pool.old (numbers chunks.old) pool.new (numbers chunks.new) }
{
    match pool.take() {
        Ok(mut chunk) => {
            chunk.set_file(file, start, len);
            chunks.push_back(chunk);
            Ok(())
        }
        Err(error) => Err(error),
    }
}
