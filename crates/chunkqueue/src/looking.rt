//! What stands first in a list of chunks.
ghost use Rattle.std.specs.Prelude.{◌≡◌, ◌≤◌, length, min, take, drop};
ghost use Rattle.chunkqueue.specs.Plain.{front_of_segments, memory_before};
ghost use Rattle.chunkqueue.specs.Pooled.{segments_of};

use crate::chain::copy_at;
use buffer_pool::{BUFFER_SIZE, ChunkList, Kind};

/// The bytes that can leave now.
pub(crate) fn front_of(chunks: &ChunkList) -> &[u8]
    ensures front { result.now ≡ front_of_segments (segments_of chunks.now) }
    ensures most { length result.now ≤ BUFFER_SIZE }
{
    match chunks.front() {
        Some(view) => view.bytes,
        None => &[],
    }
}

/// Copies the bytes in memory that stand before any range, and answers how many.
pub(crate) fn peek_into(chunks: &ChunkList, buf: &mut [u8]) -> usize
    ensures count { result ≡ min (length buf.old) (length (memory_before (segments_of chunks.now))) }
    ensures bytes { take result buf.new ≡ take result (memory_before (segments_of chunks.now)) }
    ensures rest { drop result buf.new ≡ drop result buf.old }
{
    let mut count = 0;
    for view in chunks.walk() {
        let Kind::Bytes = view.kind else {
            return count;
        };
        count += copy_at(buf, count, view.bytes);
        if count == buf.len() {
            return count;
        }
    }
    count
}
