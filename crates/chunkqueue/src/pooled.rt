//! A queue over pooled buffers.
ghost use Rattle.std.specs.Prelude.{◌≡◌, length, flat_map};
ghost use Rattle.chunkqueue.specs.Items.{items_of, memory_front};
ghost use Rattle.chunkqueue.specs.Pooled.{IsDense};

use crate::advancing::{drop_from, empty};
use crate::appending::{append_bytes, append_range};
use crate::joining::append_chunks;
use crate::looking::{front_of, peek_into};
use crate::queue::Queue;
use crate::reading::stage_front;
use crate::slices::Slices;
use crate::splitting::steal_chunks;
use buffer_pool::{ChunkList, Pool};
use lt_bytes::NoMemory;
use lt_world::{Fault, FileId, Files, Owner};
use std::marker::Model;

/// A queue whose chunks are buffers of a pool, linked through their own nodes: a whole queue goes behind another by a link,
/// but for bytes that fill a buffer, and what was sent is free for the next.
pub struct ChunkQueue {
    chunks: ChunkList,
    len: u64,
}

impl Model for ChunkQueue {
    ghost use Rattle.chunkqueue.specs.Items.{Contents};

    ghost Value = { Contents };

    ghost use Rattle.chunkqueue.specs.Pooled.{pooled, IsPooled};

    ghost view = { λ q. pooled q.chunks };

    ghost invariant = { λ q. IsPooled q.chunks q.len };
}

impl ChunkQueue {
    /// How many buffers the queue holds. They are few, however the bytes came.
    pub fn nodes(&self) -> u64
        ensures nodes { result ≡ length self.now.numbers }
        ensures dense { IsDense self.now }
    {
        self.chunks.len()
    }

    /// The bytes in memory that stand before any range, in the slices in which they lie. None is copied.
    pub fn slices(&self) -> Slices<'_>
        ensures bytes { flat_map (λ slice. slice) result ≡ memory_front (items_of self.now) }
    {
        Slices::of(&self.chunks)
    }
}

#[tactic(auto, using(crate::proofs::Queues::kept_dense, crate::proofs::Queues::pooled_dense))]
impl Queue for ChunkQueue {
    type Owner = Pool;

    ghost contents = { λ q. q };

    ghost stored = { λ s. s };

    ghost dense = { IsDense };

    fn new() -> ChunkQueue {
        ChunkQueue {
            chunks: ChunkList::new(),
            len: 0,
        }
    }

    fn push_bytes(&mut self, store: &mut Pool, bytes: &[u8]) -> Result<(), NoMemory> {
        // Dense where nothing is pushed, too: a look at the chunks brings their invariant.
        let _ = &self.chunks;
        if bytes.is_empty() {
            return Ok(());
        }
        match append_bytes(&mut self.chunks, store, bytes) {
            Ok(()) => {
                self.len += bytes.len() as u64;
                Ok(())
            }
            Err(error) => Err(error),
        }
    }

    fn push_file(
        &mut self,
        store: &mut Pool,
        file: FileId,
        start: u64,
        len: u64,
    ) -> Result<(), NoMemory> {
        let _ = &self.chunks;
        if len == 0 {
            return Ok(());
        }
        match append_range(&mut self.chunks, store, file.0, start, len) {
            Ok(()) => {
                self.len += len;
                Ok(())
            }
            Err(error) => Err(error),
        }
    }

    fn append_all(&mut self, store: &mut Pool, from: &mut ChunkQueue) {
        append_chunks(&mut self.chunks, store, &mut from.chunks);
        self.len += from.len;
        from.len = 0;
    }

    fn steal(&mut self, store: &mut Pool, from: &mut ChunkQueue, n: u64) -> Result<(), NoMemory> {
        let _ = &self.chunks;
        let _ = &from.chunks;
        if n == 0 {
            return Ok(());
        }
        match store.reserve((from.len - n).min(1)) {
            Ok(()) => {
                steal_chunks(&mut self.chunks, store, &mut from.chunks, n);
                self.len += n;
                from.len -= n;
                Ok(())
            }
            Err(error) => Err(error),
        }
    }

    fn front_bytes(&self) -> &[u8] {
        front_of(&self.chunks)
    }

    fn stage<F: Files>(
        &mut self,
        store: &mut Pool,
        files: &mut F,
        owner: Owner,
    ) -> Result<(), Fault> {
        stage_front(&mut self.chunks, store, files, owner)
    }

    fn advance(&mut self, store: &mut Pool, n: usize) {
        drop_from(&mut self.chunks, store, n);
        self.len -= n as u64;
    }

    fn peek(&self, buf: &mut [u8]) -> usize {
        peek_into(&self.chunks, buf)
    }

    fn empty_into(&mut self, store: &mut Pool) {
        empty(&mut self.chunks, store);
        self.len = 0;
    }

    fn close(self, store: &mut Pool) {
        let ChunkQueue { chunks, len: _ } = self;
        let mut rest = chunks;
        empty(&mut rest, store);
        rest.close();
    }

    fn len(&self) -> u64 {
        self.len
    }
}
