//! A queue of segments in boxes.
ghost use Rattle.std.specs.Prelude.{◌≡◌};

use crate::chain::Chain;
use crate::file_segment::FileSegment;
use crate::memory_segment::MemorySegment;
use crate::queue::Queue;
use crate::segment::Segment;
use crate::store::PlainStore;
use lt_bytes::NoMemory;
use lt_world::{Fault, FileId, Files, Owner};
use std::marker::Model;

/// A queue whose segments lie in memory of their own, one after another. A range has its buffer
/// from the push on.
pub struct PlainQueue {
    chain: Chain,
    len: u64,
}

impl Model for PlainQueue {
    ghost use Rattle.chunkqueue.specs.Items.{Contents};

    ghost Value = { Contents };

    ghost use Rattle.chunkqueue.specs.Plain.{plain, IsPlain};

    ghost view = { λ q. plain q.chain };

    ghost invariant = { λ q. IsPlain q.chain q.len };
}

impl Queue for PlainQueue {
    type Owner = PlainStore;

    ghost contents = { λ q. q };

    ghost stored = { λ s. s };

    ghost dense = { λ _. Unit {0} };

    fn new() -> PlainQueue {
        PlainQueue {
            chain: Chain::new(),
            len: 0,
        }
    }

    fn push_bytes(&mut self, store: &mut PlainStore, bytes: &[u8]) -> Result<(), NoMemory> {
        if bytes.is_empty() {
            return Ok(());
        }
        let alloc = store.alloc();
        let memory = match MemorySegment::copy_of(alloc, bytes) {
            Ok(memory) => memory,
            Err(_) => return Err(NoMemory),
        };
        match self.chain.push_back(alloc, Segment::Memory(memory)) {
            Ok(()) => {
                self.len += bytes.len() as u64;
                Ok(())
            }
            Err(_) => Err(NoMemory),
        }
    }

    fn push_file(
        &mut self,
        store: &mut PlainStore,
        file: FileId,
        start: u64,
        len: u64,
    ) -> Result<(), NoMemory> {
        if len == 0 {
            return Ok(());
        }
        let alloc = store.alloc();
        let range = match FileSegment::new(alloc, file, start, len) {
            Ok(range) => range,
            Err(_) => return Err(NoMemory),
        };
        match self.chain.push_back(alloc, Segment::File(range)) {
            Ok(()) => {
                self.len += len;
                Ok(())
            }
            Err(_) => Err(NoMemory),
        }
    }

    fn append_all(&mut self, _store: &mut PlainStore, from: &mut PlainQueue) {
        self.chain.append(&mut from.chain);
        self.len += from.len;
        from.len = 0;
    }

    fn steal(
        &mut self,
        store: &mut PlainStore,
        from: &mut PlainQueue,
        n: u64,
    ) -> Result<(), NoMemory> {
        if n == 0 {
            return Ok(());
        }
        match from.chain.take_front(store.alloc(), n) {
            Ok(front) => {
                self.chain.extend(front);
                self.len += n;
                from.len -= n;
                Ok(())
            }
            Err(error) => Err(error),
        }
    }

    fn front_bytes(&self) -> &[u8] {
        self.chain.front_bytes()
    }

    fn stage<F: Files>(
        &mut self,
        _store: &mut PlainStore,
        files: &mut F,
        owner: Owner,
    ) -> Result<(), Fault> {
        self.chain.stage(files, owner)
    }

    fn advance(&mut self, _store: &mut PlainStore, n: usize) {
        self.chain.drop_front(n);
        self.len -= n as u64;
    }

    fn peek(&self, buf: &mut [u8]) -> usize {
        self.chain.peek(buf)
    }

    fn empty_into(&mut self, _store: &mut PlainStore) {
        self.chain.clear();
        self.len = 0;
    }

    fn close(self, _store: &mut PlainStore) {
        let PlainQueue { chain, len: _ } = self;
        drop(chain);
    }

    fn len(&self) -> u64 {
        self.len
    }
}
