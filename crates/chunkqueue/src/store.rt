//! The owner of a plain queue's buffers.
ghost use Rattle.std.specs.Prelude.{◌≡◌};
ghost use Rattle.chunkqueue.specs.Store.{unused};

use std::alloc::Global;
use std::marker::Model;

/// The owner of the buffers of plain queues: each segment has its own memory, so it keeps no node
/// and makes none. It is ended by `close`, as a pool is: it can't be dropped.
pub struct PlainStore {
    alloc: Global,
}

impl Model for PlainStore {
    ghost use Rattle.buffer_pool.specs.State.{PoolState};
    ghost use Rattle.chunkqueue.specs.Store.{unused};

    ghost Value = { PoolState };

    ghost view = { λ _. unused };
}

impl PlainStore {
    pub fn new(alloc: Global) -> PlainStore
        ensures { result ≡ unused }
    {
        PlainStore { alloc }
    }

    /// Ends the store.
    pub fn close(self) {
        let PlainStore { alloc: _ } = self;
    }

    pub(crate) fn alloc(&self) -> Global
        ensures { self.now ≡ unused }
    {
        self.alloc
    }
}
