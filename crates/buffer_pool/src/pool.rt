//! The pool: it makes nodes, numbers them and keeps those that are free.
ghost use Rattle.std.specs.Prelude.{◌≡◌, ◌+◌, ◌-◌, ◌<◌, ◌≤◌, ◌^◌, [], ◌∷◌, ◌++◌, length, IsOk, IfOk, OnOk, OnErr, MatchResult};
ghost use Rattle.buffer_pool.specs.Kept.{Kept};
ghost use Rattle.buffer_pool.specs.Edits.{blank, filled_by};
ghost use Rattle.buffer_pool.specs.Pool.{Takes, grown, GrowsBelow};

use crate::chunk::Chunk;
use crate::list::ChunkList;
use lt_bytes::NoMemory;
use std::alloc::Global;
use std::marker::Model;

/// The owner of buffers. It cannot be dropped: `close` ends it.
pub struct Pool {
    alloc: Global,
    free: ChunkList,
    made: u64,
    filled: u64,
}

impl Model for Pool {
    ghost use Rattle.std.specs.Prelude.{◌≤◌, length};
    ghost use Rattle.buffer_pool.specs.State.{PoolState};
    ghost use Rattle.buffer_pool.specs.Kept.{numbers};

    ghost Value = { PoolState };

    ghost view = { λ p. record { free = numbers p.free; made = p.made; filled = p.filled } };

    ghost invariant = { λ p. length p.free ≤ p.made };
}

impl Pool {
    /// A pool that has made no node yet.
    pub fn new(alloc: Global) -> Pool
        ensures new { result ≡ record { free = []; made = 0; filled = 0 } }
    {
        Pool {
            alloc,
            free: ChunkList::new(),
            made: 0,
            filled: 0,
        }
    }

    /// How many nodes are free.
    #[tactic(auto, using(crate::proofs::Keeping::length_numbers))]
    pub fn spare(&self) -> u64
        ensures spare { result ≡ length self.now.free }
        ensures within { result ≤ self.now.made }
    {
        self.free.len()
    }

    /// How many nodes the pool has made. Their numbers are those below it.
    pub fn made(&self) -> u64
        ensures made { result ≡ self.now.made }
    {
        self.made
    }

    /// How many bytes were ever put into buffers or moved in them. It stays at its greatest value once there.
    pub fn filled(&self) -> u64
        ensures filled { result ≡ self.now.filled }
    {
        self.filled
    }

    pub(crate) fn fill(&mut self, n: usize)
        ensures { self.new ≡ filled_by self.old n }
    {
        self.filled = self.filled.saturating_add(n as u64);
    }

    /// A chunk of kind `Bytes` that holds nothing: the node that was given back last, whose memory is warm, and a new one where
    /// none is free.
    pub fn take(&mut self) -> Result<Chunk, NoMemory>
        ensures newest { Takes self.old result self.new }
        ensures spare { 0 < length self.old.free → IsOk result }
        ensures kept { IfOk result (λ c. Kept self.old [] self.new (c.number ∷ [])) }
    {
        match self.free.pop_front() {
            Some(chunk) => Ok(chunk.cleared()),
            None => self.make(),
        }
    }

    // A chunk of its own number, which is free nowhere.
    fn make(&mut self) -> Result<Chunk, NoMemory>
        ensures { MatchResult result (λ c. (c ≡ blank self.old.made) × (length self.old.free < self.new.made) × (self.old.made + 1 < 2 ^ 64) × (self.new ≡ record self.old { made = self.old.made + 1 })) (λ _. self.new ≡ self.old) }
    {
        if self.made == u64::MAX {
            return Err(NoMemory);
        }
        let chunk = Chunk::make(self.alloc, self.made)?;
        self.made += 1;
        Ok(chunk)
    }

    /// Makes nodes until at least `n` are free. After it `n` calls of `take` succeed. Where memory ends first, the nodes that
    /// it made stay free.
    pub fn reserve(&mut self, n: u64) -> Result<(), NoMemory>
        ensures ok { OnOk result (self.new ≡ grown self.old (n - length self.old.free)) }
        ensures err { OnErr result (GrowsBelow self.old self.new (n - length self.old.free)) }
        ensures enough { OnOk result (n ≤ length self.new.free) }
        ensures kept { Kept self.old [] self.new [] }
    {
        while self.spare() < n {
            self.add_one()?;
        }
        Ok(())
    }

    #[tactic(auto, using(crate::proofs::Keeping::numbers_append, crate::proofs::Keeping::length_numbers))]
    fn add_one(&mut self) -> Result<(), NoMemory>
        ensures { MatchResult result (λ _. self.new ≡ grown self.old 1) (λ _. self.new ≡ self.old) }
    {
        let fresh = self.make()?;
        self.free.push_back(fresh);
        Ok(())
    }

    /// Takes a chunk back. It is free from now on, and is taken next.
    #[tactic(auto, using(crate::proofs::Keeping::length_numbers))]
    pub fn give(&mut self, chunk: Chunk)
        requires lent { length self.old.free < self.old.made }
        ensures pool { self.new ≡ record self.old { free = chunk.number ∷ self.old.free } }
        ensures kept { Kept self.old (chunk.number ∷ []) self.new [] }
    {
        self.free.push_front(chunk);
    }

    /// Frees the nodes that are free, and ends the pool.
    pub fn close(self) {
        let Pool {
            alloc: _,
            free,
            made: _,
            filled: _,
        } = self;
        let mut rest = free;
        while let Some(chunk) = rest.pop_front() {
            chunk.free();
        }
        rest.close();
    }
}
