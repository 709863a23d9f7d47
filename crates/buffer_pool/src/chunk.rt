//! A chunk: a buffer that its holder owns.
ghost use Rattle.std.specs.Prelude.{◌≡◌, ◌+◌, ◌≤◌, [], ◌∷◌, length, IfOk, OnOk, OnErr};
ghost use Rattle.buffer_pool.specs.Edits.{blank, put_in, dropped, packed, as_file, filled_by};
ghost use Rattle.buffer_pool.specs.Filling.{Fills};
ghost use Rattle.buffer_pool.specs.Kept.{Kept};
ghost use Rattle.buffer_pool.specs.State.{IsWithin};

use crate::buffer::{Buffer, Kind};
use crate::filling::Piece;
use crate::node::Node;
use crate::pool::Pool;
use lt_bytes::NoMemory;
use std::alloc::Global;
use std::marker::Model;
use std::ptr::null_mut;

/// A buffer with its number. It cannot be dropped: `Pool::give`, or a list, takes it.
pub struct Chunk {
    pub(crate) node: Box<Node>,
}

impl Model for Chunk {
    ghost use Rattle.buffer_pool.specs.State.{ChunkState};

    ghost Value = { ChunkState };

    ghost view = { λ c. c.node.value.buffer };
}

impl Chunk {
    pub(crate) fn make(alloc: Global, number: u64) -> Result<Chunk, NoMemory>
        ensures { IfOk result (λ c. c ≡ blank number) }
    {
        let node = Box::new(
            alloc,
            Node {
                next: null_mut(),
                heap: alloc,
                buffer: Buffer::new(number),
            },
        )?;
        Ok(Chunk { node })
    }

    /// The number that no other chunk of the pool has.
    pub fn number(&self) -> u64
        ensures number { result ≡ self.now.number }
    {
        self.node.buffer.number()
    }

    /// What the chunk stands for.
    pub fn kind(&self) -> Kind
        ensures kind { result ≡ self.now.kind }
    {
        self.node.buffer.kind()
    }

    /// The bytes that are held.
    pub fn bytes(&self) -> &[u8]
        ensures bytes { result.now ≡ self.now.bytes }
    {
        self.node.buffer.bytes()
    }

    /// How many bytes can still be put in: the size of a buffer less the end of what is held.
    pub fn room(&self) -> usize
        ensures room { result ≡ self.now.room }
        ensures within { IsWithin self.now }
    {
        self.node.buffer.room()
    }

    /// Puts bytes after those that are held.
    pub fn put(&mut self, pool: &mut Pool, bytes: &[u8])
        requires room { length bytes.now ≤ self.old.room }
        ensures chunk { self.new ≡ put_in self.old bytes.now }
        ensures pool { pool.new ≡ filled_by pool.old (length bytes.now) }
        ensures kept { Kept pool.old (self.old.number ∷ []) pool.new (self.new.number ∷ []) }
    {
        pool.fill(bytes.len());
        self.node.buffer.put(bytes);
    }

    /// Reads `n` bytes behind those that are held. Where they do not come, the chunk and the pool are as they were.
    pub fn fill<S, P: Piece<S>>(
        &mut self,
        pool: &mut Pool,
        n: usize,
        piece: &P,
        source: &mut S,
    ) -> Result<(), P::Fault>
        requires room { n ≤ self.old.room }
        requires can_read { P.can_read piece.now source.old n }
        ensures chunk { Fills (P.reads piece.now source.old) (put_in self.old) self.old n result self.new source.new }
        ensures ok { OnOk result (pool.new ≡ filled_by pool.old n) }
        ensures err { OnErr result (pool.new ≡ pool.old) }
        ensures kept { Kept pool.old (self.old.number ∷ []) pool.new (self.new.number ∷ []) }
    {
        match self.node.buffer.fill(n, piece, source) {
            Ok(()) => {
                pool.fill(n);
                Ok(())
            }
            Err(fault) => Err(fault),
        }
    }

    /// Moves the held bytes to the beginning of their buffer, so that all that is not held is room.
    pub fn pack(&mut self, pool: &mut Pool)
        ensures chunk { self.new ≡ packed self.old }
        ensures pool { pool.new ≡ filled_by pool.old (length self.old.bytes) }
        ensures kept { Kept pool.old (self.old.number ∷ []) pool.new (self.new.number ∷ []) }
    {
        pool.fill(self.bytes().len());
        self.node.buffer.pack();
    }

    /// Lets the chunk stand for the `len` bytes from `start` on of an opened file. Its bytes stay.
    pub fn set_file(&mut self, file: u32, start: u64, len: u64)
        ensures chunk { self.new ≡ as_file self.old file start len }
        ensures number { self.new.number ≡ self.old.number }
    {
        self.node.buffer.set_file(file, start, len);
    }

    /// Takes off the first `n` bytes. They give room again by `pack`, or when nothing is held.
    pub fn drop_front(&mut self, n: usize)
        requires held { n ≤ length self.old.bytes }
        ensures chunk { self.new ≡ dropped self.old n }
        ensures number { self.new.number ≡ self.old.number }
    {
        self.node.buffer.drop_front(n);
    }

    pub(crate) fn cleared(self) -> Chunk
        ensures { result ≡ blank self.number }
    {
        let Chunk { mut node } = self;
        node.buffer.clear();
        Chunk { node }
    }

    pub(crate) fn free(self) {
        let Chunk { node } = self;
        drop(node);
    }
}
