//! The calls that change the first or the last chunk of a list where it is. They do what the chunk's own calls do.
ghost use Rattle.std.specs.Prelude.{◌≡◌, ◌<◌, ◌≤◌, length, OnOk, OnErr};
ghost use Rattle.buffer_pool.specs.Kept.{numbers, Kept};
ghost use Rattle.buffer_pool.specs.Edits.{first_of, last_of, with_first, with_last, put_in, dropped, packed, as_file, filled_by};
ghost use Rattle.buffer_pool.specs.Filling.{Fills};

use crate::filling::Piece;
use crate::list::ChunkList;
use crate::pool::Pool;

impl ChunkList {
    /// Puts bytes after those that the first chunk holds.
    pub fn put_front(&mut self, pool: &mut Pool, bytes: &[u8])
        requires nonempty { 0 < length self.old }
        requires room { length bytes.now ≤ (first_of self.old).room }
        ensures list { self.new ≡ with_first self.old (put_in (first_of self.old) bytes.now) }
        ensures pool { pool.new ≡ filled_by pool.old (length bytes.now) }
        ensures numbers { numbers self.new ≡ numbers self.old }
        ensures kept { Kept pool.old (numbers self.old) pool.new (numbers self.new) }
    {
        match self.pop_front() {
            Some(mut chunk) => {
                chunk.put(pool, bytes);
                self.push_front(chunk);
            }
            None => unreachable!(),
        }
    }

    /// Reads `n` bytes behind those that the first chunk holds. Where they do not come, the list and the pool are as they
    /// were.
    pub fn fill_front<S, P: Piece<S>>(
        &mut self,
        pool: &mut Pool,
        n: usize,
        piece: &P,
        source: &mut S,
    ) -> Result<(), P::Fault>
        requires nonempty { 0 < length self.old }
        requires room { n ≤ (first_of self.old).room }
        requires can_read { P.can_read piece.now source.old n }
        ensures list { Fills (P.reads piece.now source.old) (λ bytes. with_first self.old (put_in (first_of self.old) bytes)) self.old n result self.new source.new }
        ensures ok { OnOk result (pool.new ≡ filled_by pool.old n) }
        ensures err { OnErr result (pool.new ≡ pool.old) }
        ensures numbers { numbers self.new ≡ numbers self.old }
        ensures kept { Kept pool.old (numbers self.old) pool.new (numbers self.new) }
    {
        match self.pop_front() {
            Some(mut chunk) => {
                let read = chunk.fill(pool, n, piece, source);
                self.push_front(chunk);
                read
            }
            None => unreachable!(),
        }
    }

    /// Takes off the first `n` bytes of the first chunk.
    pub fn drop_from_front(&mut self, n: usize)
        requires nonempty { 0 < length self.old }
        requires held { n ≤ length (first_of self.old).bytes }
        ensures list { self.new ≡ with_first self.old (dropped (first_of self.old) n) }
        ensures numbers { numbers self.new ≡ numbers self.old }
    {
        match self.pop_front() {
            Some(mut chunk) => {
                chunk.drop_front(n);
                self.push_front(chunk);
            }
            None => unreachable!(),
        }
    }

    /// Lets the first chunk stand for a range of an opened file.
    pub fn set_front(&mut self, file: u32, start: u64, len: u64)
        requires nonempty { 0 < length self.old }
        ensures list { self.new ≡ with_first self.old (as_file (first_of self.old) file start len) }
        ensures numbers { numbers self.new ≡ numbers self.old }
    {
        match self.pop_front() {
            Some(mut chunk) => {
                chunk.set_file(file, start, len);
                self.push_front(chunk);
            }
            None => unreachable!(),
        }
    }

    /// Puts bytes after those that the last chunk holds.
    #[tactic(auto, using(crate::proofs::Last::states_set_last, crate::proofs::Last::length_set_last, crate::proofs::Keeping::numbers_with_last, crate::proofs::Keeping::length_numbers))]
    pub fn put_back(&mut self, pool: &mut Pool, bytes: &[u8])
        requires nonempty { 0 < length self.old }
        requires room { length bytes.now ≤ (last_of self.old).room }
        ensures list { self.new ≡ with_last self.old (put_in (last_of self.old) bytes.now) }
        ensures pool { pool.new ≡ filled_by pool.old (length bytes.now) }
        ensures numbers { numbers self.new ≡ numbers self.old }
        ensures kept { Kept pool.old (numbers self.old) pool.new (numbers self.new) }
    {
        pool.fill(bytes.len());
        let node = self.nodes.last_mut();
        node.buffer.put(bytes);
    }

    /// Moves the held bytes of the last chunk to the beginning of their buffer.
    #[tactic(auto, using(crate::proofs::Last::states_set_last, crate::proofs::Last::length_set_last, crate::proofs::Keeping::numbers_with_last, crate::proofs::Keeping::length_numbers))]
    pub fn pack_back(&mut self, pool: &mut Pool)
        requires nonempty { 0 < length self.old }
        ensures list { self.new ≡ with_last self.old (packed (last_of self.old)) }
        ensures pool { pool.new ≡ filled_by pool.old (length (last_of self.old).bytes) }
        ensures numbers { numbers self.new ≡ numbers self.old }
        ensures kept { Kept pool.old (numbers self.old) pool.new (numbers self.new) }
    {
        let node = self.nodes.last_mut();
        pool.fill(node.buffer.bytes().len());
        node.buffer.pack();
    }
}
