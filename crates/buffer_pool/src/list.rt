//! A list of chunks, which owns them and takes no memory.
ghost use Rattle.std.specs.Prelude.{◌≡◌, ◌+◌, ◌<◌, ◌^◌, [], ◌∷◌, ◌++◌, length, MatchOption};
ghost use Rattle.buffer_pool.specs.Links.{states_of};
ghost use Rattle.buffer_pool.specs.Kept.{numbers};

use crate::chunk::Chunk;
use crate::loose::Loose;
use crate::nodes::Nodes;
use std::marker::Model;
use std::mem::replace;

/// Chunks from front to back, linked through their own nodes. It cannot be dropped: `close` ends an empty one.
pub struct ChunkList {
    pub(crate) len: u64,
    pub(crate) nodes: Nodes,
}

impl Model for ChunkList {
    ghost use Rattle.std.specs.Prelude.{◌≡◌, List, length};
    ghost use Rattle.buffer_pool.specs.Links.{states_of};
    ghost use Rattle.buffer_pool.specs.State.{ChunkState};

    ghost Value = { List ChunkState };

    ghost view = { λ l. states_of l.nodes.cells };

    ghost invariant = { λ l. l.len ≡ length (states_of l.nodes.cells) };
}

impl ChunkList {
    /// An empty list, which takes no memory.
    pub fn new() -> ChunkList
        ensures empty { result ≡ [] }
    {
        ChunkList {
            len: 0,
            nodes: Nodes::new(),
        }
    }

    /// How many chunks the list has.
    pub fn len(&self) -> u64
        ensures len { result ≡ length self.now }
    {
        self.len
    }

    /// Puts a chunk behind the last.
    #[tactic(auto, using(crate::proofs::Keeping::numbers_append))]
    pub fn push_back(&mut self, chunk: Chunk)
        requires countable { length self.old + 1 < 2 ^ 64 }
        ensures list { self.new ≡ self.old ++ chunk ∷ [] }
        ensures numbers { numbers self.new ≡ numbers self.old ++ chunk.number ∷ [] }
    {
        let Chunk { node } = chunk;
        self.extend(Nodes::single(Loose::of(node)), 1);
    }

    pub(crate) fn push_front(&mut self, chunk: Chunk)
        requires { length self.old + 1 < 2 ^ 64 }
        ensures { self.new ≡ chunk ∷ self.old }
    {
        let Chunk { node } = chunk;
        let rest = replace(&mut self.nodes, Nodes::single(Loose::of(node)));
        if self.len > 0 {
            self.nodes.join(rest);
        }
        self.len += 1;
    }

    /// Takes the first chunk out.
    pub fn pop_front(&mut self) -> Option<Chunk>
        ensures first { MatchOption result ((self.old ≡ []) × (self.new ≡ [])) (λ c. self.old ≡ c ∷ self.new) }
        ensures countable { length self.old < 2 ^ 64 }
    {
        if self.len == 0 {
            return None;
        }
        let loose = self.nodes.unlink_front();
        self.len -= 1;
        Some(Chunk {
            node: loose.into_box(),
        })
    }

    /// Moves the chunks of `from` behind the last, by linking alone.
    #[tactic(auto, using(crate::proofs::Keeping::numbers_append))]
    pub fn append(&mut self, from: &mut ChunkList)
        requires countable { length self.old + length from.old < 2 ^ 64 }
        ensures list { self.new ≡ self.old ++ from.old }
        ensures emptied { from.new ≡ [] }
        ensures numbers { numbers self.new ≡ numbers self.old ++ numbers from.old }
    {
        let len = from.len;
        if len == 0 {
            return;
        }
        from.len = 0;
        let nodes = replace(&mut from.nodes, Nodes::new());
        self.extend(nodes, len);
    }

    // Links the `len` nodes of a chain that is not empty behind the last.
    fn extend(&mut self, nodes: Nodes, len: u64)
        requires counted { len ≡ length (states_of nodes.cells) }
        requires nonempty { 0 < len }
        requires countable { length self.old + len < 2 ^ 64 }
        ensures { self.new ≡ self.old ++ states_of nodes.cells }
    {
        if self.len == 0 {
            self.nodes = nodes;
            self.len = len;
        } else {
            self.nodes.join(nodes);
            self.len += len;
        }
    }

    /// Ends an empty list.
    pub fn close(self)
        requires empty { self ≡ [] }
    {
        let ChunkList { len: _, nodes: _ } = self;
    }
}
