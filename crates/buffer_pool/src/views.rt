//! What a list shows of its chunks.
ghost use Rattle.std.specs.Prelude.{◌≡◌, ◌<◌, [], ◌∷◌, length, MatchOption};
ghost use Rattle.std.specs.Iterator.{YieldsFirstBy, item_count};
ghost use Rattle.buffer_pool.specs.Shown.{shown};
ghost use Rattle.buffer_pool.specs.State.{IsWithin};
ghost use Rattle.buffer_pool.specs.Edits.{first_of, last_of};

use crate::buffer::Kind;
use crate::list::ChunkList;
use crate::node::Node;
use crate::nodes::Nodes;
use std::marker::Model;

/// A chunk of a list, to be looked at.
#[derive(Drop)]
pub struct View<'a> {
    pub number: u64,
    pub kind: Kind,
    pub bytes: &'a [u8],
    pub room: usize,
}

fn view_of(node: &Node) -> View<'_>
    ensures shown { shown result ≡ node.now.buffer }
    ensures within { IsWithin node.now.buffer }
{
    let buffer = &node.buffer;
    View {
        number: buffer.number(),
        kind: buffer.kind(),
        bytes: buffer.bytes(),
        room: buffer.room(),
    }
}

impl ChunkList {
    /// The first chunk.
    pub fn front(&self) -> Option<View<'_>>
        ensures first { MatchOption result (self.now ≡ []) (λ v. (0 < length self.now) × (shown v ≡ first_of self.now) × IsWithin (shown v)) }
    {
        if self.len == 0 {
            return None;
        }
        let at = self.nodes.head();
        Some(view_of(self.nodes.node(at, 0)))
    }

    /// The last chunk, which is reached without a walk.
    #[tactic(auto, using(crate::proofs::Last::index_last))]
    pub fn back(&self) -> Option<View<'_>>
        ensures last { MatchOption result (self.now ≡ []) (λ v. (0 < length self.now) × (shown v ≡ last_of self.now) × IsWithin (shown v)) }
    {
        if self.len == 0 {
            return None;
        }
        let at = self.nodes.tail();
        Some(view_of(self.nodes.node(at, self.len - 1)))
    }

    /// The chunks from front to back.
    pub fn walk(&self) -> Walk<'_>
        ensures all { result ≡ self.now }
    {
        let nodes = &self.nodes;
        Walk {
            nodes,
            at: nodes.head(),
            next: 0,
            len: self.len,
        }
    }
}

/// An iterator over the views of a list's chunks.
#[derive(Drop)]
pub struct Walk<'a> {
    nodes: &'a Nodes,
    at: *mut Node,
    next: u64,
    len: u64,
}

impl<'a> Model for Walk<'a> {
    ghost use Rattle.std.specs.Prelude.{List};
    ghost use Rattle.buffer_pool.specs.State.{ChunkState};

    ghost Value = { List ChunkState };

    ghost use Rattle.buffer_pool.specs.Walking.{rest_of, IsWalk};

    ghost view = { rest_of };

    ghost invariant = { IsWalk };
}

impl<'a> Walk<'a> {
    fn step(&mut self) -> Option<View<'a>>
        ensures { MatchOption result ((self.old ≡ []) × (self.new ≡ [])) (λ v. self.old ≡ shown v ∷ self.new) }
    {
        if self.next == self.len {
            return None;
        }
        let nodes = self.nodes;
        let node = nodes.node(self.at, self.next);
        self.at = node.next;
        self.next += 1;
        Some(view_of(node))
    }
}

impl<'a> Iterator for Walk<'a> {
    type Item = View<'a>;

    ghost next_gives = { YieldsFirstBy shown (λ s. s) };

    ghost remaining = { item_count (λ s. s) };

    fn next(&mut self) -> Option<View<'a>> {
        self.step()
    }
}
