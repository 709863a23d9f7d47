//! A chain of nodes, in order.
//!
//! Unsafe code. Invariant: the chain owns its nodes, each of which points to the one after it; `head` is the place of the
//! first and `tail` that of the last. With no node the pointers mean nothing, and are not followed.
ghost use Rattle.std.specs.Prelude.{◌≡◌, ◌+◌, ◌-◌, ◌<◌, List, [], ◌∷◌, ◌++◌, length, slice_index_or};
ghost use denote.RawPtr.{Ptr};
ghost use Rattle.buffer_pool.specs.Links.{Cell, state_of, states_of, first_or, last_or, links, links_lent, place_or};

use crate::loose::Loose;
use crate::node::Node;
use std::marker::Model;
use std::ptr::null_mut;

// A drop frees nothing: a list takes each node out first, and its equations leave no chain with nodes behind.
#[derive(Drop)]
pub(crate) struct Nodes {
    head: *mut Node,
    pub(crate) tail: *mut Node,
    pub(crate) ghost cells: { List Cell },
    ghost end: { Ptr },
    ghost placed: { (head ≡ first_or cells head) × (tail ≡ last_or cells tail) },
}

impl Model for Nodes {
    ghost also_owns = { λ n. links n.cells n.end };

    ghost also_shares = { λ n _ κ. links_lent n.cells n.end κ };
}

impl Nodes {
    pub(crate) fn new() -> Nodes
        ensures { result.cells ≡ [] }
    {
        Nodes {
            head: null_mut(),
            tail: null_mut(),
        }
    }

    pub(crate) fn single(loose: Loose) -> Nodes
        ensures { states_of result.cells ≡ state_of loose.node ∷ [] }
    {
        let Loose { at } = loose;
        Nodes { head: at, tail: at }
    }

    // Links the nodes of `other` in after the last. Neither chain is empty.
    pub(crate) fn join(&mut self, other: Nodes)
        requires { (0 < length (states_of self.old.cells)) × (0 < length (states_of other.cells)) }
        ensures { states_of self.new.cells ≡ states_of self.old.cells ++ states_of other.cells }
    {
        let Nodes { head, tail } = other;
        let last = self.tail;
        unsafe {
            (*last).next = head;
        }
        self.tail = tail;
    }

    // Takes the first node out.
    pub(crate) fn unlink_front(&mut self) -> Loose
        requires { 0 < length (states_of self.old.cells) }
        ensures { states_of self.old.cells ≡ state_of result.node ∷ states_of self.new.cells }
    {
        let at = self.head;
        self.head = unsafe { (*at).next };
        Loose { at }
    }

    // Where the first node lies.
    pub(crate) fn head(&self) -> *mut Node
        ensures { 0 < length (states_of self.now.cells) → result ≡ place_or self.now.cells 0 result }
    {
        self.head
    }

    // Where the last node lies.
    pub(crate) fn tail(&self) -> *mut Node
        ensures { 0 < length (states_of self.now.cells) → result ≡ place_or self.now.cells (length (states_of self.now.cells) - 1) result }
    {
        self.tail
    }

    // The node at index `i`, which lies at `at`.
    pub(crate) fn node(&self, at: *mut Node, i: u64) -> &Node
        requires { (i < length (states_of self.now.cells)) × (at ≡ place_or self.now.cells i at) }
        ensures { (result.now.buffer ≡ slice_index_or (states_of self.now.cells) i result.now.buffer) × (i + 1 < length (states_of self.now.cells) → result.now.next ≡ place_or self.now.cells (i + 1) result.now.next) }
    {
        unsafe { &*at }
    }
}
