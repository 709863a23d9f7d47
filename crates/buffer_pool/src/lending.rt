//! The last node of a chain, lent for writing.
//!
//! Unsafe code. Invariant: while the node is lent, the chain owns all but that node; it has the node again, with the last
//! value that was written, when the loan ends.
ghost use Rattle.std.specs.Prelude.{◌≡◌, ◌<◌, length};
ghost use Rattle.std.specs.Borrow.{sem};
ghost use Rattle.buffer_pool.specs.Links.{states_of};
ghost use Rattle.buffer_pool.specs.Edits.{last_of};
ghost use Rattle.buffer_pool.specs.Lending.{LendsLast};

use crate::node::Node;
use crate::nodes::Nodes;

impl Nodes {
    pub(crate) fn last_mut(&mut self) -> &mut Node
        requires { 0 < length (states_of self.old.cells) }
        ensures* writes_back { sem 𝓛 (LendsLast self.entry result) }
        ensures buffer { result.now.buffer ≡ last_of (states_of self.old.cells) }
    {
        let tail = self.tail;
        unsafe { &mut *tail }
    }
}
