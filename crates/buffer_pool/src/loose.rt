//! A node outside any list and any box, as its pointer.
//!
//! Unsafe code. Invariant: `at` points to `node`, which this value owns together with the right to free its memory.
ghost use Rattle.std.specs.Prelude.{◌≡◌};
ghost use Rattle.buffer_pool.specs.declared.node.Node.{Node};
ghost use Rattle.buffer_pool.specs.Links.{owned_at};

use crate::node::Node;
use std::marker::Model;

pub(crate) struct Loose {
    pub(crate) at: *mut Node,
    pub(crate) ghost node: { Node },
}

impl Model for Loose {
    ghost also_owns = { λ l. owned_at l.at l.node };
}

impl Loose {
    pub(crate) fn of(boxed: Box<Node>) -> Loose
        ensures { result.node ≡ boxed.value }
    {
        let (at, _) = Box::into_raw_with_allocator(boxed);
        Loose { at }
    }

    pub(crate) fn into_box(self) -> Box<Node>
        ensures { result.value ≡ self.node }
    {
        let Loose { at } = self;
        unsafe {
            let heap = (*at).heap;
            Box::from_raw(heap, at)
        }
    }
}
