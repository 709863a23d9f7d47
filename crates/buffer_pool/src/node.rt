//! The node that a buffer lies in.
use crate::buffer::Buffer;
use std::alloc::Global;

// `next` means something only in a list. `heap` takes no bytes: a box of the node is made again with it.
#[derive(Drop)]
pub struct Node {
    pub(crate) next: *mut Node,
    pub(crate) heap: Global,
    pub(crate) buffer: Buffer,
}
