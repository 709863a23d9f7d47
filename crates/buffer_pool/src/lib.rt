//! A pool of numbered buffers, and lists of buffers that are linked through the buffers' own nodes.
//!
//! Each number that a pool has made is in one place: free in the pool, a chunk in a caller's hand, or in one list.
//! Chunks, lists and pools cannot be dropped silently: a call spends each of them, and only `take` and `reserve` take memory.
//! The links are raw pointers. Unsafe code stands in the modules `loose`, `nodes` and `lending` alone.
//! It stands on `lt_bytes`, for the answer that says that no memory was there.
#![tactic(auto)]

mod buffer;
mod chunk;
mod edits;
mod filling;
mod lending;
mod list;
mod loose;
mod node;
mod nodes;
mod pool;
mod views;

pub use buffer::{BUFFER_SIZE, Kind};
pub use chunk::Chunk;
pub use filling::Piece;
pub use list::ChunkList;
pub use pool::Pool;
pub use views::{View, Walk};
