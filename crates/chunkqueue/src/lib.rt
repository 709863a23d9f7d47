//! The chunk queue, in which bytes wait to be sent: bytes in memory and ranges of opened files.
//! Promised: each call is its list operation on items, want of memory and a failed read change
//! nothing, what is offered is the first bytes, and no buffer is lost or doubled.
//! `Queue` says so of every queue; `PlainQueue` keeps a segment of memory for each push.
//! Stands on `lt_bytes` (`NoMemory`), `lt_world` (`Files`) and `buffer_pool` (the pool and its lists).
#![tactic(auto)]

mod advancing;
mod appending;
mod chain;
mod file_segment;
mod joining;
mod looking;
mod memory_segment;
mod merging;
mod plain;
mod pooled;
mod queue;
mod reading;
mod segment;
mod slices;
mod splitting;
mod stealing;
mod store;

pub use buffer_pool::BUFFER_SIZE;
pub use merging::MERGE_SIZE;
pub use plain::PlainQueue;
pub use pooled::ChunkQueue;
pub use queue::Queue;
pub use slices::Slices;
pub use store::PlainStore;

/// The queue that the server works with.
pub type Chunks = ChunkQueue;

/// The owner of its buffers.
pub type Store = buffer_pool::Pool;
