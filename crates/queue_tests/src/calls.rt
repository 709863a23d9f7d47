//! Calls of any queue that must succeed.
ghost use Rattle.std.specs.Prelude.{◌+◌, ◌≤◌, ◌<◌, length};
ghost use Rattle.buffer_pool.specs.Kept.{Kept, HeldWithin};

use crate::letters::Letters;
use chunkqueue::Queue;
use lt_world::{FileId, Owner};
use std::process::Abort;

pub const OWNER: Owner = Owner {
    conn: 0,
    request: 0,
};

pub fn push<Q: Queue>(rt: &impl Abort, queue: &mut Q, store: &mut Q::Owner, bytes: &[u8])
    requires { HeldWithin (Q.stored store.old) (length (Q.contents queue.old).numbers) }
    ensures { Kept (Q.stored store.old) (Q.contents queue.old).numbers (Q.stored store.new) (Q.contents queue.new).numbers }
{
    assert!(rt; queue.len() < 2_000_000 && bytes.len() < 5_000);
    let pushed = queue.push_bytes(store, bytes);
    assert!(rt; pushed.is_ok());
}

pub fn push_range<Q: Queue>(
    rt: &impl Abort,
    queue: &mut Q,
    store: &mut Q::Owner,
    start: u64,
    len: u64,
)
    requires { HeldWithin (Q.stored store.old) (length (Q.contents queue.old).numbers) }
    ensures { Kept (Q.stored store.old) (Q.contents queue.old).numbers (Q.stored store.new) (Q.contents queue.new).numbers }
{
    assert!(rt; queue.len() < 2_000_000 && start < 10_000 && len < 10_000);
    let pushed = queue.push_file(store, FileId(7), start, len);
    assert!(rt; pushed.is_ok());
}

/// Puts one queue behind another.
pub fn join<Q: Queue>(rt: &impl Abort, queue: &mut Q, more: &mut Q, store: &mut Q::Owner)
    requires { HeldWithin (Q.stored store.old) (length (Q.contents queue.old).numbers + length (Q.contents more.old).numbers) }
    ensures { HeldWithin (Q.stored store.new) (length (Q.contents queue.new).numbers + length (Q.contents more.new).numbers) }
{
    assert!(rt; queue.len() < 2_000_000 && more.len() < 10_000);
    queue.append_all(store, more);
    assert!(rt; more.len() == 0);
}

/// Puts the first `n` items of one queue behind another.
pub fn steal<Q: Queue>(rt: &impl Abort, queue: &mut Q, more: &mut Q, store: &mut Q::Owner, n: u64)
    requires { HeldWithin (Q.stored store.old) (length (Q.contents queue.old).numbers + length (Q.contents more.old).numbers) }
    ensures { HeldWithin (Q.stored store.new) (length (Q.contents queue.new).numbers + length (Q.contents more.new).numbers) }
{
    assert!(rt; queue.len() < 2_000_000 && n < 10_000 && n <= more.len());
    let stolen = queue.steal(store, more, n);
    assert!(rt; stolen.is_ok());
}

/// Takes off the first `wanted` bytes, or all where they are fewer: a sum over them, in order, that begins with `sum`.
pub fn taken<Q: Queue>(
    rt: &impl Abort,
    queue: &mut Q,
    store: &mut Q::Owner,
    files: &mut Letters,
    wanted: usize,
    sum: u64,
) -> u64
    requires { HeldWithin (Q.stored store.old) (length (Q.contents queue.old).numbers) }
    ensures { Kept (Q.stored store.old) (Q.contents queue.old).numbers (Q.stored store.new) (Q.contents queue.new).numbers }
{
    let mut sum = sum;
    let mut left = wanted;
    while left > 0 {
        let staged = queue.stage(store, files, OWNER);
        assert!(rt; staged.is_ok());
        let front = queue.front_bytes();
        let n = front.len().min(left);
        if n == 0 {
            return sum;
        }
        sum = summed(sum, &front[..n]);
        queue.advance(store, n);
        left -= n;
    }
    sum
}

pub fn summed(sum: u64, bytes: &[u8]) -> u64 {
    let mut sum = sum;
    for byte in bytes {
        sum = sum.wrapping_mul(31).wrapping_add(*byte as u64);
    }
    sum
}
