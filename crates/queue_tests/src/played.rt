//! The same 10,000 calls on both queues.
ghost use Rattle.std.specs.Prelude.{◌+◌, ◌≤◌, length};
ghost use Rattle.buffer_pool.specs.Kept.{HeldWithin};

use crate::calls::{join, push, push_range, taken};
use crate::letters::Letters;
use buffer_pool::Pool;
use chunkqueue::{ChunkQueue, PlainQueue, PlainStore, Queue};
use std::process::Abort;

const PIECE: [u8; 4096] = [b'x'; 4096];

#[test]
fn both_queues_let_the_same_bytes_go(rt: HostRuntime) {
    let mut store = PlainStore::new(rt.alloc());
    let plain = played::<PlainQueue>(&rt, &mut store);
    store.close();
    let mut pool = Pool::new(rt.alloc());
    let pooled = played::<ChunkQueue>(&rt, &mut pool);
    pool.close();
    assert!(&rt; plain.0 == pooled.0 && plain.1 == pooled.1);
    assert!(&rt; plain.0 != 0 && plain.1 != 0);
}

// A sum over the bytes that left in 10,000 calls, in order, and how many items are still there.
fn played<Q: Queue>(rt: &impl Abort, store: &mut Q::Owner) -> (u64, u64)
    requires { HeldWithin (Q.stored store.old) 0 }
{
    let mut files = Letters::new();
    let mut queue = Q::new();
    let mut x = 1u64;
    let mut sum = 0u64;
    for _ in 0..10_000 {
        x = x
            .wrapping_mul(6_364_136_223_846_793_005)
            .wrapping_add(1_442_695_040_888_963_407);
        let size = 64 + (x >> 50) % 4_033;
        sum = called(rt, &mut queue, store, &mut files, x >> 62, size, sum);
    }
    let left = queue.len();
    queue.close(store);
    (sum, left)
}

fn called<Q: Queue>(
    rt: &impl Abort,
    queue: &mut Q,
    store: &mut Q::Owner,
    files: &mut Letters,
    kind: u64,
    size: u64,
    sum: u64,
) -> u64
    requires { HeldWithin (Q.stored store.old) (length (Q.contents queue.old).numbers) }
    ensures { HeldWithin (Q.stored store.new) (length (Q.contents queue.new).numbers) }
{
    if kind == 3 || size > 4_096 || queue.len() > 1_000_000 {
        return taken(rt, queue, store, files, size as usize, sum);
    }
    if kind == 0 {
        push(rt, queue, store, &PIECE[..size as usize]);
        return sum;
    }
    if kind == 1 {
        push_range(rt, queue, store, size, size);
        return sum;
    }
    follow(rt, queue, store, &PIECE[..size as usize]);
    sum
}

fn follow<Q: Queue>(rt: &impl Abort, queue: &mut Q, store: &mut Q::Owner, bytes: &[u8])
    requires { HeldWithin (Q.stored store.old) (length (Q.contents queue.old).numbers) }
    ensures { HeldWithin (Q.stored store.new) (length (Q.contents queue.new).numbers) }
{
    let mut more = Q::new();
    push(rt, &mut more, store, bytes);
    join(rt, queue, &mut more, store);
    more.close(store);
}
