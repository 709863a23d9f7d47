//! The same calls on both queues, with what must leave them.
ghost use Rattle.std.specs.Prelude.{◌+◌, ◌≤◌, length};
ghost use Rattle.buffer_pool.specs.Kept.{HeldWithin};

use crate::calls::{OWNER, join, push, push_range, steal, summed, taken};
use crate::letters::Letters;
use buffer_pool::Pool;
use chunkqueue::{ChunkQueue, PlainQueue, PlainStore, Queue};
use std::process::Abort;

/// One case a line: calls on a queue and another one, a byte each (`called` has them), the bytes that then leave the
/// queue, and those that leave the other.
const ROWS: &[u8] = b"\
hf:headcde:
hfk:headcde:
hf-:eadcde:
hf---:dcde:
hf-----:de:
hf*::
hfA:headcde:ABCD
hA+:headABCD:
hfAc+:headcdeABCDcdef:
f!cAc+:cdecdefABCDcdef:
xAcW0:x:ABCDcdefWXYZ
xAcW2:xAB:CDcdefWXYZ
xAcW4:xABCD:cdefWXYZ
xAcW6:xABCDcd:efWXYZ
xAcW=:xABCDcdefWXYZ:";

#[test]
fn both_queues_let_go_what_was_pushed(rt: HostRuntime) {
    for row in ROWS.split(|byte| *byte == b'\n') {
        let mut words = row.split(|byte| *byte == b':');
        let calls = words.next().unwrap_or(b"");
        let leaves = words.next().unwrap_or(b"");
        let left = words.next().unwrap_or(b"");
        played_on_both(&rt, calls, leaves, left);
    }
}

fn played_on_both(rt: &(impl Abort + AllocGlobal), calls: &[u8], leaves: &[u8], left: &[u8]) {
    let mut store = PlainStore::new(rt.alloc());
    played::<PlainQueue>(rt, &mut store, calls, leaves, left);
    store.close();
    let mut pool = Pool::new(rt.alloc());
    played::<ChunkQueue>(rt, &mut pool, calls, leaves, left);
    pool.close();
}

#[test]
fn a_range_is_read_piece_by_piece(rt: HostRuntime) {
    let mut store = PlainStore::new(rt.alloc());
    piece_by_piece::<PlainQueue>(&rt, &mut store);
    store.close();
    let mut pool = Pool::new(rt.alloc());
    piece_by_piece::<ChunkQueue>(&rt, &mut pool);
    pool.close();
}

fn played<Q: Queue>(rt: &impl Abort, store: &mut Q::Owner, calls: &[u8], leaves: &[u8], left: &[u8])
    requires { HeldWithin (Q.stored store.old) 0 }
    ensures { HeldWithin (Q.stored store.new) 0 }
{
    let mut files = Letters::new();
    let mut queue = Q::new();
    let mut more = Q::new();
    for call in calls {
        called(rt, &mut queue, &mut more, store, &mut files, *call);
    }
    assert!(rt; queue.len() == leaves.len() as u64 && more.len() == left.len() as u64);
    let first = taken(rt, &mut queue, store, &mut files, 1_000, 0);
    assert!(rt; first == summed(0, leaves) && queue.len() == 0);
    queue.close(store);
    let second = taken(rt, &mut more, store, &mut files, 1_000, 0);
    assert!(rt; second == summed(0, left) && more.len() == 0);
    more.close(store);
}

fn called<Q: Queue>(
    rt: &impl Abort,
    queue: &mut Q,
    more: &mut Q,
    store: &mut Q::Owner,
    files: &mut Letters,
    call: u8,
)
    requires { HeldWithin (Q.stored store.old) (length (Q.contents queue.old).numbers + length (Q.contents more.old).numbers) }
    ensures { HeldWithin (Q.stored store.new) (length (Q.contents queue.new).numbers + length (Q.contents more.new).numbers) }
{
    match call {
        b'h' => push(rt, queue, store, b"head"),
        b'x' => push(rt, queue, store, b"x"),
        b'f' => push_range(rt, queue, store, 2, 3),
        b'A' => push(rt, more, store, b"ABCD"),
        b'W' => push(rt, more, store, b"WXYZ"),
        b'c' => push_range(rt, more, store, 2, 4),
        b'-' => {
            let _ = taken(rt, queue, store, files, 1, 0);
        }
        b'!' => {
            let staged = queue.stage(store, files, OWNER);
            assert!(rt; staged.is_ok());
        }
        b'*' => queue.empty_into(store),
        b'+' => join(rt, queue, more, store),
        b'=' => {
            let all = more.len();
            steal(rt, queue, more, store, all)
        }
        b'k' => assert!(rt; shows_head(queue)),
        _ => steal(rt, queue, more, store, (call % 16) as u64),
    }
}

// A look ends before the first range.
fn shows_head<Q: Queue>(queue: &Q) -> bool {
    let mut buf = [b'-'; 6];
    let seen = queue.peek(&mut buf);
    seen == 4 && buf.as_slice() == b"head--".as_slice() && queue.front_bytes() == b"head".as_slice()
}

fn piece_by_piece<Q: Queue>(rt: &impl Abort, store: &mut Q::Owner)
    requires { HeldWithin (Q.stored store.old) 0 }
    ensures { HeldWithin (Q.stored store.new) 0 }
{
    let mut files = Letters::new();
    let mut queue = Q::new();
    push_range(rt, &mut queue, store, 0, 5_000);
    let staged = queue.stage(store, &mut files, OWNER);
    assert!(rt; staged.is_ok() && queue.front_bytes().len() == 4_096);
    queue.advance(store, 4_096);
    files.broken = true;
    let failed = queue.stage(store, &mut files, OWNER);
    assert!(rt; failed.is_err() && queue.front_bytes().is_empty());
    files.broken = false;
    let staged = queue.stage(store, &mut files, OWNER);
    assert!(rt; staged.is_ok() && queue.front_bytes().len() == 904);
    // 4,096 is 157 times 26 and 14 more.
    assert!(rt; queue.front_bytes().first().copied() == Some(b'o'));
    queue.close(store);
}
