//! A queue of segments in boxes.
use chunkqueue::{PlainQueue, PlainStore, Queue};
use std::test::Fail;

// A drop that called itself once for each segment would run out of stack.
#[test]
fn a_long_queue_is_closed(rt: HostRuntime) {
    let mut store = PlainStore::new(rt.alloc());
    let mut queue = PlainQueue::new();
    for _ in 0..200_000 {
        assert!(rt; queue.len() < 200_000);
        assert!(rt; queue.push_bytes(&mut store, b"x").is_ok());
    }
    assert_eq!(rt; queue.len(), 200_000);
    queue.close(&mut store);
    store.close();
}
