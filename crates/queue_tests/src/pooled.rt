//! How many buffers a pooled queue needs.
use crate::calls::{join, push, push_range};
use buffer_pool::Pool;
use chunkqueue::{ChunkQueue, Queue};
use std::test::Fail;

#[test]
fn bytes_that_come_one_by_one_fill_few_buffers(rt: HostRuntime) {
    let mut store = Pool::new(rt.alloc());
    let mut queue = ChunkQueue::new();
    for round in 0..1000u64 {
        push(&rt, &mut queue, &mut store, &[(round % 251) as u8]);
        assert!(rt; queue.nodes() <= 3);
    }
    for round in 0..1000u64 {
        assert_eq!(rt;
            queue.front_bytes().first().copied(),
            Some((round % 251) as u8)
        );
        assert!(rt; !queue.front_bytes().is_empty());
        queue.advance(&mut store, 1);
        assert!(rt; queue.nodes() <= 3);
    }
    assert_eq!(rt;
        (queue.len(), queue.nodes(), store.made(), store.spare()),
        (0, 0, 1, 1)
    );
    queue.close(&mut store);
    store.close();
}

#[test]
fn bytes_that_fit_into_the_last_buffer_free_their_own(rt: HostRuntime) {
    let mut store = Pool::new(rt.alloc());
    let mut queue = ChunkQueue::new();
    let mut more = ChunkQueue::new();
    push(&rt, &mut queue, &mut store, b"a");
    push(&rt, &mut more, &mut store, b"b");
    push_range(&rt, &mut more, &mut store, 2, 1);
    join(&rt, &mut queue, &mut more, &mut store);
    assert_eq!(rt; (queue.nodes(), store.made(), store.spare()), (2, 3, 1));
    queue.empty_into(&mut store);
    assert_eq!(rt; (queue.len(), store.made(), store.spare()), (0, 3, 3));
    more.close(&mut store);
    queue.close(&mut store);
    store.close();
}
