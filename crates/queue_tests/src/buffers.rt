//! Chunks, lists of them and the pool, each call once with ample memory.
use buffer_pool::{BUFFER_SIZE, Chunk, ChunkList, Kind, Pool};
use std::process::Abort;

#[test]
fn the_number_given_back_last_comes_again(rt: HostRuntime) {
    let mut pool = Pool::new(rt.alloc());
    let first = taken(&rt, &mut pool);
    let second = taken(&rt, &mut pool);
    assert_eq!(rt; (first.number(), second.number()), (0, 1));
    give_back(&rt, &mut pool, first);
    let again = taken(&rt, &mut pool);
    assert_eq!(rt; (again.number(), pool.made(), pool.spare()), (0, 2, 0));
    give_back(&rt, &mut pool, second);
    give_back(&rt, &mut pool, again);
    let newest = taken(&rt, &mut pool);
    assert_eq!(rt; (newest.number(), pool.made(), pool.spare()), (0, 2, 1));
    give_back(&rt, &mut pool, newest);
    pool.close();
}

#[test]
fn reserved_nodes_are_spare(rt: HostRuntime) {
    let mut pool = Pool::new(rt.alloc());
    for (wanted, made) in [(3, 3), (2, 3), (5, 5)] {
        assert!(rt; pool.reserve(wanted).is_ok());
        assert_eq!(rt; (pool.made(), pool.spare()), (made, made));
    }
    pool.close();
}

#[test]
fn a_chunk_holds_what_was_put_in(rt: HostRuntime) {
    let mut pool = Pool::new(rt.alloc());
    let mut chunk = taken(&rt, &mut pool);
    assert!(rt; chunk.kind() == Kind::Bytes);
    assert!(rt; holds(&chunk, b"", BUFFER_SIZE));
    if chunk.room() >= 4 {
        chunk.put(&mut pool, b"abcd");
    }
    drop_front(&rt, &mut chunk, 3);
    assert!(rt; holds(&chunk, b"d", 4092));
    chunk.pack(&mut pool);
    assert!(rt; holds(&chunk, b"d", 4095));
    chunk.set_file(7, 10, 20);
    drop_front(&rt, &mut chunk, 1);
    assert!(rt; holds(&chunk, b"", 4096));
    assert!(rt;
        chunk.kind()
            == Kind::File {
                file: 7,
                start: 10,
                len: 20
            }
    );
    assert_eq!(rt; pool.filled(), 5);
    give_back(&rt, &mut pool, chunk);
    pool.close();
}

#[test]
fn a_list_keeps_its_order_and_its_ends(rt: HostRuntime) {
    let mut pool = Pool::new(rt.alloc());
    let mut list = ChunkList::new();
    let mut behind = ChunkList::new();
    assert!(rt; list.front().is_none() && list.back().is_none());
    for _ in 0..3 {
        let chunk = taken(&rt, &mut pool);
        push(&rt, &mut list, chunk);
        let chunk = taken(&rt, &mut pool);
        push(&rt, &mut behind, chunk);
    }
    if u64::MAX - list.len() >= behind.len() {
        list.append(&mut behind);
    }
    assert_eq!(rt; (list.len(), behind.len()), (6, 0));
    change_front(&rt, &mut list, &mut pool);
    change_back(&rt, &mut list, &mut pool);
    let mut walk = list.walk();
    for (number, bytes, room) in [
        (0, b"bc".as_slice(), 4093),
        (2, b"", 4096),
        (4, b"", 4096),
        (1, b"", 4096),
        (3, b"", 4096),
        (5, b"xyz", 4093),
    ] {
        match walk.next() {
            Some(view) => assert_eq!(rt;
                (view.number, view.bytes, view.room),
                (number, bytes, room)
            ),
            None => panic!(&rt; "the walk ends early"),
        }
    }
    assert!(rt; walk.next().is_none());
    empty(&rt, list, &mut pool);
    empty(&rt, behind, &mut pool);
    assert_eq!(rt; (pool.made(), pool.spare(), pool.filled()), (6, 6, 9));
    pool.close();
}

#[test]
fn a_thousand_takes_use_three_nodes(rt: HostRuntime) {
    let mut pool = Pool::new(rt.alloc());
    let mut list = ChunkList::new();
    for round in 0..1000u64 {
        let chunk = taken(&rt, &mut pool);
        assert_eq!(rt; chunk.number(), round % 3);
        push(&rt, &mut list, chunk);
        if list.len() == 3
            && let Some(chunk) = list.pop_front()
        {
            give_back(&rt, &mut pool, chunk);
        }
    }
    assert_eq!(rt; (pool.made(), pool.spare(), list.len()), (3, 1, 2));
    empty(&rt, list, &mut pool);
    pool.close();
}

fn change_front(rt: &impl Abort, list: &mut ChunkList, pool: &mut Pool) {
    match list.front() {
        Some(view) => {
            if view.room < 3 {
                panic!(rt; "no room");
            }
        }
        None => panic!(rt; "no chunk"),
    }
    list.put_front(pool, b"abc");
    match list.front() {
        Some(view) => {
            if view.bytes.is_empty() {
                panic!(rt; "no byte");
            }
        }
        None => panic!(rt; "no chunk"),
    }
    list.drop_from_front(1);
    list.set_front(1, 2, 3);
    match list.front() {
        Some(view) => assert!(rt;
            view.kind
                == Kind::File {
                    file: 1,
                    start: 2,
                    len: 3
                }
        ),
        None => panic!(rt; "no chunk"),
    }
}

fn change_back(rt: &impl Abort, list: &mut ChunkList, pool: &mut Pool) {
    match list.back() {
        Some(view) => {
            if view.room < 3 {
                panic!(rt; "no room");
            }
        }
        None => panic!(rt; "no chunk"),
    }
    list.put_back(pool, b"xyz");
    if list.len() > 0 {
        list.pack_back(pool);
    }
}

fn holds(chunk: &Chunk, bytes: &[u8], room: usize) -> bool {
    chunk.bytes() == bytes && chunk.room() == room
}

fn taken(rt: &impl Abort, pool: &mut Pool) -> Chunk {
    match pool.take() {
        Ok(chunk) => chunk,
        Err(_) => panic!(rt; "no memory"),
    }
}

fn give_back(rt: &impl Abort, pool: &mut Pool, chunk: Chunk) {
    if pool.spare() < pool.made() {
        pool.give(chunk);
    } else {
        panic!(rt; "more chunks than were made");
    }
}

fn drop_front(rt: &impl Abort, chunk: &mut Chunk, n: usize) {
    if chunk.bytes().len() < n {
        panic!(rt; "too few bytes");
    }
    chunk.drop_front(n);
}

fn push(rt: &impl Abort, list: &mut ChunkList, chunk: Chunk) {
    if list.len() == u64::MAX {
        panic!(rt; "the list is full");
    }
    list.push_back(chunk);
}

fn empty(rt: &impl Abort, list: ChunkList, pool: &mut Pool) {
    let mut rest = list;
    while let Some(chunk) = rest.pop_front() {
        give_back(rt, pool, chunk);
    }
    rest.close();
}
