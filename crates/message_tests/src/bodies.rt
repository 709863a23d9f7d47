//! Bodies by the standard, at the limits and cut at every place.
ghost use Rattle.std.specs.Prelude.{◌+◌, ◌<◌, ◌≤◌, length};
ghost use Rattle.buffer_pool.specs.Kept.{HeldWithin};
ghost use Rattle.chunkqueue.specs.Items.{count_of};

use chunkqueue::{Chunks, Queue, Store};
use lt_http_body::{Body, BodyRefusal, BodyState, Framing};
use std::process::Abort;

const NO_LIMIT: u64 = u64::MAX;

const MIB: u64 = 1_048_576;

/// What is answered for further bytes, and how many of them are left.
type Answer = (Result<BodyState, BodyRefusal>, u64);

#[tactic(auto, using(lt_http_body::proofs::FeedingLemmas::memory_of_bytes))]
fn fed(
    rt: &impl Abort,
    store: &mut Store,
    reader: &mut Body,
    body: &mut Chunks,
    bytes: &[u8],
) -> Answer
    requires held { HeldWithin store.old (length body.old.numbers) }
    ensures held { HeldWithin store.new (length body.new.numbers) }
{
    let mut input = Chunks::new();
    assert!(rt; bytes.len() < 100_000 && body.len() < 10_000_000);
    assert!(rt; input.push_bytes(store, bytes).is_ok());
    let answer = reader.feed(store, &mut input, body);
    let left = input.len();
    input.close(store);
    (answer, left)
}

// What is answered for a whole body, and for no further bytes: the same again.
fn answered(
    rt: &impl Abort,
    store: &mut Store,
    framing: Framing,
    limit: u64,
    bytes: &[u8],
) -> Answer
    requires { HeldWithin store.old 0 }
    ensures { HeldWithin store.new 0 }
{
    let mut reader = Body::new(framing, limit);
    let mut body = Chunks::new();
    let (answer, left) = fed(rt, store, &mut reader, &mut body, bytes);
    let (again, _) = fed(rt, store, &mut reader, &mut body, b"");
    assert!(rt; again == answer);
    body.close(store);
    (answer, left)
}

fn chunked(rt: &impl Abort, store: &mut Store, bytes: &[u8]) -> Answer
    requires { HeldWithin store.old 0 }
    ensures { HeldWithin store.new 0 }
{
    answered(rt, store, Framing::Chunked, NO_LIMIT, bytes)
}

const GREETING: &[u8] = b"5;x=1\r\nhello\r\n0\r\nT: 1\r\n\r\n";

#[test]
fn a_chunked_body_is_read_however_it_is_cut(rt: HostRuntime) {
    let mut store = Store::new(rt.alloc());
    for cut in 0..=GREETING.len() {
        cut_at(&rt, &mut store, cut);
    }
    store.close();
}

fn cut_at(rt: &impl Abort, store: &mut Store, cut: usize)
    requires held { HeldWithin store.old 0 }
    ensures held { HeldWithin store.new 0 }
{
    assert!(rt; cut <= GREETING.len());
    let mut reader = Body::new(Framing::Chunked, 5);
    let mut body = Chunks::new();
    let (early, left) = fed(rt, store, &mut reader, &mut body, &GREETING[..cut]);
    assert!(rt; left == 0 && (early == Ok(BodyState::Done)) == (cut == GREETING.len()));
    let (answer, left) = fed(rt, store, &mut reader, &mut body, &GREETING[cut..]);
    assert!(rt; answer == Ok(BodyState::Done) && left == 0);
    let (answer, left) = fed(rt, store, &mut reader, &mut body, b"GET");
    assert!(rt; answer == Ok(BodyState::Done) && left == 3);
    let mut data = [b'-'; 6];
    assert!(rt; body.peek(&mut data) == 5 && data == *b"hello-");
    body.close(store);
}

#[test]
fn a_size_has_1_to_15_digits(rt: HostRuntime) {
    let mut store = Store::new(rt.alloc());
    assert!(&rt; chunked(&rt, &mut store, b"0\r\n\r\n!") == (Ok(BodyState::Done), 1));
    assert!(&rt; chunked(&rt, &mut store, b"00\r\n\n") == (Ok(BodyState::Done), 0));
    assert!(&rt; chunked(&rt, &mut store, b"000000000000000\r\n\r\n") == (Ok(BodyState::Done), 0));
    assert!(&rt; chunked(&rt, &mut store, b"0000000000000000") == (Err(BodyRefusal::BadChunk), 0));
    assert!(&rt; chunked(&rt, &mut store, b"fFFFFFFFFFFFFFF\r\nx") == (Ok(BodyState::NeedMore), 0));
    assert!(&rt; chunked(&rt, &mut store, b"0x5\r\n") == (Err(BodyRefusal::BadChunk), 3));
    assert!(&rt; chunked(&rt, &mut store, b" 5\r\n") == (Err(BodyRefusal::BadChunk), 3));
    assert!(&rt; chunked(&rt, &mut store, b"5 \r\n") == (Err(BodyRefusal::BadChunk), 2));
    assert!(&rt; chunked(&rt, &mut store, b"g\r\n") == (Err(BodyRefusal::BadChunk), 2));
    assert!(&rt; chunked(&rt, &mut store, b"\r\n") == (Err(BodyRefusal::BadChunk), 1));
    store.close();
}

#[test]
fn extensions_have_256_bytes_at_most(rt: HostRuntime) {
    let mut store = Store::new(rt.alloc());
    assert!(&rt; extended(&rt, &mut store, 256) == (Ok(BodyState::Done), 0));
    assert!(&rt; extended(&rt, &mut store, 257) == (Err(BodyRefusal::BadChunk), 4));
    assert!(&rt; chunked(&rt, &mut store, b"0;\r\n\r\n") == (Ok(BodyState::Done), 0));
    assert!(&rt; chunked(&rt, &mut store, b"0;\n\r\n") == (Err(BodyRefusal::BadChunk), 2));
    store.close();
}

const LETTERS: [u8; 8_192] = [b'x'; 8_192];

// A last chunk with an extension of so many bytes.
fn extended(rt: &impl Abort, store: &mut Store, n: usize) -> Answer
    requires held { HeldWithin store.old 0 }
    requires few { n ≤ 300 }
    ensures held { HeldWithin store.new 0 }
{
    surrounded(rt, store, b"0;", n, b"\r\n\r\n")
}

// So many letters between two texts.
fn surrounded(rt: &impl Abort, store: &mut Store, front: &[u8], n: usize, back: &[u8]) -> Answer
    requires held { HeldWithin store.old 0 }
    requires few { n ≤ 8192 }
    ensures held { HeldWithin store.new 0 }
{
    let mut reader = Body::new(Framing::Chunked, NO_LIMIT);
    let mut body = Chunks::new();
    let (_, _) = fed(rt, store, &mut reader, &mut body, front);
    let (_, left) = fed(rt, store, &mut reader, &mut body, &LETTERS[..n]);
    let (answer, more) = fed(rt, store, &mut reader, &mut body, back);
    body.close(store);
    assert!(rt; left < 10_000 && more < 10_000);
    (answer, left + more)
}

#[test]
fn a_trailer_has_8192_bytes_at_most(rt: HostRuntime) {
    let mut store = Store::new(rt.alloc());
    assert!(&rt; trailed(&rt, &mut store, 8_188, b"\r\n\r\n") == (Ok(BodyState::Done), 0));
    assert!(&rt; trailed(&rt, &mut store, 8_189, b"\r\n\r\n") == (Err(BodyRefusal::BadChunk), 1));
    assert!(&rt; trailed(&rt, &mut store, 8_190, b"\n\n") == (Ok(BodyState::Done), 0));
    assert!(&rt; trailed(&rt, &mut store, 8_191, b"\n\n") == (Err(BodyRefusal::BadChunk), 2));
    assert!(&rt; trailed(&rt, &mut store, 1, b"\rx") == (Err(BodyRefusal::BadChunk), 0));
    assert!(&rt; trailed(&rt, &mut store, 1, b"\n\r\r") == (Err(BodyRefusal::BadChunk), 0));
    store.close();
}

// A last chunk with a trailer that begins with so many letters.
fn trailed(rt: &impl Abort, store: &mut Store, n: usize, back: &[u8]) -> Answer
    requires held { HeldWithin store.old 0 }
    requires few { n ≤ 8192 }
    ensures held { HeldWithin store.new 0 }
{
    surrounded(rt, store, b"0\r\n", n, back)
}

#[test]
fn a_line_feed_alone_ends_no_line_of_a_chunk(rt: HostRuntime) {
    let mut store = Store::new(rt.alloc());
    assert!(&rt; chunked(&rt, &mut store, b"5\nhello") == (Err(BodyRefusal::BadChunk), 5));
    assert!(&rt;
        chunked(&rt, &mut store, b"2\r\nhi\n0\r\n\r\n") == (Err(BodyRefusal::BadChunk), 5)
    );
    assert!(&rt; chunked(&rt, &mut store, b"2\r\nhi!\r\n") == (Err(BodyRefusal::BadChunk), 2));
    assert!(&rt; chunked(&rt, &mut store, b"2\r\nhi\r\r\n") == (Err(BodyRefusal::BadChunk), 1));
    store.close();
}

#[test]
fn a_body_above_the_limit_is_refused_before_its_data(rt: HostRuntime) {
    let mut store = Store::new(rt.alloc());
    assert!(&rt;
        limited(&rt, &mut store, 5, b"3\r\nabc\r\n2\r\nde\r\n0\r\n\r\n") == (Ok(BodyState::Done), 0)
    );
    assert!(&rt;
        limited(&rt, &mut store, 4, b"3\r\nabc\r\n2\r\nde\r\n0\r\n\r\n")
            == (Err(BodyRefusal::TooLarge), 9)
    );
    assert!(&rt;
        limited(&rt, &mut store, MIB, b"FFFFFFFFFFFFFFF\r\n!") == (Err(BodyRefusal::TooLarge), 1)
    );
    assert!(&rt; limited(&rt, &mut store, 0, b"0\r\n\r\n") == (Ok(BodyState::Done), 0));
    assert!(&rt; stated(&rt, &mut store, 5, 5, b"hello!") == (Ok(BodyState::Done), 1));
    assert!(&rt; stated(&rt, &mut store, 5, 4, b"hello") == (Err(BodyRefusal::TooLarge), 5));
    assert!(&rt; stated(&rt, &mut store, 6, MIB, b"hello") == (Ok(BodyState::NeedMore), 0));
    assert!(&rt; stated(&rt, &mut store, 0, 0, b"!") == (Ok(BodyState::Done), 1));
    assert!(&rt; answered(&rt, &mut store, Framing::None, 0, b"!") == (Ok(BodyState::Done), 1));
    store.close();
}

fn limited(rt: &impl Abort, store: &mut Store, limit: u64, bytes: &[u8]) -> Answer
    requires { HeldWithin store.old 0 }
    ensures { HeldWithin store.new 0 }
{
    answered(rt, store, Framing::Chunked, limit, bytes)
}

fn stated(rt: &impl Abort, store: &mut Store, n: u64, limit: u64, bytes: &[u8]) -> Answer
    requires { HeldWithin store.old 0 }
    ensures { HeldWithin store.new 0 }
{
    answered(rt, store, Framing::Length(n), limit, bytes)
}

/// So much comes with one read.
const READ: usize = 4_096;

// What comes with a read, where the same bytes come again and again and these were read before it.
fn read_of(cycle: &[u8], before: usize) -> [u8; READ]
    requires some { 0 < length cycle.now }
    requires few { before ≤ 2000000 }
{
    let mut read = [0; READ];
    for (place, byte) in read.iter_mut().enumerate() {
        *byte = cycle[(before + place) % cycle.len()];
    }
    read
}

// In how many buffers the data lies that comes with so many reads, and how many bytes it has.
fn held(
    rt: &impl Abort,
    store: &mut Store,
    framing: Framing,
    cycle: &[u8],
    reads: usize,
) -> (u64, u64)
    requires held { HeldWithin store.old 0 }
    requires some { 0 < length cycle.now }
    requires few { reads ≤ 256 }
    ensures held { HeldWithin store.new 0 }
{
    let mut reader = Body::new(framing, NO_LIMIT);
    let mut body = Chunks::new();
    for round in 0..reads {
        let read = read_of(cycle, round * READ);
        let (answer, left) = fed(rt, store, &mut reader, &mut body, &read);
        assert!(rt; answer.is_ok() && left == 0);
    }
    let counts = (body.nodes(), body.len());
    body.close(store);
    counts
}

#[test]
fn a_held_body_takes_a_quarter_more_than_its_size_at_most(rt: HostRuntime) {
    let mut store = Store::new(rt.alloc());
    let (buffers, size) = held(&rt, &mut store, Framing::Length(MIB), b"x", 256);
    assert!(&rt; (buffers, size) == (256, MIB));
    let mut chunk = [b'x'; 4_104];
    chunk[..6].copy_from_slice(b"1000\r\n");
    chunk[4_102..].copy_from_slice(b"\r\n");
    let (buffers, size) = held(&rt, &mut store, Framing::Chunked, &chunk, 256);
    // 255 whole chunks, of which each has 8 bytes of framing, and one of which 2 are still to come.
    assert!(&rt; size == MIB - 255 * 8 - 6);
    assert!(&rt; buffers < 10_000 && buffers * 4_096 <= size + size / 4);
    // Chunks of one byte: each byte goes into the last buffer, so no buffer but the last has room left.
    let (buffers, size) = held(&rt, &mut store, Framing::Chunked, b"1\r\nx\r\n", 64);
    assert!(&rt; (buffers, size) == (11, 43_691));
    store.close();
}
