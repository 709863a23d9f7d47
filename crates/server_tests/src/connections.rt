//! The calls of a connection, each with ample memory.
ghost use Rattle.std.specs.Prelude.{◌≡◌, ◌+◌, ◌≤◌, [], length};
ghost use Rattle.buffer_pool.specs.Kept.{HeldWithin};
ghost use Rattle.chunkqueue.specs.Items.{items_of, count_of, staged_of};
ghost use Rattle.connection.specs.Connection.{file_number, IsBodyOf};

use chunkqueue::{Chunks, Queue, Store};
use connection::{Conn, INPUT_LIMIT, Stage};
use lt_world::{Address, Fault, FileId, Files, Found, Link, Opened, Owner, ReadLog};
use std::alloc::Global;
use std::process::Abort;

const PLACE: Address = Address {
    ip: [127, 0, 0, 1],
    port: 80,
};

const FILE: FileId = FileId(7);

/// Files with the byte `f` at each place.
#[derive(Drop)]
struct Same {
    reads: ReadLog,
}

impl Files for Same {
    ghost use Rattle.std.specs.Prelude.{None, []};
    ghost use Rattle.std.proofs.Common.{le_refl};
    ghost use Rattle.lt_world.specs.Disk.{Missing};

    ghost tells = { ⊥ };

    ghost disk = { λ _. record { tree = λ _. Missing; table = λ _. None; calls = [] } };

    ghost faults = { λ _. 0 };

    ghost reads = { λ files. files.reads };

    ghost later = { λ _ _. Unit {0} };

    ghost later_same = { λ _. tt };

    ghost later_later = { λ _ _ _ _ _. tt };

    ghost later_faults = { λ _ _ _. le_refl 0 };

    fn find(&mut self, _owner: Owner, _path: &[u8]) -> Found {
        Found::Missing
    }

    fn open(&mut self, _owner: Owner, _path: &[u8]) -> Opened {
        Opened::NoMemory
    }

    fn read_at(
        &mut self,
        owner: Owner,
        _file: FileId,
        _start: u64,
        buf: &mut [u8],
    ) -> Result<(), Fault> {
        buf.fill(b'f');
        self.reads.add(owner, &Ok(()));
        Ok(())
    }

    fn release(&mut self, _file: FileId) {}
}

/// So much comes, and there is room for it.
fn sent(rt: &impl Abort, conn: &mut Conn, store: &mut Store, bytes: &[u8])
    requires { HeldWithin store.old (length conn.old.numbers) }
    ensures { HeldWithin store.new (length conn.new.numbers) }
{
    assert!(rt; bytes.len() <= conn.room());
    let got = conn.got(store, bytes);
    assert!(rt; got.is_ok());
}

/// This is to be done next.
fn stands(rt: &impl Abort, conn: &mut Conn, store: &mut Store, stage: Stage)
    requires { HeldWithin store.old (length conn.old.numbers) }
    ensures { HeldWithin store.new (length conn.new.numbers) }
{
    let advanced = conn.advance(store);
    assert!(rt; advanced.ok() == Some(stage));
}

/// A head was read, and its body may have so many bytes.
fn accepted(rt: &impl Abort, conn: &mut Conn, store: &mut Store, limit: u64)
    requires { HeldWithin store.old (length conn.old.numbers) }
    ensures { HeldWithin store.new (length conn.new.numbers) }
{
    match conn.advance(store) {
        Ok(Stage::Head) => {}
        _ => {
            assert!(rt; false);
            return;
        }
    }
    let accepted = conn.accept_body(store, limit);
    assert!(rt; accepted.is_ok());
}

/// The request is whole; its content has so many bytes, begins with these, and lies in buffers of a quarter more at most
/// where it fills some.
fn carries(rt: &impl Abort, conn: &mut Conn, store: &mut Store, size: u64, bytes: &[u8])
    requires { HeldWithin store.old (length conn.old.numbers) }
    ensures { HeldWithin store.new (length conn.new.numbers) }
{
    match conn.advance(store) {
        Ok(Stage::Whole) => {}
        _ => {
            assert!(rt; false);
            return;
        }
    }
    let mut content = Chunks::new();
    conn.take_body(store, &mut content);
    let mut shown = [0; 16];
    let n = content.peek(&mut shown);
    let (buffers, held) = (content.nodes(), content.len());
    content.close(store);
    assert!(rt; held == size && shown[..n].starts_with(bytes));
    assert!(rt; buffers < 10_000 && (held < 4_096 || buffers * 4_096 <= held + held / 4));
}

/// Its request is this one, and names this path.
fn asks(rt: &impl Abort, conn: &Conn, number: u32, path: &[u8]) {
    assert!(rt; conn.owner().request == number);
    match conn.request() {
        Some(request) => assert!(rt; request.target.path.bytes() == path),
        None => assert!(rt; false),
    }
}

/// Its request is answered by the bytes `head` and this body.
fn replied(
    rt: &impl Abort,
    conn: &mut Conn,
    store: &mut Store,
    body: &mut Chunks,
    file: Option<FileId>,
    last: bool,
)
    requires counted { HeldWithin store.old (length conn.old.numbers + length body.old.numbers) }
    requires body { IsBodyOf (file_number file) (items_of body.old) }
    requires unstaged { staged_of body.old ≡ [] }
    requires few { count_of body.old ≤ 5 }
    ensures { HeldWithin store.new (length conn.new.numbers + length body.new.numbers) }
{
    assert!(rt; conn.owner().request < 1_000);
    match conn.advance(store) {
        Ok(Stage::Whole | Stage::Refused(_)) => {}
        _ => {
            assert!(rt; false);
            return;
        }
    }
    let answered = conn.answer(store, b"head", body, file, last);
    assert!(rt; answered.is_ok() && body.len() == 0);
}

/// Its request is answered by the bytes `head` alone.
fn answered(rt: &impl Abort, conn: &mut Conn, store: &mut Store, last: bool)
    requires { HeldWithin store.old (length conn.old.numbers) }
    ensures { HeldWithin store.new (length conn.new.numbers) }
{
    let mut body = Chunks::new();
    replied(rt, conn, store, &mut body, None, last);
    body.close(store);
}

/// Some of what is offered is taken, and the file is given back then or not.
fn took(rt: &impl Abort, conn: &mut Conn, store: &mut Store, bytes: &[u8], file: Option<FileId>)
    requires { HeldWithin store.old (length conn.old.numbers) }
    ensures { HeldWithin store.new (length conn.new.numbers) }
{
    let staged = conn.stage(
        store,
        &mut Same {
            reads: ReadLog::new(),
        },
    );
    assert!(rt; staged.is_ok());
    assert!(rt; conn.owes() && conn.offer().starts_with(bytes));
    let freed = conn.wrote(store, bytes.len());
    assert!(rt; freed == file);
}

/// A client at a new store.
fn client(alloc: Global) -> (Store, Conn)
    ensures { HeldWithin result.0 (length result.1.numbers) }
{
    (Store::new(alloc), Conn::new(alloc, Link(0), PLACE, PLACE))
}

/// The client is gone, and a file is given back or not.
fn closed(rt: &impl Abort, conn: Conn, store: Store, file: Option<FileId>)
    requires { HeldWithin store (length conn.numbers) }
{
    let mut store = store;
    let freed = conn.close(&mut store);
    assert!(rt; freed == file);
    store.close();
}

#[test]
fn a_pipelined_pair_is_answered_in_turn(rt: HostRuntime) {
    let (mut store, mut conn) = client(rt.alloc());
    stands(&rt, &mut conn, &mut store, Stage::Waiting);
    sent(
        &rt,
        &mut conn,
        &mut store,
        b"GET /a HTTP/1.1\r\nHost: h\r\n\r\nGET /b?c HTTP/1.1\r\nHost: h\r\n\r\nGE",
    );
    accepted(&rt, &mut conn, &mut store, 8);
    stands(&rt, &mut conn, &mut store, Stage::Whole);
    asks(&rt, &conn, 0, b"/a");
    answered(&rt, &mut conn, &mut store, false);
    stands(&rt, &mut conn, &mut store, Stage::Writing);
    took(&rt, &mut conn, &mut store, b"hea", None);
    stands(&rt, &mut conn, &mut store, Stage::Writing);
    assert!(&rt; conn.request().is_none());
    took(&rt, &mut conn, &mut store, b"d", None);
    accepted(&rt, &mut conn, &mut store, 8);
    stands(&rt, &mut conn, &mut store, Stage::Whole);
    asks(&rt, &conn, 1, b"/b");
    answered(&rt, &mut conn, &mut store, true);
    took(&rt, &mut conn, &mut store, b"head", None);
    stands(&rt, &mut conn, &mut store, Stage::Finished);
    closed(&rt, conn, store, None);
}

#[test]
fn a_head_without_an_end_is_refused_with_431(rt: HostRuntime) {
    let (mut store, mut conn) = client(rt.alloc());
    sent(&rt, &mut conn, &mut store, &[b'a'; 4_096]);
    sent(&rt, &mut conn, &mut store, &[b'a'; 4_095]);
    stands(&rt, &mut conn, &mut store, Stage::Waiting);
    sent(&rt, &mut conn, &mut store, b"a");
    stands(&rt, &mut conn, &mut store, Stage::Refused(431));
    assert!(&rt; conn.room() == 0 && conn.request().is_none());
    closed(&rt, conn, store, None);
}

#[test]
fn a_chunked_body_may_come_byte_by_byte(rt: HostRuntime) {
    let (mut store, mut conn) = client(rt.alloc());
    sent(
        &rt,
        &mut conn,
        &mut store,
        b"POST /a HTTP/1.1\r\nHost: h\r\nExpect: 100-continue\r\nTransfer-Encoding: chunked\r\n\r\n",
    );
    accepted(&rt, &mut conn, &mut store, 8);
    stands(&rt, &mut conn, &mut store, Stage::Writing);
    took(
        &rt,
        &mut conn,
        &mut store,
        b"HTTP/1.1 100 Continue\r\n\r\n",
        None,
    );
    for byte in b"5;x=1\r\nhello\r\n0\r\nT: 1\r\n\r\n" {
        stands(&rt, &mut conn, &mut store, Stage::Waiting);
        sent(&rt, &mut conn, &mut store, &[*byte]);
    }
    sent(
        &rt,
        &mut conn,
        &mut store,
        b"GET /b HTTP/1.1\r\nHost: h\r\n\r\n",
    );
    carries(&rt, &mut conn, &mut store, 5, b"hello");
    answered(&rt, &mut conn, &mut store, false);
    took(&rt, &mut conn, &mut store, b"head", None);
    accepted(&rt, &mut conn, &mut store, 8);
    asks(&rt, &conn, 1, b"/b");
    closed(&rt, conn, store, None);
}

/// A client that sends this for `/a`, and whose body may have so many bytes, stands so; one that is refused is asked for
/// no more, and is owed nothing yet.
fn stands_after(rt: &impl Abort, alloc: Global, bytes: &[u8], limit: u64, stage: Stage) {
    let (mut store, mut conn) = client(alloc);
    sent(rt, &mut conn, &mut store, bytes);
    accepted(rt, &mut conn, &mut store, limit);
    stands(rt, &mut conn, &mut store, stage);
    asks(rt, &conn, 0, b"/a");
    assert!(rt; stage == Stage::Whole || (conn.room() == 0 && !conn.owes()));
    closed(rt, conn, store, None);
}

#[test]
fn a_body_is_taken_or_refused_with_its_status(rt: HostRuntime) {
    let alloc = rt.alloc();
    stands_after(
        &rt,
        alloc,
        b"PUT /a HTTP/1.1\r\nHost: h\r\nContent-Length: 0\r\n\r\n",
        8,
        Stage::Whole,
    );
    stands_after(
        &rt,
        alloc,
        b"PUT /a HTTP/1.1\r\nHost: h\r\nExpect: 100-continue\r\nContent-Length: 2\r\n\r\n",
        1,
        Stage::Refused(413),
    );
    stands_after(
        &rt,
        alloc,
        b"POST /a HTTP/1.1\r\nHost: h\r\nTransfer-Encoding: chunked\r\n\r\nx",
        8,
        Stage::Refused(400),
    );
}

/// So often 4,096 bytes are sent.
fn poured(rt: &impl Abort, conn: &mut Conn, store: &mut Store, times: u32)
    requires { HeldWithin store.old (length conn.old.numbers) }
    ensures { HeldWithin store.new (length conn.new.numbers) }
{
    for _ in 0..times {
        sent(rt, conn, store, &[b'a'; 4_096]);
    }
}

#[test]
fn reads_go_on_once_the_bytes_that_are_held_are_taken(rt: HostRuntime) {
    let (mut store, mut conn) = client(rt.alloc());
    sent(
        &rt,
        &mut conn,
        &mut store,
        b"GET / HTTP/1.1\r\nHost: h\r\n\r\n",
    );
    accepted(&rt, &mut conn, &mut store, 8);
    stands(&rt, &mut conn, &mut store, Stage::Whole);
    sent(
        &rt,
        &mut conn,
        &mut store,
        b"POST / HTTP/1.1\r\nHost: h\r\nContent-Length: 69632\r\n\r\n",
    );
    poured(&rt, &mut conn, &mut store, 15);
    // The head that waits has 51 bytes.
    assert!(&rt; conn.room() == 4_045);
    sent(&rt, &mut conn, &mut store, &[b'a'; 4_045]);
    assert!(&rt; conn.room() == 0);
    answered(&rt, &mut conn, &mut store, false);
    took(&rt, &mut conn, &mut store, b"head", None);
    accepted(&rt, &mut conn, &mut store, 69_632);
    stands(&rt, &mut conn, &mut store, Stage::Waiting);
    assert!(&rt; conn.room() == INPUT_LIMIT);
    poured(&rt, &mut conn, &mut store, 1);
    sent(&rt, &mut conn, &mut store, &[b'a'; 51]);
    carries(&rt, &mut conn, &mut store, 69_632, b"aaaa");
    closed(&rt, conn, store, None);
}

#[test]
fn a_client_that_ended_sends_nothing_more(rt: HostRuntime) {
    let (mut store, mut conn) = client(rt.alloc());
    assert!(&rt; conn.room() == INPUT_LIMIT);
    conn.ended();
    assert!(&rt; conn.room() == 0);
    stands(&rt, &mut conn, &mut store, Stage::Finished);
    closed(&rt, conn, store, None);
}

/// A client whose request is answered with a file of five bytes.
fn served(rt: &impl Abort, alloc: Global) -> (Store, Conn)
    ensures { HeldWithin result.0 (length result.1.numbers) }
{
    let (mut store, mut conn) = client(alloc);
    sent(
        rt,
        &mut conn,
        &mut store,
        b"GET / HTTP/1.1\r\nHost: h\r\n\r\n",
    );
    accepted(rt, &mut conn, &mut store, 8);
    stands(rt, &mut conn, &mut store, Stage::Whole);
    let mut body = Chunks::new();
    let pushed = body.push_file(&mut store, FILE, 0, 5);
    assert!(rt; pushed.is_ok());
    replied(rt, &mut conn, &mut store, &mut body, Some(FILE), false);
    body.close(&mut store);
    (store, conn)
}

#[test]
fn a_file_is_given_back_with_its_last_byte(rt: HostRuntime) {
    let (mut store, mut conn) = served(&rt, rt.alloc());
    took(&rt, &mut conn, &mut store, b"head", None);
    took(&rt, &mut conn, &mut store, b"ffff", None);
    took(&rt, &mut conn, &mut store, b"f", Some(FILE));
    stands(&rt, &mut conn, &mut store, Stage::Waiting);
    closed(&rt, conn, store, None);
}

#[test]
fn a_file_is_given_back_when_its_client_is_gone(rt: HostRuntime) {
    let (mut store, mut conn) = served(&rt, rt.alloc());
    took(&rt, &mut conn, &mut store, b"head", None);
    took(&rt, &mut conn, &mut store, b"ffff", None);
    closed(&rt, conn, store, Some(FILE));
}
