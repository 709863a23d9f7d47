//! Answers of an application: those of the specification, cut at every place, and each that is refused.
ghost use Rattle.std.specs.Prelude.{◌+◌, ◌<◌, ◌≤◌, length};
ghost use Rattle.buffer_pool.specs.Kept.{HeldWithin};

use chunkqueue::{Chunks, Queue, Store};
use fcgi_records::{Reader, ReaderState, RecordFault, STDERR, STDOUT, encode_begin, encode_header};
use std::process::Abort;

type Answer = Result<ReaderState, RecordFault>;

// What is answered for further bytes.
#[tactic(auto, using(fcgi_records::proofs::FeedingLemmas::memory_of_bytes))]
fn fed(
    rt: &impl Abort,
    store: &mut Store,
    reader: &mut Reader,
    out: &mut Chunks,
    bytes: &[u8],
) -> Answer
    requires held { HeldWithin store.old (length out.old.numbers) }
    ensures held { HeldWithin store.new (length out.new.numbers) }
{
    let mut input = Chunks::new();
    assert!(rt; bytes.len() < 100_000 && out.len() < 10_000_000);
    assert!(rt; input.push_bytes(store, bytes).is_ok());
    let answer = reader.feed(store, &mut input, out);
    assert!(rt; input.len() == 0 || answer.is_err());
    input.close(store);
    answer
}

// The answer of FastCGI Specification 1.0, appendix B, with a message of an error, padding and a status of the application.
const GREETING: &[u8] = b"\x01\x06\x00\x01\x00\x1b\x05\x00Content-type: text/html\r\n\r\n12345\
\x01\x07\x00\x01\x00\x05\x03\x00oops!123\
\x01\x06\x00\x01\x00\x06\x00\x00<html>\
\x01\x07\x00\x01\x00\x00\x00\x00\
\x01\x06\x00\x01\x00\x00\x08\xff12345678\
\x01\x03\x00\x01\x00\x08\x02\x00\x00\x00\x01\xaa\x00abc12";

const GREETED: [u8; 34] = *b"Content-type: text/html\r\n\r\n<html>-";

#[test]
fn an_answer_is_read_however_it_is_cut(rt: HostRuntime) {
    let mut store = Store::new(rt.alloc());
    for cut in 0..=GREETING.len() {
        cut_at(&rt, &mut store, cut);
    }
    store.close();
}

fn cut_at(rt: &impl Abort, store: &mut Store, cut: usize)
    requires held { HeldWithin store.old 0 }
    ensures held { HeldWithin store.new 0 }
{
    assert!(rt; cut <= GREETING.len());
    let mut reader = Reader::new();
    let mut out = Chunks::new();
    let early = fed(rt, store, &mut reader, &mut out, &GREETING[..cut]);
    assert!(rt; early.is_ok() && (early == Ok(ReaderState::Done)) == (cut == GREETING.len()));
    let answer = fed(rt, store, &mut reader, &mut out, &GREETING[cut..]);
    assert!(rt; answer == Ok(ReaderState::Done));
    greeted(rt, store, out);
    let mut more = Chunks::new();
    let answer = fed(rt, store, &mut reader, &mut more, b"");
    assert!(rt; answer == Ok(ReaderState::Done));
    let answer = fed(rt, store, &mut reader, &mut more, b"\x01");
    assert!(rt; answer == Err(RecordFault::AfterEnd));
    let answer = fed(rt, store, &mut reader, &mut more, b"");
    assert!(rt; answer == Err(RecordFault::AfterEnd));
    more.close(store);
}

fn greeted(rt: &impl Abort, store: &mut Store, out: Chunks)
    requires held { HeldWithin store.old (length out.numbers) }
    ensures held { HeldWithin store.new 0 }
{
    let mut content = [b'-'; 34];
    assert!(rt; out.peek(&mut content) == 33 && content == GREETED);
    out.close(store);
}

#[test]
fn an_answer_is_read_byte_by_byte(rt: HostRuntime) {
    let mut store = Store::new(rt.alloc());
    let mut reader = Reader::new();
    let mut out = Chunks::new();
    for place in 0..GREETING.len() {
        let answer = fed(
            &rt,
            &mut store,
            &mut reader,
            &mut out,
            &GREETING[place..place + 1],
        );
        assert!(&rt; answer.is_ok());
        assert!(&rt; (answer == Ok(ReaderState::Done)) == (place + 1 == GREETING.len()));
    }
    greeted(&rt, &mut store, out);
    store.close();
}

// All but the last byte are read, with the last one they are refused, and so is whatever follows.
fn refused(rt: &impl Abort, store: &mut Store, bytes: &[u8], fault: RecordFault)
    requires held { HeldWithin store.old 0 }
    requires some { 0 < length bytes.now }
    ensures held { HeldWithin store.new 0 }
{
    let mut reader = Reader::new();
    let mut out = Chunks::new();
    let last = bytes.len() - 1;
    let answer = fed(rt, store, &mut reader, &mut out, &bytes[..last]);
    assert!(rt; answer.is_ok());
    let answer = fed(rt, store, &mut reader, &mut out, &bytes[last..]);
    assert!(rt; answer == Err(fault));
    let answer = fed(rt, store, &mut reader, &mut out, GREETING);
    assert!(rt; answer == Err(fault));
    assert!(rt; out.len() == 0);
    out.close(store);
}

#[test]
fn a_wrong_header_is_refused_as_it_is_whole(rt: HostRuntime) {
    let mut store = Store::new(rt.alloc());
    let version = RecordFault::WrongVersion;
    let id = RecordFault::WrongId;
    let end = RecordFault::WrongEnd;
    refused(
        &rt,
        &mut store,
        b"\x00\x06\x00\x01\x00\x01\x00\x00",
        version,
    );
    refused(
        &rt,
        &mut store,
        b"\x02\x06\x00\x01\x00\x01\x00\x00",
        version,
    );
    refused(
        &rt,
        &mut store,
        b"\x02\x09\x00\x02\x00\x01\x00\x00",
        version,
    );
    refused(&rt, &mut store, b"\x01\x06\x00\x00\x00\x01\x00\x00", id);
    refused(&rt, &mut store, b"\x01\x06\x00\x02\x00\x01\x00\x00", id);
    refused(&rt, &mut store, b"\x01\x06\x01\x01\x00\x01\x00\x00", id);
    refused(&rt, &mut store, b"\x01\x09\x00\x02\x00\x01\x00\x00", id);
    refused(&rt, &mut store, b"\x01\x03\x00\x01\x00\x07\x00\x00", end);
    refused(&rt, &mut store, b"\x01\x03\x00\x01\x00\x09\x00\x00", end);
    refused(&rt, &mut store, b"\x01\x03\x00\x01\x01\x08\x00\x00", end);
    refused(&rt, &mut store, b"\x01\x03\x00\x01\x00\x00\x00\x00", end);
    store.close();
}

#[test]
fn a_record_of_any_other_type_is_refused(rt: HostRuntime) {
    let mut store = Store::new(rt.alloc());
    for kind in 0..=u8::MAX {
        if !matches!(kind, 3 | 6 | 7) {
            let header = encode_header(kind, 8);
            refused(&rt, &mut store, &header, RecordFault::WrongType);
        }
    }
    store.close();
}

#[test]
fn a_request_that_was_not_served_is_refused_at_its_status(rt: HostRuntime) {
    let mut store = Store::new(rt.alloc());
    // FCGI_CANT_MPX_CONN and FCGI_OVERLOADED.
    let one = RecordFault::Refused { protocol: 1 };
    let two = RecordFault::Refused { protocol: 2 };
    let ending = b"\x01\x03\x00\x01\x00\x08\x00\x00\x00\x00\x00\x00\x01";
    refused(&rt, &mut store, ending, one);
    let ending = b"\x01\x03\x00\x01\x00\x08\x05\x00\x00\x00\x00\x07\x02";
    refused(&rt, &mut store, ending, two);
    store.close();
}

const CONTENT: [u8; 65_535] = [b'x'; 65_535];

// How many bytes of content are read of a record with so many of them and of padding.
fn read_of(rt: &impl Abort, store: &mut Store, kind: u8, length: u16, padding: u8) -> u64
    requires held { HeldWithin store.old 0 }
    ensures held { HeldWithin store.new 0 }
{
    let mut reader = Reader::new();
    let mut out = Chunks::new();
    let mut header = encode_header(kind, length);
    header[6] = padding;
    let length = usize::from(length);
    let padding = usize::from(padding);
    assert!(rt; fed(rt, store, &mut reader, &mut out, &header) == Ok(ReaderState::Open));
    assert!(rt; fed(rt, store, &mut reader, &mut out, &CONTENT[..length]) == Ok(ReaderState::Open));
    assert!(rt;
        fed(rt, store, &mut reader, &mut out, &CONTENT[..padding]) == Ok(ReaderState::Open)
    );
    // Behind it the next record begins.
    let end = b"\x01\x03\x00\x01\x00\x08\x00\x00\x00\x00\x00\x00\x00\x00\x00\x00";
    assert!(rt; fed(rt, store, &mut reader, &mut out, end) == Ok(ReaderState::Done));
    let count = out.len();
    out.close(store);
    count
}

#[test]
fn a_record_has_up_to_65535_bytes_and_255_of_padding(rt: HostRuntime) {
    let mut store = Store::new(rt.alloc());
    assert!(&rt; read_of(&rt, &mut store, STDOUT, 0, 0) == 0);
    assert!(&rt; read_of(&rt, &mut store, STDOUT, 0, 255) == 0);
    assert!(&rt; read_of(&rt, &mut store, STDOUT, 1, 255) == 1);
    assert!(&rt; read_of(&rt, &mut store, STDOUT, 65_535, 1) == 65_535);
    assert!(&rt; read_of(&rt, &mut store, STDERR, 65_535, 255) == 0);
    store.close();
}

#[test]
fn a_request_begins_with_a_responder(rt: HostRuntime) {
    assert!(&rt;
        encode_begin() == *b"\x01\x01\x00\x01\x00\x08\x00\x00\x00\x01\x00\x00\x00\x00\x00\x00"
    );
    assert!(&rt; encode_header(4, 513) == *b"\x01\x04\x00\x01\x02\x01\x00\x00");
}
