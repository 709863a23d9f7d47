//! Answers of a gateway, by the standard: cut at every place, at the limits, and what is passed on of them.
ghost use Rattle.std.specs.Prelude.{◌≤◌, ◌<◌, length};
ghost use Rattle.buffer_pool.specs.Kept.{HeldWithin};

use chunkqueue::{Chunks, Queue, Store};
use http_reply::{Spelling, reply_head};
use lt_bytes::{NoMemory, Text};
use proxy_message::{AnswerReader, AnswerRefusal, AnswerState};
use std::alloc::Global;
use std::process::Abort;
use std::str;
use std::test::Fail;

type Answer = Result<AnswerState, AnswerRefusal>;

/// Cases, a `~` between them: the name, the method, what is answered to the bytes, what to the end of the link behind them,
/// the body, the bytes.
const ANSWERS: &[u8] = b"\
a length|GET|Done|Done|hi|HTTP/1.1 200 OK\r\nContent-Length: 2\r\n\r\nhi~an end before the length|GET|NeedMore|BadAnswer|123456789|HTTP/1.1 200 OK\r\nContent-Length: 10\r\n\r\n123456789~\
a length of nothing|GET|Done|Done||HTTP/1.1 200 OK\r\nContent-Length: 0\r\n\r\n~bytes behind the end|GET|Done|Done|hi|HTTP/1.1 200 OK\r\nContent-Length: 2\r\n\r\nhi!\r\n~\
up to the end of the link|GET|NeedMore|Done|hi|HTTP/1.0 200 OK\r\n\r\nhi~line feeds alone|GET|NeedMore|Done|hi|HTTP/1.0 200 OK\nX: y\n\nhi~empty lines before a head|GET|NeedMore|Done|hi|\r\n\r\nHTTP/1.1 200 OK\r\n\r\nhi~\
chunks|GET|Done|Done|hi|HTTP/1.1 200 OK\r\nTransfer-Encoding: chunked\r\n\r\n2\r\nhi\r\n0\r\n\r\n~the coding in any case|GET|Done|Done|hi|HTTP/1.1 200 OK\r\ntransfer-encoding: CHUNKED\r\n\r\n2\r\nhi\r\n0\r\n\r\n~\
an end before the last chunk|GET|NeedMore|BadAnswer|hi|HTTP/1.1 200 OK\r\nTransfer-Encoding: chunked\r\n\r\n2\r\nhi\r\n~\
a chunk without a size|GET|BadAnswer|BadAnswer|hi|HTTP/1.1 200 OK\r\nTransfer-Encoding: chunked\r\n\r\n2\r\nhi\r\nx\r\n~\
a coding and a length|GET|Done|Done|hi|HTTP/1.1 200 OK\r\nContent-Length: 9\r\nTransfer-Encoding: chunked\r\n\r\n2\r\nhi\r\n0\r\n\r\n~\
several codings|GET|BadAnswer|BadAnswer||HTTP/1.1 200 OK\r\nTransfer-Encoding: gzip, chunked\r\n\r\n2\r\nhi\r\n0\r\n\r\n~\
several fields of codings|GET|BadAnswer|BadAnswer||HTTP/1.1 200 OK\r\nTransfer-Encoding: gzip\r\nTransfer-Encoding: chunked\r\n\r\n~\
two lengths alike|GET|BadAnswer|BadAnswer||HTTP/1.1 200 OK\r\nContent-Length: 2\r\nContent-Length: 2\r\n\r\nhi~two lengths unlike|GET|BadAnswer|BadAnswer||HTTP/1.1 200 OK\r\nContent-Length: 2\r\nContent-Length: 3\r\n\r\nhi~\
two lengths in one field|GET|BadAnswer|BadAnswer||HTTP/1.1 200 OK\r\nContent-Length: 2, 2\r\n\r\nhi~a length with a sign|GET|BadAnswer|BadAnswer||HTTP/1.1 200 OK\r\nContent-Length: +2\r\n\r\nhi~\
an interim head|GET|Done|Done|hi|HTTP/1.1 103 x\r\n\r\nHTTP/1.1 200 OK\r\nContent-Length: 2\r\n\r\nhi~\
two interim heads|GET|NeedMore|Done|hi|HTTP/1.1 100 Continue\r\n\r\nHTTP/1.1 199 x\r\nContent-Length: 7\r\n\r\nHTTP/1.1 200 OK\r\n\r\nhi~an interim head alone|GET|NeedMore|BadAnswer||HTTP/1.1 100 Continue\r\n\r\n~\
a switch of protocols|GET|BadAnswer|BadAnswer||HTTP/1.1 101 Switching Protocols\r\nUpgrade: x\r\n\r\n~a status below 100|GET|BadAnswer|BadAnswer||HTTP/1.1 099 x\r\n\r\n~\
the greatest status|GET|NeedMore|Done||HTTP/1.1 599 x\r\n\r\n~a status above 599|GET|BadAnswer|BadAnswer||HTTP/1.1 600 x\r\n\r\n~204|GET|Done|Done||HTTP/1.1 204 No Content\r\nContent-Length: 2\r\n\r\nhi~\
304|GET|Done|Done||HTTP/1.1 304 Not Modified\r\nTransfer-Encoding: gzip\r\n\r\nhi~HEAD|HEAD|Done|Done||HTTP/1.1 200 OK\r\nContent-Length: 2\r\nContent-Length: 3\r\n\r\nhi~\
HEAD behind an interim head|HEAD|Done|Done||HTTP/1.1 100 Continue\r\n\r\nHTTP/1.1 200 OK\r\n\r\n~nothing|GET|NeedMore|BadAnswer||~an end inside the head|GET|NeedMore|BadAnswer||HTTP/1.1 200 OK\r\nX: y\r\n~\
the length at the limit|GET|NeedMore|BadAnswer||HTTP/1.1 200 OK\r\nContent-Length: 4194304\r\n\r\n~a length above the limit|GET|TooLarge|TooLarge||HTTP/1.1 200 OK\r\nContent-Length: 4194305\r\n\r\nhi~\
a length past 64 bits|GET|TooLarge|TooLarge||HTTP/1.1 200 OK\r\nContent-Length: 99999999999999999999\r\n\r\nhi~a chunk at the limit|GET|NeedMore|BadAnswer||HTTP/1.1 200 OK\r\nTransfer-Encoding: chunked\r\n\r\n400000\r\n~\
a chunk above the limit|GET|TooLarge|TooLarge||HTTP/1.1 200 OK\r\nTransfer-Encoding: chunked\r\n\r\n400001\r\nhi~\
chunks above the limit together|GET|TooLarge|TooLarge|x|HTTP/1.1 200 OK\r\nTransfer-Encoding: chunked\r\n\r\n1\r\nx\r\n400000\r\nhi~\
a bare carriage return|GET|BadAnswer|BadAnswer||HTTP/1.1 200 OK\r\nX: a\rConnection: close\r\n\r\nhi~a NUL|GET|BadAnswer|BadAnswer||HTTP/1.1 200 OK\r\nX: a\x00b\r\n\r\nhi~\
a blank before the colon|GET|BadAnswer|BadAnswer||HTTP/1.1 200 OK\r\nContent-Length : 2\r\n\r\nhi~a folded line|GET|BadAnswer|BadAnswer||HTTP/1.1 200 OK\r\nX: a\r\n b\r\n\r\nhi~\
another protocol|GET|BadAnswer|BadAnswer||ICY 200 OK\r\n\r\nhi";

fn answer_of(word: &[u8]) -> Answer {
    match word {
        b"Done" => Ok(AnswerState::Done),
        b"NeedMore" => Ok(AnswerState::NeedMore),
        b"TooLarge" => Err(AnswerRefusal::TooLarge),
        _ => Err(AnswerRefusal::BadAnswer),
    }
}

// What is answered to further bytes.
#[tactic(auto, using(lt_http_body::proofs::FeedingLemmas::memory_of_bytes))]
fn fed(
    rt: &impl Abort,
    store: &mut Store,
    reader: &mut AnswerReader,
    body: &mut Chunks,
    bytes: &[u8],
) -> Answer
    requires held { HeldWithin store.old (length body.old.numbers) }
    ensures held { HeldWithin store.new (length body.new.numbers) }
{
    let mut input = Chunks::new();
    assert!(rt; bytes.len() < 100_000 && body.len() < 10_000_000);
    assert!(rt; input.push_bytes(store, bytes).is_ok());
    let answer = reader.feed(store, &mut input, body);
    assert!(rt; input.len() == 0 || answer != Ok(AnswerState::NeedMore));
    input.close(store);
    answer
}

/// An answer, and what it is wanted to be.
#[derive(Drop)]
struct Case<'c> {
    head_only: bool,
    /// What is answered to the bytes, and to the end of the link behind them.
    open: Answer,
    ended: Answer,
    body: &'c [u8],
    bytes: &'c [u8],
}

// The bytes come up to a cut, and then in pieces of a size.
fn cut_at(rt: &impl Abort, alloc: Global, case: &Case<'_>, cut: usize, size: usize)
    requires within { cut ≤ length case.now.bytes.now }
    requires some { 0 < size }
{
    let mut store = Store::new(alloc);
    let mut reader = AnswerReader::new(alloc, case.head_only);
    let mut body = Chunks::new();
    let mut answer = fed(rt, &mut store, &mut reader, &mut body, &case.bytes[..cut]);
    for piece in case.bytes[cut..].chunks(size) {
        answer = fed(rt, &mut store, &mut reader, &mut body, piece);
    }
    assert!(rt; answer == case.open);
    assert!(rt; reader.ended() == case.ended);
    assert!(rt; reader.ended() == case.ended);
    let mut content = [b'-'; 16];
    assert!(rt; body.peek(&mut content) == case.body.len() && content.starts_with(case.body));
    body.close(&mut store);
    store.close();
}

fn however_cut(rt: &impl Abort, alloc: Global, case: &Case<'_>) {
    for cut in 0..=case.bytes.len() {
        cut_at(rt, alloc, case, cut, 1);
        cut_at(rt, alloc, case, cut, 1_000);
    }
}

#[test]
fn an_answer_is_the_same_however_it_is_cut(rt: HostRuntime) {
    for row in ANSWERS.split(|byte| *byte == b'~') {
        let mut parts = row.split(|byte| *byte == b'|');
        let _name = parts.next();
        let case = Case {
            head_only: parts.next() == Some(b"HEAD".as_slice()),
            open: answer_of(parts.next().unwrap_or(&[])),
            ended: answer_of(parts.next().unwrap_or(&[])),
            body: parts.next().unwrap_or(&[]),
            bytes: parts.next().unwrap_or(&[]),
        };
        however_cut(&rt, rt.alloc(), &case);
    }
}

// What is answered to such letters, so many times, between two texts, and then to the end of the link.
fn surrounded(
    rt: &impl Abort,
    alloc: Global,
    front: &[u8],
    letters: &[u8],
    times: usize,
    back: &[u8],
) -> (Answer, Answer) {
    let mut store = Store::new(alloc);
    let mut reader = AnswerReader::new(alloc, false);
    let mut body = Chunks::new();
    let _ = fed(rt, &mut store, &mut reader, &mut body, front);
    for _ in 0..times {
        let _ = fed(rt, &mut store, &mut reader, &mut body, letters);
    }
    let open = fed(rt, &mut store, &mut reader, &mut body, back);
    body.close(&mut store);
    store.close();
    (open, reader.ended())
}

const LETTERS: [u8; 8_192] = [b'x'; 8_192];

const TO_END: &[u8] = b"HTTP/1.1 200 OK\r\n\r\n";

const CHUNKED: &[u8] = b"HTTP/1.1 200 OK\r\nTransfer-Encoding: chunked\r\n\r\n400000\r\n";

#[test]
fn a_body_has_4194304_bytes_at_most(rt: HostRuntime) {
    let alloc = rt.alloc();
    let done = Ok(AnswerState::Done);
    let large = (Err(AnswerRefusal::TooLarge), Err(AnswerRefusal::TooLarge));
    let at = surrounded(&rt, alloc, TO_END, &LETTERS, 512, b"");
    assert!(&rt; at == (Ok(AnswerState::NeedMore), done));
    assert!(&rt; surrounded(&rt, alloc, TO_END, &LETTERS, 512, b"x") == large);
    assert!(&rt; surrounded(&rt, alloc, CHUNKED, &LETTERS, 512, b"\r\n0\r\n\r\n") == (done, done));
    assert!(&rt; surrounded(&rt, alloc, CHUNKED, &LETTERS, 512, b"\r\n1\r\n") == large);
}

#[test]
fn each_head_has_8192_bytes_at_most(rt: HostRuntime) {
    let (head, rest) = (b"HTTP/1.1 100 x\r\nX:", b"\r\n\r\nHTTP/1.1 204 x\r\n\r\n");
    let (answer, _) = surrounded(&rt, rt.alloc(), head, &LETTERS[..8_170], 1, rest);
    assert!(&rt; answer == Ok(AnswerState::Done));
    let (answer, _) = surrounded(&rt, rt.alloc(), head, &LETTERS[..8_171], 1, rest);
    assert!(&rt; answer == Err(AnswerRefusal::BadAnswer));
}

/// Cases, a `~` between them: the name, the reply that is made of the head of the answer, the answer.
const PASSED: &[u8] = b"\
each value on a line|HTTP/1.1 404 Not Found\r\nset-cookie: a=1\r\nset-cookie: b=2\r\nx: y\r\nServer: t\r\n\r\n|HTTP/1.1 404 No\r\nSet-Cookie: a=1\r\nX:  y \r\nset-cookie: b=2\r\n\r\n~\
the connection's own fields|HTTP/1.1 200 OK\r\nx: y\r\nServer: t\r\n\r\n|HTTP/1.1 200 OK\r\nConnection: x\r\nKeep-Alive: 5\r\nTransfer-Encoding: chunked\r\nX: y\r\nTrailer: a\r\nUpgrade: b\r\nStatus: 500\r\nDate: now\r\n\r\n~\
a length in another spelling|HTTP/1.1 200 OK\r\nx: y\r\nContent-Length: 7\r\nServer: t\r\n\r\n|HTTP/1.1 200 OK\r\nContent-Length: 007\r\nX: y\r\n\r\n~\
an interim head|HTTP/1.1 200 OK\r\nx: y\r\nServer: t\r\n\r\n|HTTP/1.1 103 x\r\nLink: a\r\n\r\nHTTP/1.1 200 OK\r\nX: y\r\n\r\n";

/// A reply with the head of an answer.
fn reply_to(rt: &impl Abort, alloc: Global, bytes: &[u8]) -> Result<Text, NoMemory> {
    let mut store = Store::new(alloc);
    let mut reader = AnswerReader::new(alloc, false);
    let mut body = Chunks::new();
    let _ = fed(rt, &mut store, &mut reader, &mut body, bytes);
    body.close(&mut store);
    store.close();
    let Some(head) = reader.head() else {
        return Ok(Text::new(alloc));
    };
    let spelling = Spelling {
        minor: 1,
        status: head.status,
        length: head.stated,
        last: false,
        keep: false,
        tag: b"t",
    };
    reply_head(alloc, &spelling, &head.fields)
}

#[test]
fn no_field_of_the_connection_is_passed_on(rt: HostRuntime) -> Result<(), Fail> {
    for row in PASSED.split(|byte| *byte == b'~') {
        let mut parts = row.split(|byte| *byte == b'|');
        let name = str::from_utf8(parts.next().unwrap_or(&[]))?;
        let wanted = parts.next().unwrap_or(&[]);
        let text = reply_to(&rt, rt.alloc(), parts.next().unwrap_or(&[]))?;
        assert_eq!(rt; text.bytes(), wanted, "{name}");
    }
    Ok(())
}
