//! What a request is answered for a file, by RFC 9110, sections 13, 14 and 15.
use crate::ranges::range;
use conf_value::{Pair, Value};
use file_reply::{Answer, Content, answer, moved, plain, refusal};
use http_head::{HeadRefusal, Request, read_head};
use http_reply::{Spelling, error_reply, reply_head};
use lt_bytes::{NoMemory, Text};
use static_files::Range;
use std::alloc::Global;
use std::test::Fail;

/// When the file was changed last: Sun, 06 Nov 1994 08:49:37 GMT, the standard's example.
const TIME: u64 = 784_111_777;

/// The method and the field lines of a request, `~` behind each, and for files of 0, 1 and 300 bytes the status, a `:`,
/// and the first byte that is sent and how many, or `-` where the status is said in words.
const ANSWERS: &[u8] = b"\
GET||200:0+0|200:0+1|200:0+300
HEAD|Range: bytes=0-0~|200:0+0|200:0+1|200:0+300
POST|Range: bytes=0-0~|200:0+0|200:0+1|200:0+300
GET|Range: bytes=0-0~|416:-|206:0+1|206:0+1
GET|range:\tbytes=299-300 ~|416:-|416:-|206:299+1
GET|Range: bytes=300-~|416:-|416:-|416:-
GET|Range: bytes=-0~|416:-|416:-|416:-
GET|Range: bytes=-1~|200:0+0|206:0+1|206:299+1
GET|Range: bytes=5-2~|200:0+0|200:0+1|200:0+300
GET|Range: bytes=0-~|416:-|206:0+1|206:0+300
GET|Range: bytes=0-0~Range: bytes=0-0~|200:0+0|200:0+1|200:0+300
GET|Range: bytes=0-0,-1~|200:0+0|200:0+1|200:0+300
GET|Range: lines=0-0~|200:0+0|200:0+1|200:0+300
GET|If-Modified-Since: Sun, 06 Nov 1994 08:49:36 GMT~|200:0+0|200:0+1|200:0+300
GET|If-Modified-Since: Sun, 06 Nov 1994 08:49:37 GMT~|304:0+0|304:0+0|304:0+0
HEAD|if-modified-since: Sunday, 06-Nov-94 08:49:37 GMT~|304:0+0|304:0+0|304:0+0
GET|If-Modified-Since: Sun Nov  6 08:49:38 1994~Range: bytes=0-0~|304:0+0|304:0+0|304:0+0
GET|If-Modified-Since: Sun, 06 Nov 1994 08:49:36 GMT~Range: bytes=0-0~|416:-|206:0+1|206:0+1
GET|If-Modified-Since: x~If-Modified-Since: Sun, 06 Nov 1994 08:49:37 GMT~|200:0+0|200:0+1|200:0+300
GET|If-Modified-Since: Sun, 06 Nov 1994 08:49:37 GMT~If-Modified-Since: x~|304:0+0|304:0+0|304:0+0";

fn asked(alloc: Global, method: &[u8], lines: &[u8]) -> Result<Request, HeadRefusal> {
    let mut head = Text::from_bytes(alloc, method)?;
    head.push_all(b" /a HTTP/1.1\r\nHost: h\r\n")?;
    for byte in lines {
        if *byte == b'~' {
            head.push_all(b"\r\n")?;
        } else {
            head.push(*byte)?;
        }
    }
    head.push_all(b"\r\n")?;
    read_head(alloc, head.bytes())
}

/// A status, a `:`, and what is sent.
fn is_told(answer: &Answer, told: &[u8]) -> bool {
    let mut words = told.split(|byte| *byte == b':');
    let status = crate::ranges::number(words.next().unwrap_or(b"".as_slice()));
    let content = match range(words.next().unwrap_or(b"".as_slice())) {
        Range::Part { start, len } => Content::Part { start, len },
        Range::Whole | Range::Unsatisfiable => Content::Phrase,
    };
    u64::from(answer.status) == status && answer.content == content
}

#[test]
fn a_request_is_answered_by_its_conditions(rt: HostRuntime) -> Result<(), Fail> {
    for row in ANSWERS.split(|byte| *byte == b'\n') {
        let mut parts = row.split(|byte| *byte == b'|');
        let method = parts.next().unwrap_or(b"".as_slice());
        let request = asked(rt.alloc(), method, parts.next().unwrap_or(b"".as_slice()))?;
        for (size, told) in [0u64, 1, 300].iter().zip(parts) {
            let answered = answer(rt.alloc(), b"text/plain", &request, *size, TIME)?;
            assert!(rt; is_told(&answered, told), "{row:?} {size}");
        }
    }
    Ok(())
}

fn spelled(alloc: Global, answer: &Answer) -> Result<Text, NoMemory> {
    let length = match answer.content {
        Content::Phrase => None,
        Content::Part { start: _, len } => Some(len),
    };
    let spelling = Spelling {
        minor: 1,
        status: answer.status,
        length,
        last: false,
        keep: false,
        tag: b"t",
    };
    match answer.content {
        Content::Phrase => error_reply(alloc, &spelling, &answer.fields, false),
        Content::Part { start: _, len: _ } => reply_head(alloc, &spelling, &answer.fields),
    }
}

/// The request's field lines, the file's time, and the reply of a file of 300 bytes.
fn is_spelled(alloc: Global, lines: &[u8], time: u64, reply: &[u8]) -> Result<bool, HeadRefusal> {
    let request = asked(alloc, b"GET", lines)?;
    let answered = answer(alloc, b"text/plain", &request, 300, time)?;
    Ok(spelled(alloc, &answered)?.bytes() == reply)
}

#[test]
fn an_answer_has_its_fields(rt: HostRuntime) -> Result<(), Fail> {
    let alloc = rt.alloc();
    assert!(rt;
        is_spelled(
            alloc,
            b"",
            TIME,
            b"HTTP/1.1 200 OK\r\nContent-Type: text/plain\r\nAccept-Ranges: bytes\r\nLast-Modified: Sun, 06 Nov 1994 08:49:37 GMT\r\nContent-Length: 300\r\nServer: t\r\n\r\n"
        )?
    );
    assert!(rt;
        is_spelled(
            alloc,
            b"Range: bytes=1-2~",
            TIME,
            b"HTTP/1.1 206 Partial Content\r\nContent-Type: text/plain\r\nAccept-Ranges: bytes\r\nLast-Modified: Sun, 06 Nov 1994 08:49:37 GMT\r\nContent-Range: bytes 1-2/300\r\nContent-Length: 2\r\nServer: t\r\n\r\n"
        )?
    );
    assert!(rt;
        is_spelled(
            alloc,
            b"If-Modified-Since: Sun, 06 Nov 1994 08:49:37 GMT~",
            TIME,
            b"HTTP/1.1 304 Not Modified\r\nLast-Modified: Sun, 06 Nov 1994 08:49:37 GMT\r\nServer: t\r\n\r\n"
        )?
    );
    assert!(rt;
        is_spelled(
            alloc,
            b"Range: bytes=300-~",
            TIME,
            b"HTTP/1.1 416 Range Not Satisfiable\r\nContent-Range: bytes */300\r\nContent-Type: text/plain\r\nContent-Length: 26\r\nServer: t\r\n\r\n416 Range Not Satisfiable\n"
        )?
    );
    assert!(rt;
        is_spelled(
            alloc,
            b"",
            253_402_300_800,
            b"HTTP/1.1 200 OK\r\nContent-Type: text/plain\r\nAccept-Ranges: bytes\r\nContent-Length: 300\r\nServer: t\r\n\r\n"
        )?
    );
    Ok(())
}

fn is_refused(alloc: Global, path: &[u8], method: &[u8], reply: &[u8]) -> Result<bool, NoMemory> {
    let extensions = [Pair {
        key: None,
        value: Value::Text(Text::from_bytes(alloc, b".php")?),
    }];
    match refusal(alloc, &extensions, path, method)? {
        Some(refused) => Ok(spelled(alloc, &refused)?.bytes() == reply),
        None => Ok(reply.is_empty()),
    }
}

#[test]
fn a_file_that_is_not_opened_is_refused(rt: HostRuntime) -> Result<(), Fail> {
    let alloc = rt.alloc();
    assert!(rt;
        is_refused(
            alloc,
            b"/a.php",
            b"POST",
            b"HTTP/1.1 403 Forbidden\r\nContent-Type: text/plain\r\nContent-Length: 14\r\nServer: t\r\n\r\n403 Forbidden\n"
        )?
    );
    assert!(rt;
        is_refused(
            alloc,
            b"/a.php5",
            b"POST",
            b"HTTP/1.1 405 Method Not Allowed\r\nAllow: GET, HEAD\r\nContent-Type: text/plain\r\nContent-Length: 23\r\nServer: t\r\n\r\n405 Method Not Allowed\n"
        )?
    );
    assert!(rt; is_refused(alloc, b"/a", b"GET", b"")? && is_refused(alloc, b"/a", b"HEAD", b"")?);
    let there = spelled(alloc, &moved(alloc, b"/d e", b"q=1")?)?;
    assert_eq!(rt;
        there.bytes(),
        b"HTTP/1.1 301 Moved Permanently\r\nLocation: /d%20e/?q=1\r\nContent-Type: text/plain\r\nContent-Length: 22\r\nServer: t\r\n\r\n301 Moved Permanently\n".as_slice()
    );
    let missing = spelled(alloc, &plain(alloc, 404))?;
    assert_eq!(rt;
        missing.bytes(),
        b"HTTP/1.1 404 Not Found\r\nContent-Type: text/plain\r\nContent-Length: 14\r\nServer: t\r\n\r\n404 Not Found\n".as_slice()
    );
    Ok(())
}
