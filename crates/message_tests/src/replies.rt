//! Heads and error replies, spelled as the standard has them.
ghost use Rattle.std.specs.Prelude.{IsTrue};

use http_reply::{Fields, Spelling, error_reply, laws, phrase, reply_head};
use lt_bytes::NoMemory;
use std::alloc::Global;
use std::test::Fail;

fn fields(alloc: Global, lines: &[(&[u8], &[u8])]) -> Result<Fields, NoMemory> {
    let mut fields = Fields::new(alloc);
    for (name, value) in lines {
        fields.add(name, value)?;
    }
    Ok(fields)
}

/// How the connection goes on after the reply.
#[derive(Clone, Copy)]
enum After {
    Silent,
    Close,
    Keep,
}

fn spelling(status: u16, length: Option<u64>, after: After) -> Spelling<'static>
    ensures { ¬ (IsTrue result.last × IsTrue result.keep) }
{
    let silent = Spelling {
        minor: 1,
        status,
        length,
        last: false,
        keep: false,
        tag: b"lighttpd",
    };
    match after {
        After::Silent => silent,
        After::Close => Spelling {
            last: true,
            ..silent
        },
        After::Keep => Spelling {
            minor: 0,
            keep: true,
            ..silent
        },
    }
}

#[test]
fn heads_are_spelled_line_by_line(rt: HostRuntime) -> Result<(), Fail> {
    let date: (&[u8], &[u8]) = (b"Last-Modified", b"Thu, 01 Jan 1970 00:00:00 GMT");
    let bytes: (&[u8], &[u8]) = (b"Content-Type", b"application/octet-stream");
    let server: (&[u8], &[u8]) = (b"sErVeR", b"other");
    for (status, length, after, line, want) in [
        (
            200,
            Some(5),
            After::Close,
            bytes,
            b"HTTP/1.1 200 OK\r\nContent-Type: application/octet-stream\r\nContent-Length: 5\r\nConnection: close\r\nServer: lighttpd\r\n\r\n".as_slice(),
        ),
        (
            304,
            Some(5),
            After::Silent,
            date,
            b"HTTP/1.1 304 Not Modified\r\nLast-Modified: Thu, 01 Jan 1970 00:00:00 GMT\r\nServer: lighttpd\r\n\r\n",
        ),
        (
            204,
            Some(0),
            After::Keep,
            server,
            b"HTTP/1.0 204 No Content\r\nsErVeR: other\r\nConnection: keep-alive\r\n\r\n",
        ),
        (
            299,
            None,
            After::Silent,
            bytes,
            b"HTTP/1.1 299 \r\nContent-Type: application/octet-stream\r\nServer: lighttpd\r\n\r\n",
        ),
    ] {
        let given = fields(rt.alloc(), &[line])?;
        let head = reply_head(rt.alloc(), &spelling(status, length, after), &given)?;
        assert_eq!(rt; head.bytes(), want);
    }
    Ok(())
}

#[test]
fn error_replies_carry_their_own_body(rt: HostRuntime) -> Result<(), Fail> {
    let none: &[(&[u8], &[u8])] = &[];
    let place: &[(&[u8], &[u8])] = &[(b"Location", b"/d/")];
    let allow: &[(&[u8], &[u8])] = &[(b"Allow", b"GET, HEAD")];
    for (status, length, after, lines, head_only, want) in [
        (
            404,
            None,
            After::Close,
            none,
            false,
            b"HTTP/1.1 404 Not Found\r\nContent-Type: text/plain\r\nContent-Length: 14\r\nConnection: close\r\nServer: lighttpd\r\n\r\n404 Not Found\n".as_slice(),
        ),
        (
            501,
            Some(7),
            After::Close,
            none,
            false,
            b"HTTP/1.1 501 Not Implemented\r\nContent-Type: text/plain\r\nContent-Length: 20\r\nConnection: close\r\nServer: lighttpd\r\n\r\n501 Not Implemented\n",
        ),
        (
            301,
            None,
            After::Silent,
            place,
            false,
            b"HTTP/1.1 301 Moved Permanently\r\nLocation: /d/\r\nContent-Type: text/plain\r\nContent-Length: 22\r\nServer: lighttpd\r\n\r\n301 Moved Permanently\n",
        ),
        (
            405,
            None,
            After::Keep,
            allow,
            true,
            b"HTTP/1.0 405 Method Not Allowed\r\nAllow: GET, HEAD\r\nContent-Type: text/plain\r\nContent-Length: 23\r\nConnection: keep-alive\r\nServer: lighttpd\r\n\r\n",
        ),
        (
            304,
            None,
            After::Silent,
            none,
            false,
            b"HTTP/1.1 304 Not Modified\r\nContent-Type: text/plain\r\nServer: lighttpd\r\n\r\n",
        ),
    ] {
        let given = fields(rt.alloc(), lines)?;
        let reply = error_reply(
            rt.alloc(),
            &spelling(status, length, after),
            &given,
            head_only,
        )?;
        assert_eq!(rt; reply.bytes(), want);
    }
    Ok(())
}

#[test]
fn phrases_stand_beside_their_statuses(rt: HostRuntime) {
    for (status, want) in [
        (100, b"Continue".as_slice()),
        (206, b"Partial Content"),
        (413, b"Content Too Large"),
        (431, b"Request Header Fields Too Large"),
        (505, b"HTTP Version Not Supported"),
        (299, b""),
        (999, b""),
    ] {
        assert_eq!(rt; phrase(status), want);
    }
    laws::reply_heads_are_read();
    laws::error_replies_are_read();
}
