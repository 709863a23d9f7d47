//! Heads of answers, by the standard.
use crate::{CgiHead, CgiRefusal, read_cgi_head};
use http_head::HEAD_LIMIT;
use http_reply::{Spelling, reply_head};
use lt_bytes::{NoMemory, Text};
use std::alloc::Global;
use std::str;
use std::test::Fail;

/// Cases, a `~` between them: the name, the reply that is made of the head, the head, and what
/// follows it.
const READ: &[u8] = b"\
a document|HTTP/1.1 200 OK\r\ncontent-type: text/html\r\nServer: t\r\n\r\n|Content-Type: text/html\r\n\r\n|<p>~\
a document with a status|HTTP/1.1 404 Not Found\r\ncontent-type: text/plain\r\nServer: t\r\n\r\n|Status: 404 Not here\nContent-Type: text/plain\n\n|x~\
a local redirect|HTTP/1.1 302 Found\r\nlocation: /a/b?c\r\nServer: t\r\n\r\n|Location: /a/b?c\n\n|~\
a client redirect|HTTP/1.1 302 Found\r\nlocation: http://h/x\r\nServer: t\r\n\r\n|Location: http://h/x\r\n\r\n|~\
a client redirect with document|HTTP/1.1 301 Moved Permanently\r\nlocation: http://h/x\r\ncontent-type: text/html\r\nServer: t\r\n\r\n|Status: 301 Moved\r\nLocation: http://h/x\r\nContent-Type: text/html\r\n\r\n|<p>~\
no field|HTTP/1.1 200 OK\r\nServer: t\r\n\r\n|\r\n|x: y\n\n~several Status|HTTP/1.1 201 Created\r\nServer: t\r\n\r\n|Status: 201\nStatus: 500 no\n\n|~\
more than three digits|HTTP/1.1 200 OK\r\nServer: t\r\n\r\n|Status: 2009\n\n|~\
the least and the greatest status|HTTP/1.1 599 \r\nx: 200\r\nServer: t\r\n\r\n|STATUS: 599 x\nX: 200\n\n|~\
a length|HTTP/1.1 200 OK\r\nContent-Length: 7\r\nServer: t\r\n\r\n|Content-Length: 007\n\n|~\
a length past 64 bits|HTTP/1.1 200 OK\r\nContent-Length: 18446744073709551615\r\nServer: t\r\n\r\n|content-length: 99999999999999999999\n\n|~\
two lengths|HTTP/1.1 200 OK\r\nServer: t\r\n\r\n|Content-Length: 7\nContent-Length: 7\n\n|~\
no length of digits|HTTP/1.1 200 OK\r\nServer: t\r\n\r\n|Content-Length: +7\n\n|~\
values of a name together|HTTP/1.1 200 OK\r\nset-cookie: a=1\r\nset-cookie: b=2\r\nx: y\r\nServer: t\r\n\r\n|Set-Cookie: a=1\nX:  y \nset-cookie: b=2\n\n|~\
Connection is dropped|HTTP/1.1 200 OK\r\nx: y\r\nServer: t\r\n\r\n|Connection: close\r\nX: y\r\n\r\n|~\
Keep-Alive is dropped|HTTP/1.1 200 OK\r\nx: y\r\nServer: t\r\n\r\n|Keep-Alive: 5\r\nX: y\r\n\r\n|~\
Transfer-Encoding is dropped|HTTP/1.1 200 OK\r\nx: y\r\nServer: t\r\n\r\n|Transfer-Encoding: chunked\r\nX: y\r\n\r\n|~\
Content-Length is dropped|HTTP/1.1 200 OK\r\nx: y\r\nServer: t\r\n\r\n|Content-Length: x\r\nX: y\r\n\r\n|~\
Upgrade is dropped|HTTP/1.1 200 OK\r\nx: y\r\nServer: t\r\n\r\n|Upgrade: h2c\r\nX: y\r\n\r\n|~\
Trailer is dropped|HTTP/1.1 200 OK\r\nx: y\r\nServer: t\r\n\r\n|Trailer: X\r\nX: y\r\n\r\n|~\
Date is dropped|HTTP/1.1 200 OK\r\nx: y\r\nServer: t\r\n\r\n|Date: now\r\nX: y\r\n\r\n|~\
a line feed begins a field|HTTP/1.1 200 OK\r\nx: y\r\nServer: t\r\n\r\n|X: y\nConnection: close\n\n|";

/// Cases, a `~` between them: the name, the refusal, the bytes.
const REFUSED: &[u8] = b"\
a bare carriage return|BadCgiHead|X: a\rConnection: close\r\n\r\n~a NUL|BadCgiHead|X: a\x00b\n\n~no colon|BadCgiHead|nonsense\n\n~\
a blank before the colon|BadCgiHead|X : a\n\n~a folded line|BadCgiHead|X: a\n b\n\n~a start line|BadCgiHead|HTTP/1.1 200 OK\r\nX: a\r\n\r\n~\
a status below 200|BadCgiHead|Status: 199 x\n\n~a status above 599|BadCgiHead|Status: 600\n\n~two digits|BadCgiHead|Status: 20\n\n~no digits|BadCgiHead|Status: OK\n\n~\
an empty status|BadCgiHead|Status:\n\n~the first status|BadCgiHead|Status: x\nStatus: 200\n\n~nothing yet|NeedMore|~a line|NeedMore|X: a\r\n~\
half a line end|NeedMore|X: a\r\n\r~a bad line that has not ended|NeedMore|nonsense\n";

/// The reply that is made of a head.
fn reply(alloc: Global, head: &CgiHead) -> Result<Text, NoMemory> {
    let spelling = Spelling {
        minor: 1,
        status: head.status,
        length: head.stated,
        last: false,
        keep: false,
        tag: b"t",
    };
    reply_head(alloc, &spelling, &head.fields)
}

#[test]
fn a_head_gives_status_fields_and_length(rt: HostRuntime) -> Result<(), Fail> {
    for row in READ.split(|byte| *byte == b'~') {
        let mut parts = row.split(|byte| *byte == b'|');
        let name = str::from_utf8(parts.next().unwrap_or(&[]))?;
        let wanted = parts.next().unwrap_or(&[]);
        let mut bytes = Text::from_bytes(rt.alloc(), parts.next().unwrap_or(&[]))?;
        let length = bytes.len();
        bytes.push_all(parts.next().unwrap_or(&[]))?;
        match read_cgi_head(rt.alloc(), bytes.bytes()) {
            Ok(head) => {
                assert_eq!(rt; head.length, length, "{name}");
                let text = reply(rt.alloc(), &head)?;
                assert_eq!(rt; text.bytes(), wanted, "{name}");
            }
            Err(_) => assert!(rt; false, "{name} is refused"),
        }
    }
    Ok(())
}

#[test]
fn a_head_that_is_not_read_is_refused(rt: HostRuntime) -> Result<(), Fail> {
    for row in REFUSED.split(|byte| *byte == b'~') {
        let mut parts = row.split(|byte| *byte == b'|');
        let name = str::from_utf8(parts.next().unwrap_or(&[]))?;
        let wanted = parts.next().unwrap_or(&[]);
        match read_cgi_head(rt.alloc(), parts.next().unwrap_or(&[])) {
            Ok(_) => assert!(rt; false, "{name} is read"),
            Err(refusal) => {
                let found = format!(in rt.alloc(); "{refusal:?}")?;
                assert_eq!(rt; found.as_bytes(), wanted, "{name}");
            }
        }
    }
    Ok(())
}

/// What is answered to so many fields of so many letters, and an end.
fn answered(
    alloc: Global,
    letters: usize,
    fields: usize,
    end: &[u8],
) -> Result<Option<CgiRefusal>, NoMemory> {
    let mut text = Text::new(alloc);
    for _ in 0..fields {
        text.push_all(b"X:")?;
        for _ in 0..letters {
            text.push(b'a')?;
        }
        text.push_all(b"\r\n")?;
    }
    text.push_all(end)?;
    Ok(read_cgi_head(alloc, text.bytes()).err())
}

#[test]
fn a_head_has_8192_bytes_and_64_lines_at_most(rt: HostRuntime) -> Result<(), Fail> {
    let alloc = rt.alloc();
    let more = Some(CgiRefusal::NeedMore);
    let long = Some(CgiRefusal::CgiHeadTooLong);
    let bad = Some(CgiRefusal::BadCgiHead);
    assert_eq!(rt; answered(alloc, HEAD_LIMIT - 6, 1, b"\r\n")?, None);
    assert_eq!(rt; answered(alloc, HEAD_LIMIT - 5, 1, b"\r\n")?, long);
    assert_eq!(rt; answered(alloc, HEAD_LIMIT - 5, 1, b"")?, more);
    assert_eq!(rt; answered(alloc, HEAD_LIMIT - 4, 1, b"")?, long);
    assert_eq!(rt; answered(alloc, 1, 64, b"\n")?, None);
    assert_eq!(rt; answered(alloc, 1, 65, b"\n")?, bad);
    Ok(())
}
