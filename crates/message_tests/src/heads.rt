//! Heads, with answers from the standard.
use http_head::{Framing, HEAD_LIMIT, HeadEnd, HeadRefusal, Request, head_end, read_head};
use lt_bytes::{NoMemory, Text, decimal};
use std::alloc::Global;
use std::str;
use std::test::Fail;

/// Cases, a `~` between them: the name, what the head says, the head. What it says is method, minor
/// version, target, path, Host value, host, framing, persistence, and whether the client waits for
/// 100; a minus sign stands for nothing.
const READ: &[u8] = b"\
a browser|GET 1 /index.html /index.html www.example.org www.example.org none keep -|GET /index.html HTTP/1.1\r\nHost: www.example.org\r\nUser-Agent: Mozilla/5.0 (X11; Linux x86_64)\r\nAccept: text/html,*/*;q=0.8\r\nAccept-Language: en\r\nAccept-Encoding: gzip, deflate\r\nConnection: keep-alive\r\nUpgrade-Insecure-Requests: 1\r\nSec-Fetch-Dest: document\r\nSec-Fetch-Mode: navigate\r\nSec-Fetch-Site: none\r\nCache-Control: max-age=0\r\nCookie: a=1; b=2\r\n\r\n~\
bare line feeds|GET 1 /a /a h h none keep -|GET /a HTTP/1.1\nHost: h\n\n~\
leading empty lines|GET 1 /a /a h h none keep -|\r\n\n\r\nGET /a HTTP/1.1\r\nHost: h\r\n\r\n~\
an unknown method|BREW 1 /a /a h h none keep -|BREW /a HTTP/1.1\r\nHost: h\r\n\r\n~\
blanks around a value|GET 1 / / h h none keep -|GET / HTTP/1.1\r\nHost:\t h \t\r\nEmpty:\r\n\r\n~\
obs-text|GET 1 /\xc3\xa9 /\xc3\xa9 h h none keep -|GET /\xc3\xa9 HTTP/1.1\r\nHost: h\r\nX: \x80\xff\r\n\r\n~\
HTTP/1.0 without Host|GET 0 / / - - none close -|GET / HTTP/1.0\r\n\r\n~\
HTTP/1.0 that persists|GET 0 / / h h none keep -|GET / HTTP/1.0\r\nHost: h\r\nConnection: x , Keep-Alive\r\n\r\n~\
an empty Host|GET 1 / / - - none keep -|GET / HTTP/1.1\r\nHost:\r\n\r\n~\
a port|GET 1 / / EXAMPLE.org:8080 example.org none keep -|GET / HTTP/1.1\r\nHost: EXAMPLE.org:8080\r\n\r\n~\
an empty port|GET 1 / / h: h none keep -|GET / HTTP/1.1\r\nHost: h:\r\n\r\n~\
a port behind brackets|GET 1 / / [::1]:80 [::1] none keep -|GET / HTTP/1.1\r\nHost: [::1]:80\r\n\r\n~\
no port|GET 1 / / h:8a h:8a none keep -|GET / HTTP/1.1\r\nHost: h:8a\r\n\r\n~\
digits alone|GET 1 / / 80 80 none keep -|GET / HTTP/1.1\r\nHost: 80\r\n\r\n~\
absolute form|GET 1 HTTP://Other:81/a/..?q / Other:81 other none keep -|GET HTTP://Other:81/a/..?q HTTP/1.1\r\nHost: h\r\n\r\n~\
absolute form without authority|GET 1 http:///p /p - - none keep -|GET http:///p HTTP/1.1\r\nHost: h\r\n\r\n~\
close in any case|GET 1 / / h h none close -|GET / HTTP/1.1\r\nHost: h\r\nConnection: x,, CLOSE\r\n\r\n~\
close in a second field|GET 1 / / h h none close -|GET / HTTP/1.1\r\nHost: h\r\nConnection: keep-alive\r\nCONNECTION: close\r\n\r\n~\
another option|GET 1 / / h h none keep -|GET / HTTP/1.1\r\nHost: h\r\nConnection: closed\r\n\r\n~\
a length|PUT 1 / / h h 7 keep -|PUT / HTTP/1.1\r\nHost: h\r\nContent-Length: 007\r\n\r\n~\
the greatest length|PUT 1 / / h h 18446744073709551615 keep -|PUT / HTTP/1.1\r\nHost: h\r\nContent-Length: 18446744073709551615\r\n\r\n~\
a length past 64 bits|PUT 1 / / h h 18446744073709551615 keep -|PUT / HTTP/1.1\r\nHost: h\r\nContent-Length: 99999999999999999999\r\n\r\n~\
chunked in any case|PUT 1 / / h h chunked keep -|PUT / HTTP/1.1\r\nHost: h\r\ntransfer-encoding: cHuNkEd\r\n\r\n~\
an expectation|PUT 1 / / h h 1 keep continue|PUT / HTTP/1.1\r\nHost: h\r\nExpect: x\r\nExpect: 100-Continue\r\nContent-Length: 1\r\n\r\n~\
an expectation in HTTP/1.0|PUT 0 / / h h 1 close -|PUT / HTTP/1.0\r\nHost: h\r\nExpect: 100-continue\r\nContent-Length: 1\r\n\r\n~\
another expectation|PUT 1 / / h h none keep -|PUT / HTTP/1.1\r\nHost: h\r\nExpect: 100-continued\r\n\r\n";

/// Cases, a `~` between them: the name, the refusal, the head.
const REFUSED: &[u8] = b"\
smuggling by CL.TE|BadHead|POST / HTTP/1.1\r\nHost: h\r\nContent-Length: 6\r\nTransfer-Encoding: chunked\r\n\r\n~\
smuggling by TE.CL|BadHead|POST / HTTP/1.1\r\nHost: h\r\nTransfer-Encoding: chunked\r\nContent-Length: 6\r\n\r\n~\
smuggling by TE.TE|NotImplemented|POST / HTTP/1.1\r\nHost: h\r\nTransfer-Encoding: chunked\r\nTransfer-Encoding: identity\r\n\r\n~\
smuggling by two Content-Lengths|BadHead|POST / HTTP/1.1\r\nHost: h\r\nContent-Length: 6\r\nContent-Length: 0\r\n\r\n~\
smuggling by a list of lengths|BadHead|POST / HTTP/1.1\r\nHost: h\r\nContent-Length: 6, 6\r\n\r\n~\
smuggling by obs-fold|BadHead|POST / HTTP/1.1\r\nHost: h\r\nX: a\r\n Transfer-Encoding: chunked\r\n\r\n~\
smuggling by a space before the colon|BadHead|POST / HTTP/1.1\r\nHost: h\r\nTransfer-Encoding : chunked\r\n\r\n~\
smuggling by a bare CR in a value|BadHead|POST / HTTP/1.1\r\nHost: h\r\nX: a\rContent-Length: 6\r\n\r\n~\
smuggling by a bare CR as a line end|BadHead|POST / HTTP/1.1\rHost: h\r\n\r\n~\
smuggling by NUL in a value|BadHead|POST / HTTP/1.1\r\nHost: h\r\nX: a\0\r\n\r\n~\
smuggling by NUL in a name|BadHead|POST / HTTP/1.1\r\nHost: h\r\nContent-Length\0: 6\r\n\r\n~\
smuggling by a vertical tab in a name|BadHead|POST / HTTP/1.1\r\nHost: h\r\nTransfer-Encoding\x0b: chunked\r\n\r\n~\
a sign|BadHead|POST / HTTP/1.1\r\nHost: h\r\nContent-Length: +6\r\n\r\n~\
a hexadecimal length|BadHead|POST / HTTP/1.1\r\nHost: h\r\nContent-Length: 0x6\r\n\r\n~\
an empty length|BadHead|POST / HTTP/1.1\r\nHost: h\r\nContent-Length:\r\n\r\n~\
an unknown coding|NotImplemented|POST / HTTP/1.1\r\nHost: h\r\nTransfer-Encoding: gzip\r\n\r\n~\
a list of codings|NotImplemented|POST / HTTP/1.1\r\nHost: h\r\nTransfer-Encoding: gzip, chunked\r\n\r\n~\
an empty coding|NotImplemented|POST / HTTP/1.1\r\nHost: h\r\nTransfer-Encoding:\r\n\r\n~\
a coding in HTTP/1.0|BadHead|POST / HTTP/1.0\r\nTransfer-Encoding: chunked\r\n\r\n~\
no Host in HTTP/1.1|BadHead|GET / HTTP/1.1\r\n\r\n~\
two Hosts in HTTP/1.1|BadHead|GET / HTTP/1.1\r\nHost: h\r\nHOST: h\r\n\r\n~\
two Hosts in HTTP/1.0|BadHead|GET / HTTP/1.0\r\nHost: h\r\nHost: i\r\n\r\n~\
HTTP/1.2|BadVersion|GET / HTTP/1.2\r\nHost: h\r\n\r\n~\
HTTP/2.0 without Host|BadVersion|GET / HTTP/2.0\r\n\r\n~\
HTTP/0.9 in a line of three words|BadVersion|GET / HTTP/0.9\n\n~\
two digits|BadHead|GET / HTTP/1.10\r\nHost: h\r\n\r\n~\
a version in small letters|BadHead|GET / http/1.1\r\nHost: h\r\n\r\n~\
no version|BadHead|GET /\r\nHost: h\r\n\r\n~\
two spaces|BadHead|GET  / HTTP/1.1\r\nHost: h\r\n\r\n~\
a line without a colon|BadHead|GET / HTTP/1.1\r\nHost: h\r\nX\r\n\r\n~\
an empty name|BadHead|GET / HTTP/1.1\r\nHost: h\r\n: x\r\n\r\n~\
a target that is not UTF-8|BadHead|GET /\xff HTTP/1.1\r\nHost: h\r\n\r\n~\
CONNECT|NotImplemented|CONNECT h:1 HTTP/1.1\r\nHost: h\r\n\r\n~\
CONNECT without Host|BadHead|CONNECT h:1 HTTP/1.1\r\n\r\n~\
CONNECT with a bad length|BadHead|CONNECT h:1 HTTP/1.1\r\nHost: h\r\nContent-Length: x\r\n\r\n~\
an asterisk|BadTarget|OPTIONS * HTTP/1.1\r\nHost: h\r\n\r\n~\
a control byte in the path|BadTarget|GET /%00 HTTP/1.1\r\nHost: h\r\n\r\n~\
an unknown coding and a bad target|NotImplemented|GET * HTTP/1.1\r\nHost: h\r\nTransfer-Encoding: x\r\n\r\n~\
no head|BadHead|\r\n\r\n";

/// Cases, a `~` between them: a `^` stands where the head ends, if it does.
const ENDS: &[u8] = b"\
GET / HTTP/1.1\r\nHost: h\r\n\r\n^GET /next HTTP/1.1\r\n\r\n~\
GET / HTTP/1.1\n\n^~\
GET / HTTP/1.1\r\n\n^\n~\
\r\n\n\r\nGET / HTTP/1.1\n\r\n^x~\
~\
\r~\
\r\n\r\n\n~\
GET / HTTP/1.1~\
GET / HTTP/1.1\r\n~\
GET / HTTP/1.1\r\n\r~\
GET / HTTP/1.1\r\nHost: h\r\n~\
GET / HTTP/1.1\r\n \r\nHost: h\r\r\n";

fn push_word(text: &mut Text, word: &[u8]) -> Result<(), NoMemory> {
    if !text.is_empty() {
        text.push(b' ')?;
    }
    if word.is_empty() {
        text.push(b'-')
    } else {
        text.push_all(word)
    }
}

/// What a request says, in the words of `READ`.
fn shown(alloc: Global, request: &Request) -> Result<Text, NoMemory> {
    let mut text = Text::new(alloc);
    push_word(&mut text, request.method.bytes())?;
    push_word(&mut text, decimal(u64::from(request.minor)).bytes())?;
    push_word(&mut text, request.sent.bytes())?;
    push_word(&mut text, request.target.path.bytes())?;
    push_word(&mut text, request.host_field.bytes())?;
    push_word(&mut text, request.host.bytes())?;
    match request.framing {
        Framing::None => push_word(&mut text, b"none".as_slice())?,
        Framing::Length(n) => push_word(&mut text, decimal(n).bytes())?,
        Framing::Chunked => push_word(&mut text, b"chunked".as_slice())?,
    }
    let persistence = if request.close {
        b"close".as_slice()
    } else {
        b"keep".as_slice()
    };
    push_word(&mut text, persistence)?;
    let expectation = if request.expect {
        b"continue".as_slice()
    } else {
        b"-".as_slice()
    };
    push_word(&mut text, expectation)?;
    Ok(text)
}

#[test]
fn a_head_is_read_as_the_standard_says(rt: HostRuntime) -> Result<(), Fail> {
    for row in READ.split(|byte| *byte == b'~') {
        let mut parts = row.split(|byte| *byte == b'|');
        let name = str::from_utf8(parts.next().unwrap_or(&[]))?;
        let said = parts.next().unwrap_or(&[]);
        let request = read_head(rt.alloc(), parts.next().unwrap_or(&[]))?;
        let text = shown(rt.alloc(), &request)?;
        assert_eq!(rt; text.bytes(), said, "{name}");
    }
    Ok(())
}

#[test]
fn a_head_is_refused_for_the_first_cause(rt: HostRuntime) -> Result<(), Fail> {
    for row in REFUSED.split(|byte| *byte == b'~') {
        let mut parts = row.split(|byte| *byte == b'|');
        let name = str::from_utf8(parts.next().unwrap_or(&[]))?;
        let wanted = parts.next().unwrap_or(&[]);
        match read_head(rt.alloc(), parts.next().unwrap_or(&[])) {
            Ok(_) => assert!(rt; false, "{name} is read"),
            Err(refusal) => {
                let found = format!(in rt.alloc(); "{refusal:?}")?;
                assert_eq!(rt; found.as_bytes(), wanted, "{name}");
            }
        }
    }
    Ok(())
}

#[test]
fn a_head_ends_at_its_empty_line(rt: HostRuntime) -> Result<(), Fail> {
    for row in ENDS.split(|byte| *byte == b'~') {
        let mut parts = row.split(|byte| *byte == b'^');
        let mut bytes = Text::from_bytes(rt.alloc(), parts.next().unwrap_or(&[]))?;
        let length = bytes.len();
        let wanted = match parts.next() {
            Some(rest) => {
                bytes.push_all(rest)?;
                HeadEnd::At(length)
            }
            None => HeadEnd::NotYet,
        };
        assert_eq!(rt; head_end(bytes.bytes()), wanted, "{row:?}");
    }
    Ok(())
}

/// A head with a field of so many letters, or of so many fields.
fn filled(alloc: Global, letters: usize, fields: usize) -> Result<Text, NoMemory> {
    let mut text = Text::from_bytes(alloc, b"GET / HTTP/1.1\r\nHost: h\r\n".as_slice())?;
    for _ in 1..fields {
        text.push_all(b"X:".as_slice())?;
        for _ in 0..letters {
            text.push(b'a')?;
        }
        text.push_all(b"\r\n".as_slice())?;
    }
    text.push_all(b"\r\n".as_slice())?;
    Ok(text)
}

#[test]
fn a_head_has_8192_bytes_and_64_lines_at_most(rt: HostRuntime) -> Result<(), Fail> {
    let most = filled(rt.alloc(), HEAD_LIMIT - 31, 2)?;
    assert_eq!(rt; head_end(most.bytes()), HeadEnd::At(HEAD_LIMIT));
    assert!(rt; read_head(rt.alloc(), most.bytes()).is_ok());
    let more = filled(rt.alloc(), HEAD_LIMIT - 30, 2)?;
    assert_eq!(rt; more.len(), HEAD_LIMIT + 1);
    assert_eq!(rt; head_end(more.bytes()), HeadEnd::TooLarge);
    assert!(rt; read_head(rt.alloc(), filled(rt.alloc(), 1, 64)?.bytes()).is_ok());
    let many = filled(rt.alloc(), 1, 65)?;
    assert_eq!(rt;
        read_head(rt.alloc(), many.bytes()).err(),
        Some(HeadRefusal::TooLarge)
    );
    Ok(())
}
