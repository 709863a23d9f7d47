//! What a gateway is asked, by the standard and the documentation of lighttpd's mod_proxy.
use cgi_text::GateRequest;
use http_head::{Framing, Request, read_head};
use lt_world::Address;
use proxy_message::ask;
use std::str;
use std::test::Fail;

const CLIENT: Address = Address {
    ip: [10, 0, 0, 5],
    port: 40_000,
};

/// What is asked for such a request, of which the body has 5 bytes, at this target.
fn asked<'r>(request: &'r Request, target: &'r [u8]) -> GateRequest<'r> {
    GateRequest {
        method: request.method.bytes(),
        uri: request.target.raw.bytes(),
        target,
        query: b"",
        root: b"/srv",
        script: target,
        info: b"",
        tag: b"lighttpd",
        minor: request.minor,
        host: request.host.bytes(),
        host_field: request.host_field.bytes(),
        peer: CLIENT,
        local: CLIENT,
        framed: request.framing != Framing::None,
        body_len: 5,
        fields: &request.fields,
    }
}

/// Cases, a `~` between them: the name, the target after rewriting, what is asked, the request.
const CASES: &[u8] = b"\
a request|/p|GET /p HTTP/1.0\r\nHost: h\r\nX-Forwarded-For: 10.0.0.5\r\nX-Host: h\r\nX-Forwarded-Proto: http\r\nConnection: close\r\n\r\n|GET /p HTTP/1.1\r\nHost: h\r\n\r\n~\
no Host|/p|HEAD /p HTTP/1.0\r\nHost: \r\nX-Forwarded-For: 10.0.0.5\r\nX-Host: \r\nX-Forwarded-Proto: http\r\nConnection: close\r\n\r\n|HEAD /p HTTP/1.0\r\n\r\n~\
an authority in the target|/p|GET /p HTTP/1.0\r\nHost: A:80\r\nX-Forwarded-For: 10.0.0.5\r\nX-Host: A:80\r\nX-Forwarded-Proto: http\r\nConnection: close\r\n\r\n|GET http://A:80/p HTTP/1.1\r\nHost: b\r\n\r\n~\
a name that Connection lists|/p|GET /p HTTP/1.0\r\nHost: h\r\nx-c: 3\r\nX-Forwarded-For: 10.0.0.5\r\nX-Host: h\r\nX-Forwarded-Proto: http\r\nConnection: close\r\n\r\n|GET /p HTTP/1.1\r\nHost: h\r\nX-A: 1\r\nConnection: close, x-a\r\nX-B: 2\r\nconnection: X-b\r\nX-C: 3\r\n\r\n~\
the connection's own fields|/p|GET /p HTTP/1.0\r\nHost: h\r\naccept: a\r\nX-Forwarded-For: 10.0.0.5\r\nX-Host: h\r\nX-Forwarded-Proto: http\r\nConnection: close\r\n\r\n|GET /p HTTP/1.1\r\nHost: h\r\nKeep-Alive: 5\r\nProxy-Connection: x\r\nProxy: http://p\r\nTE: trailers\r\nTrailer: x\r\nUpgrade: h2c\r\nExpect: 100-continue\r\nAccept: a\r\nX-Host: b\r\nX-Forwarded-Proto: https\r\n\r\n~\
values of a name together|/p|GET /p HTTP/1.0\r\nHost: h\r\nx: 1\r\nx: 3\r\ny-z: 2\r\nX-Forwarded-For: 10.0.0.5\r\nX-Host: h\r\nX-Forwarded-Proto: http\r\nConnection: close\r\n\r\n|GET /p HTTP/1.1\r\nX: 1\r\nY-Z:  2 \r\nHost: h\r\nx: 3\r\n\r\n~\
addresses of the request|/p|GET /p HTTP/1.0\r\nHost: h\r\nX-Forwarded-For: 1.2.3.4, a, 5.6.7.8, 10.0.0.5\r\nX-Host: h\r\nX-Forwarded-Proto: http\r\nConnection: close\r\n\r\n|GET /p HTTP/1.1\r\nHost: h\r\nX-Forwarded-For: 1.2.3.4, a\r\nx-forwarded-for: 5.6.7.8\r\n\r\n~\
a target that was rewritten|/a b\n\x00!\x7f\xff?%20|GET /a%20b%0A%00!%7F\xff?%20 HTTP/1.0\r\nHost: h\r\nX-Forwarded-For: 10.0.0.5\r\nX-Host: h\r\nX-Forwarded-Proto: http\r\nConnection: close\r\n\r\n|GET /p HTTP/1.1\r\nHost: h\r\n\r\n~\
a length|/p|POST /p HTTP/1.0\r\nHost: h\r\nX-Forwarded-For: 10.0.0.5\r\nX-Host: h\r\nX-Forwarded-Proto: http\r\nContent-Length: 5\r\nConnection: close\r\n\r\n|POST /p HTTP/1.1\r\nHost: h\r\nContent-Length: 005\r\n\r\n~\
chunks|/p|POST /p HTTP/1.0\r\nHost: h\r\nX-Forwarded-For: 10.0.0.5\r\nX-Host: h\r\nX-Forwarded-Proto: http\r\nContent-Length: 5\r\nConnection: close\r\n\r\n|POST /p HTTP/1.1\r\nHost: h\r\nTransfer-Encoding: chunked\r\n\r\n";

#[test]
fn a_gateway_is_asked_without_the_fields_of_the_connection(rt: HostRuntime) -> Result<(), Fail> {
    for row in CASES.split(|byte| *byte == b'~') {
        let mut parts = row.split(|byte| *byte == b'|');
        let name = str::from_utf8(parts.next().unwrap_or(&[]))?;
        let target = parts.next().unwrap_or(&[]);
        let wanted = parts.next().unwrap_or(&[]);
        let request = read_head(rt.alloc(), parts.next().unwrap_or(&[]))?;
        let text = ask(rt.alloc(), &asked(&request, target))?;
        assert_eq!(rt; text.bytes(), wanted, "{name}");
    }
    Ok(())
}
