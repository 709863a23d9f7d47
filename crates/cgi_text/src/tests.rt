//! Parameters and heads, with answers from the standards.
use crate::pairs::push_pair;
use crate::{GateRequest, params};
use http_head::read_head;
use http_header::{HeaderMap, HeaderValue};
use lt_bytes::{NoMemory, Text};
use lt_world::Address;
use std::alloc::Global;
use std::test::Fail;

const SERVER: Address = Address {
    ip: [127, 0, 0, 1],
    port: 80,
};

const CLIENT: Address = Address {
    ip: [10, 0, 0, 5],
    port: 40_000,
};

/// The request of a prefix key, with these fields.
fn asked(fields: &HeaderMap<HeaderValue>) -> GateRequest<'_> {
    GateRequest {
        method: b"GET",
        uri: b"/app/x?q=1",
        target: b"/app/x?q=1",
        query: b"q=1",
        root: b"/srv",
        script: b"/app",
        info: b"/x",
        tag: b"lighttpd",
        minor: 1,
        host: b"h",
        host_field: b"h",
        peer: CLIENT,
        local: SERVER,
        framed: false,
        body_len: 0,
        fields,
    }
}

/// The 348 bytes that ask for it.
const ASKED: &[u8] = b"\
\x11\x07GATEWAY_INTERFACECGI/1.1\x0f\x08SERVER_SOFTWARElighttpd\x0f\x08SERVER_PROTOCOLHTTP/1.1\x0e\x03REQUEST_METHODGET\
\x0b\x0aREQUEST_URI/app/x?q=1\x0c\x03QUERY_STRINGq=1\x0d\x04DOCUMENT_ROOT/srv\x0b\x04SCRIPT_NAME/app\
\x0f\x08SCRIPT_FILENAME/srv/app\x09\x02PATH_INFO/x\x0b\x01SERVER_NAMEh\x0b\x09SERVER_ADDR127.0.0.1\
\x0b\x02SERVER_PORT80\x0b\x08REMOTE_ADDR10.0.0.5\x0b\x05REMOTE_PORT40000\x0e\x01CONTENT_LENGTH0\
\x0f\x03REDIRECT_STATUS200\x09\x01HTTP_HOSTh";

#[test]
fn a_request_is_asked_by_its_parameters(rt: HostRuntime) -> Result<(), Fail> {
    let head = b"GET /app/x?q=1 HTTP/1.1\r\nHost: h\r\n\r\n";
    let request = read_head(rt.alloc(), head.as_slice())?;
    let text = params(rt.alloc(), &asked(&request.fields))?;
    assert_eq!(rt; text.len(), 348);
    assert_eq!(rt; text.bytes(), ASKED);
    Ok(())
}

/// HTTP/1.0 without Host, after a rewrite, with a body, repeated fields and a long one.
const POSTED: &[u8] = b"\
\x11\x07GATEWAY_INTERFACECGI/1.1\x0f\x08SERVER_SOFTWARElighttpd\x0f\x08SERVER_PROTOCOLHTTP/1.0\x0e\x04REQUEST_METHODPOST\
\x0b\x04REQUEST_URI/old\x0c\x00QUERY_STRING\x0d\x04DOCUMENT_ROOT/srv\x0b\x06SCRIPT_NAME/a.php\
\x0f\x0aSCRIPT_FILENAME/srv/a.php\x0b\x09SERVER_NAME127.0.0.1\x0b\x09SERVER_ADDR127.0.0.1\x0b\x02SERVER_PORT80\
\x0b\x08REMOTE_ADDR10.0.0.5\x0b\x05REMOTE_PORT40000\x0e\x01CONTENT_LENGTH5\x0f\x03REDIRECT_STATUS200\
\x0c\x0eCONTENT_TYPEtext/a, text/b\x0b\x08HTTP_COOKIEa=1; b=2\x0b\x08HTTP_X_Y2_Zone, two\x0b\x80\x00\x00\x82HTTP_ACCEPTaaaaaaaaaaaaaaaaaaaaaaaaaaaaaaaaaaaaaaaaaaaaaaaaaaaaaaaaaaaaaaaaaaaaaaaaaaaaaaaaaaaaaaaaaaaaaaaaaaaaaaaaaaaaaaaaaaaaaaaaaaaaaaaaaa";

#[test]
fn repeated_fields_are_joined_and_those_of_the_message_left_out(
    rt: HostRuntime,
) -> Result<(), Fail> {
    let head =
        b"POST /old HTTP/1.0\r\ncookie: a=1\r\nContent-Type: text/a\r\nX-y2.Z: one\r\nCookie: b=2\r\nProxy: http://p\r\nx-Y2.z: two\r\nContent-Length: 5\r\nConnection: close\r\nAccept: aaaaaaaaaaaaaaaaaaaaaaaaaaaaaaaaaaaaaaaaaaaaaaaaaaaaaaaaaaaaaaaaaaaaaaaaaaaaaaaaaaaaaaaaaaaaaaaaaaaaaaaaaaaaaaaaaaaaaaaaaaaaaaaaaa\r\ncontent-type: text/b\r\n\r\n";
    let request = read_head(rt.alloc(), head.as_slice())?;
    let posted = GateRequest {
        method: b"POST",
        uri: b"/old",
        target: b"/a.php",
        query: b"",
        script: b"/a.php",
        info: b"",
        minor: 0,
        host: b"",
        host_field: b"",
        framed: true,
        body_len: 5,
        ..asked(&request.fields)
    };
    let text = params(rt.alloc(), &posted)?;
    assert_eq!(rt; text.bytes(), POSTED);
    Ok(())
}

/// A pair with a value of so many bytes, and the bytes before its name.
fn lengths(alloc: Global, size: usize) -> Result<Text, NoMemory> {
    let mut value = Text::new(alloc);
    for _ in 0..size {
        value.push(b'v')?;
    }
    let mut text = Text::new(alloc);
    push_pair(&mut text, b"n", value.bytes())?;
    Ok(text)
}

#[test]
fn a_length_above_127_takes_four_bytes(rt: HostRuntime) -> Result<(), Fail> {
    assert_eq!(rt; lengths(rt.alloc(), 0)?.bytes(), b"\x01\x00n".as_slice());
    assert!(rt; lengths(rt.alloc(), 127)?.bytes().starts_with(b"\x01\x7fnv"));
    assert!(rt;
        lengths(rt.alloc(), 128)?
            .bytes()
            .starts_with(b"\x01\x80\x00\x00\x80nv")
    );
    assert!(rt;
        lengths(rt.alloc(), 65_535)?
            .bytes()
            .starts_with(b"\x01\x80\x00\xff\xffnv")
    );
    assert_eq!(rt; lengths(rt.alloc(), 65_535)?.len(), 65_541);
    Ok(())
}
