//! What the client asks for, and the replies that it must get, spelled as RFC 9112 has them.
use lt_bytes::{NoMemory, Text};
use std::alloc::Global;

/// The bytes of the file `small`, which its reply's head says.
pub const SMALL: u32 = 300;

/// The bytes of the file `large`: more than one write takes.
pub const LARGE: u32 = 70_000;

/// Both requests, one behind the other. The second asks that the connection end with its reply.
pub const REQUESTS: &[u8] =
    b"GET /small HTTP/1.1\r\nHost: h\r\n\r\nGET /large HTTP/1.1\r\nHost: h\r\nConnection: close\r\n\r\n";

const SMALL_HEAD: &[u8] =
    b"HTTP/1.1 200 OK\r\nContent-Type: application/octet-stream\r\nAccept-Ranges: bytes\r\n\
Last-Modified: Thu, 01 Jan 1970 00:00:00 GMT\r\nContent-Length: 300\r\nServer: lighttpd\r\n\r\n";

const LARGE_HEAD: &[u8] =
    b"HTTP/1.1 200 OK\r\nContent-Type: application/octet-stream\r\nAccept-Ranges: bytes\r\n\
Last-Modified: Thu, 01 Jan 1970 00:00:00 GMT\r\nContent-Length: 70000\r\nConnection: close\r\nServer: lighttpd\r\n\r\n";

/// What a file of so many bytes holds. Its bytes come again after 251, a prime, so that no two pieces of a size that
/// servers read by begin alike.
pub fn content(alloc: Global, size: u32) -> Result<Text, NoMemory> {
    let mut text = Text::new(alloc);
    for place in 0..size {
        text.push((place % 251) as u8)?;
    }
    Ok(text)
}

/// The bytes that the client must get, up to the end of the connection.
pub fn replies(alloc: Global) -> Result<Text, NoMemory> {
    let mut text = Text::new(alloc);
    text.push_all(SMALL_HEAD)?;
    text.push_all(content(alloc, SMALL)?.bytes())?;
    text.push_all(LARGE_HEAD)?;
    text.push_all(content(alloc, LARGE)?.bytes())?;
    Ok(text)
}

/// The first place at which the two differ, counted from 0; where one of them goes on, the end of the other.
pub fn first_difference(got: &[u8], wanted: &[u8]) -> Option<usize> {
    let mut others = wanted.iter();
    for (place, byte) in got.iter().enumerate() {
        if others.next() != Some(byte) {
            return Some(place);
        }
    }
    match others.next() {
        Some(_) => Some(got.len()),
        None => None,
    }
}
