//! What a gateway is asked.

use http_header::{HeaderMap, HeaderValue};
use lt_world::Address;

/// A request as a gateway is asked it. It borrows all that is the client's.
#[derive(Clone, Copy)]
pub struct GateRequest<'r> {
    /// The method as sent.
    pub method: &'r [u8],
    /// The target in origin form, before it was rewritten.
    pub uri: &'r [u8],
    /// The target in origin form, after it was rewritten.
    pub target: &'r [u8],
    /// What follows the first `?` of the target, after it was rewritten.
    pub query: &'r [u8],
    /// The document root.
    pub root: &'r [u8],
    /// The part of the path that names the script, and the rest of it.
    pub script: &'r [u8],
    pub info: &'r [u8],
    /// The server's name, as `Server` has it.
    pub tag: &'r [u8],
    /// The minor version: 0 for HTTP/1.0, 1 for HTTP/1.1.
    pub minor: u8,
    /// The host without its port, in lower case; empty where the request names none.
    pub host: &'r [u8],
    /// The authority of a target in absolute form, else the value of Host.
    pub host_field: &'r [u8],
    /// The client's address, and the one at which it was accepted.
    pub peer: Address,
    pub local: Address,
    /// The request had a body framing, be its body empty.
    pub framed: bool,
    /// The length of the body in bytes.
    pub body_len: u64,
    /// The fields, the names in order of first coming.
    pub fields: &'r HeaderMap<HeaderValue>,
}
