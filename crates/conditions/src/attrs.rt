//! What conditions see of a request.

use http_header::{HeaderMap, HeaderValue};
use lt_world::Address;

/// The attributes of a request, borrowed from it.
#[derive(Clone, Copy)]
pub struct Attrs<'r> {
    /// The host without its port, in lower case.
    pub host: &'r [u8],
    /// The decoded path in normal form.
    pub url: &'r [u8],
    /// The query as it was sent.
    pub query: &'r [u8],
    /// The method as it was sent.
    pub method: &'r [u8],
    /// The client's address, and the one at which it was accepted.
    pub peer: Address,
    pub local: Address,
    pub fields: &'r HeaderMap<HeaderValue>,
    /// The path of the file, once it is known.
    pub physical: Option<&'r [u8]>,
}
