//! Records to an application.
ghost use Rattle.std.specs.Prelude.{◌≡◌};
ghost use Rattle.fcgi_records.specs.Encoded.{header_of, begin_request};

use crate::kinds::{BEGIN_REQUEST, REQUEST_ID, RESPONDER, VERSION};

/// The header of a record of this type with so many bytes of content and no padding (FastCGI Specification 1.0, section 3.3).
pub fn encode_header(kind: u8, length: u16) -> [u8; 8]
    ensures { result ≡ header_of kind length }
{
    let high = (length / 256) as u8;
    let low = (length % 256) as u8;
    [VERSION, kind, 0, REQUEST_ID, high, low, 0, 0]
}

/// The whole record with which a request begins: the application answers it, and the connection is closed behind it
/// (FastCGI Specification 1.0, section 5.1).
pub fn encode_begin() -> [u8; 16]
    ensures { result ≡ begin_request }
{
    [
        VERSION,
        BEGIN_REQUEST,
        0,
        REQUEST_ID,
        0,
        8,
        0,
        0,
        0,
        RESPONDER,
        0,
        0,
        0,
        0,
        0,
        0,
    ]
}
