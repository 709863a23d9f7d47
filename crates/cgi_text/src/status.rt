//! The status of a gateway's answer (RFC 3875, section 6.3.3).
ghost use Rattle.std.specs.Prelude.{◌≡◌, take};
ghost use Rattle.cgi_text.specs.Head.{in_range, status_code, status_of};

use http_header::{HeaderMap, HeaderValue, LOCATION};
use lt_bytes::{Number, read_decimal};

/// How many digits a status has.
const STATUS_DIGITS: usize = 3;

fn front(value: &[u8]) -> &[u8]
    ensures { result.now ≡ take 3 value.now }
{
    if value.len() > STATUS_DIGITS {
        &value[..STATUS_DIGITS]
    } else {
        value
    }
}

fn in_range(number: Number) -> Option<u16>
    ensures { result ≡ in_range number }
{
    match number {
        Number::Value(code) => {
            if 200 <= code && code <= 599 {
                Some(code as u16)
            } else {
                None
            }
        }
        Number::NotANumber => None,
        Number::Overflow => None,
    }
}

/// The status that begins the value of a Status field.
fn status_code(value: &[u8]) -> Option<u16>
    ensures { result ≡ status_code value.now }
{
    in_range(read_decimal(front(value)))
}

/// The status that the fields give, or none where Status has none in range.
pub(crate) fn status_of(fields: &HeaderMap<HeaderValue>) -> Option<u16>
    ensures { result ≡ status_of fields.now }
{
    if let Some(value) = fields.get(b"status".as_slice()) {
        return status_code(value.as_bytes());
    }
    match fields.get(&LOCATION) {
        Some(_) => Some(302),
        None => Some(200),
    }
}
