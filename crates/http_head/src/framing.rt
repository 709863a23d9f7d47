//! How the body of a request is framed.
ghost use Rattle.std.specs.Prelude.{◌≡◌};
ghost use Rattle.lt_bytes.specs.Numbers.{number_of};
ghost use Rattle.http_head.specs.Framing.{is_chunked, framing_of, length_of};

use crate::fields::{count_of, first_of};
use crate::refusal::HeadRefusal;
use http_header::{CONTENT_LENGTH, HeaderMap, HeaderValue, TRANSFER_ENCODING};
use lt_bytes::{Number, read_decimal, same_word};

/// How long the body of a request is.
#[derive(Clone, Copy, Debug, PartialEq, Eq)]
pub enum Framing {
    /// There is none.
    None,
    /// So many bytes, as Content-Length states; the greatest `u64` also stands for more.
    Length(u64),
    /// In the chunked transfer coding.
    Chunked,
}

fn is_chunked(value: &[u8]) -> bool
    ensures { result ≡ is_chunked value.now }
{
    same_word(value, b"chunked".as_slice())
}

fn length_of(value: &[u8]) -> Result<Framing, HeadRefusal>
    ensures { result ≡ length_of (number_of 10 value.now) }
{
    match read_decimal(value) {
        Number::Value(n) => Ok(Framing::Length(n)),
        Number::Overflow => Ok(Framing::Length(u64::MAX)),
        Number::NotANumber => Err(HeadRefusal::BadHead),
    }
}

/// How the body of such a head is framed, or why the head is refused.
pub(crate) fn framing_of(minor: u8, fields: &HeaderMap<HeaderValue>) -> Result<Framing, HeadRefusal>
    ensures { result ≡ framing_of minor fields.now }
{
    let codings = count_of(fields, &TRANSFER_ENCODING);
    let lengths = count_of(fields, &CONTENT_LENGTH);
    if codings > 0 {
        if lengths > 0 || minor == 0 {
            return Err(HeadRefusal::BadHead);
        }
        return match first_of(fields, &TRANSFER_ENCODING) {
            Some(coding) if codings == 1 && is_chunked(coding) => Ok(Framing::Chunked),
            _ => Err(HeadRefusal::NotImplemented),
        };
    }
    match first_of(fields, &CONTENT_LENGTH) {
        Some(value) if lengths == 1 => length_of(value),
        Some(_) => Err(HeadRefusal::BadHead),
        None => Ok(Framing::None),
    }
}
