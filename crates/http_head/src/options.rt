//! What a request asks of its connection.
ghost use Rattle.std.specs.Prelude.{◌≡◌, codes};
ghost use Rattle.std.specs.List.{list_any};
ghost use Rattle.http_header.specs.HeaderMap.{get_all};
ghost use Rattle.lt_bytes.specs.Words.{same_word};
ghost use Rattle.http_head.specs.Options.{lists, has_option, closes, expects};

use http_header::{CONNECTION, EXPECT, HeaderMap, HeaderValue};
use lt_bytes::{same_word, trim};

/// Whether a piece between the commas is the word.
fn lists(word: &[u8], value: &[u8]) -> bool
    ensures { result ≡ lists word.now value.now }
{
    value
        .split(|b| *b == b',')
        .any(|piece| same_word(trim(piece), word))
}

/// Whether Connection has the option.
pub fn has_option(fields: &HeaderMap<HeaderValue>, word: &[u8]) -> bool
    ensures { result ≡ has_option fields.now word.now }
{
    fields
        .get_all(&CONNECTION)
        .iter()
        .any(|value| lists(word, value.as_bytes()))
}

/// Whether the connection does not persist.
pub(crate) fn closes(minor: u8, fields: &HeaderMap<HeaderValue>) -> bool
    ensures { result ≡ closes minor fields.now }
{
    has_option(fields, b"close".as_slice())
        || (minor == 0 && !has_option(fields, b"keep-alive".as_slice()))
}

/// Whether the client waits for 100 (Continue).
pub(crate) fn expects(minor: u8, fields: &HeaderMap<HeaderValue>) -> bool
    ensures { result ≡ expects minor fields.now }
{
    minor == 1 && asks_to_continue(fields)
}

fn asks_to_continue(fields: &HeaderMap<HeaderValue>) -> bool
    ensures { result ≡ list_any (λ v. same_word v.bytes (codes "100-continue")) (get_all fields.now (codes "expect")) }
{
    fields.get_all(&EXPECT).iter().any(|value| same_word(
        value.as_bytes(),
        b"100-continue".as_slice(),
    ))
}
