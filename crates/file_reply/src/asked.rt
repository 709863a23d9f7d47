//! What a request asks for beside its path.
ghost use Rattle.std.specs.Prelude.{◌≡◌, codes};
ghost use Rattle.http_header.specs.HeaderMap.{get, get_all};
ghost use Rattle.static_files.specs.Ranges.{LiesIn};
ghost use Rattle.file_reply.specs.Answers as spec;

use http_header::{HeaderMap, HeaderValue, IF_MODIFIED_SINCE, RANGE};
use static_files::{Range, fresh, ranges};

/// Whether the first If-Modified-Since is a date that isn't before the file's time.
pub(crate) fn is_fresh(fields: &HeaderMap<HeaderValue>, time: u64) -> bool
    ensures { result ≡ spec.is_fresh (get fields.now (codes "if-modified-since")) time }
{
    match fields.get(&IF_MODIFIED_SINCE) {
        Some(value) => fresh(value.as_bytes(), time),
        None => false,
    }
}

/// The bytes that the only Range asks for.
fn only_range(fields: &HeaderMap<HeaderValue>, size: u64) -> Range
    ensures { result ≡ spec.only_range (get_all fields.now (codes "range")) size }
{
    if fields.get_all(&RANGE).iter().count() > 1 {
        return Range::Whole;
    }
    match fields.get(&RANGE) {
        Some(value) => ranges(value.as_bytes(), size),
        None => Range::Whole,
    }
}

/// The bytes that a request of this method asks for: GET alone may ask for a part.
#[tactic(auto, using(crate::proofs::Parts::asked_lies))]
pub(crate) fn range_for(method: &[u8], fields: &HeaderMap<HeaderValue>, size: u64) -> Range
    ensures range { result ≡ spec.range_for method.now fields.now size }
    ensures lies { LiesIn result size }
{
    if method == b"GET".as_slice() {
        only_range(fields, size)
    } else {
        Range::Whole
    }
}
