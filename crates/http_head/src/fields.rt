//! The fields of a head, in the map that keeps them.
ghost use Rattle.std.specs.Prelude.{◌≡◌, ◌≤◌, ◌⊎◌, ◌↔◌, length, map, slice_get, option_map, All, IfOk, IfErr, IsErrOf, Err};
ghost use Rattle.httparse.specs.Spans.{IsWithin, IsHeaderWithin, span_bytes, header_bytes};
ghost use Rattle.http_header.specs.HeaderMap.{get_all, append};
ghost use Rattle.http_header.specs.Token.{lowercase};
ghost use Rattle.http_header.specs.FieldName.{IsFieldName};
ghost use Rattle.http_header.specs.FieldValue.{plain_value, IsFieldValue};
ghost use Rattle.http_head.specs.Fields.{IsTaken, kept, map_of};

use crate::limits::FIELD_LINE_LIMIT;
use crate::refusal::HeadRefusal;
use bytes::Bytes;
use http_header::{HeaderMap, HeaderMapError, HeaderName, HeaderNameError, HeaderValue};
use httparse::spans::{HeaderSpan, Span};
use std::alloc::{AllocError, Global};

/// How many values there are under the name.
pub(crate) fn count_of(fields: &HeaderMap<HeaderValue>, name: &HeaderName) -> usize
    ensures { result ≡ length (get_all fields.now name.now) }
{
    fields.get_all(name).iter().count()
}

/// The first value under the name.
pub(crate) fn first_of<'m>(
    fields: &'m HeaderMap<HeaderValue>,
    name: &HeaderName,
) -> Option<&'m [u8]>
    ensures { option_map (λ s. s.now) result ≡ option_map (λ v. v.bytes) (slice_get (get_all fields.now name.now) 0) }
{
    match fields.get(name) {
        Some(value) => Some(value.as_bytes()),
        None => None,
    }
}

/// The bytes, and the same in lower case, in one piece of memory.
fn shared(alloc: Global, buf: &[u8]) -> Result<(Bytes, Bytes), AllocError>
    ensures { IfOk result (λ parts. (parts.0 ≡ buf.now) × (parts.1 ≡ lowercase buf.now)) }
{
    let len = buf.len();
    let mut both = Vec::with_capacity(alloc, len.saturating_mul(2))?;
    both.extend_from_slice(buf)?;
    both.extend_from_slice(buf)?;
    both.as_mut_slice()[len..].make_ascii_lowercase();
    let mut values = Bytes::from_vec(both)?;
    let names = values.split_off(len)?;
    Ok((values, names))
}

/// The name, as the map keeps it: in lower case it is a part of the bytes. A standard name takes no
/// memory.
fn name_of(alloc: Global, names: &Bytes, span: Span) -> Result<HeaderName, HeadRefusal>
    requires within { IsWithin (length names.now) span }
    ensures ok { IfOk result (λ name. IsFieldName (span_bytes names.now span) × (name ≡ lowercase (span_bytes names.now span))) }
    ensures bad { IfErr result (λ e. (e ≡ HeadRefusal.NoMemory) ⊎ ((e ≡ HeadRefusal.BadHead) × ¬ (IsFieldName (span_bytes names.now span)))) }
{
    if let Some(name) = HeaderName::standard(span.of(names.as_slice())) {
        return Ok(name);
    }
    let Ok(part) = names.slice(span.start..span.end) else {
        return Err(HeadRefusal::NoMemory);
    };
    match HeaderName::from_shared(alloc, part) {
        Ok(name) => Ok(name),
        Err(HeaderNameError::Invalid) => Err(HeadRefusal::BadHead),
        Err(HeaderNameError::OutOfMemory) => Err(HeadRefusal::NoMemory),
    }
}

/// The value, as the map keeps it: a part of the bytes, which the grammar has tested.
fn value_of(values: &Bytes, span: Span) -> Result<HeaderValue, HeadRefusal>
    requires within { IsWithin (length values.now) span }
    requires valid { IsFieldValue (span_bytes values.now span) }
    ensures ok { IfOk result (λ value. value ≡ plain_value (span_bytes values.now span)) }
    ensures bad { IfErr result (λ e. e ≡ HeadRefusal.NoMemory) }
{
    match values.slice(span.start..span.end) {
        Ok(part) => Ok(HeaderValue::from_known_valid(part)),
        Err(_) => Err(HeadRefusal::NoMemory),
    }
}

/// One field, as the map keeps it.
fn field(
    alloc: Global,
    values: &Bytes,
    names: &Bytes,
    header: &HeaderSpan,
) -> Result<(HeaderName, HeaderValue), HeadRefusal>
    requires lower { names.now ≡ lowercase values.now }
    requires within { IsHeaderWithin (length values.now) header.now }
    requires valid { IsFieldValue (span_bytes values.now header.now.value) }
    ensures ok { IfOk result (λ f. IsTaken (header_bytes values.now header.now) × (f ≡ kept (header_bytes values.now header.now))) }
    ensures bad { IfErr result (λ e. (e ≡ HeadRefusal.NoMemory) ⊎ ((e ≡ HeadRefusal.BadHead) × ¬ (IsTaken (header_bytes values.now header.now)))) }
{
    let name = match name_of(alloc, names, header.name) {
        Ok(name) => name,
        Err(refusal) => return Err(refusal),
    };
    match value_of(values, header.value) {
        Ok(value) => Ok((name, value)),
        Err(refusal) => Err(refusal),
    }
}

/// The fields that the spans cover, in order. Their names and values are parts of one copy of the
/// bytes.
pub fn read_fields(
    alloc: Global,
    buf: &[u8],
    headers: &[HeaderSpan],
) -> Result<HeaderMap<HeaderValue>, HeadRefusal>
    requires within { All (IsHeaderWithin (length buf.now)) headers.now }
    requires valid { All (λ h. IsFieldValue (span_bytes buf.now h.value)) headers.now }
    requires few { length headers.now ≤ FIELD_LINE_LIMIT }
    ensures ok { IfOk result (λ m. All IsTaken (map (header_bytes buf.now) headers.now) × (m ≡ map_of (map (header_bytes buf.now) headers.now))) }
    ensures bad { IfErr result (λ e. (e ≡ HeadRefusal.NoMemory) ⊎ ((e ≡ HeadRefusal.BadHead) × ¬ (All IsTaken (map (header_bytes buf.now) headers.now)))) }
{
    let Ok((values, names)) = shared(alloc, buf) else {
        return Err(HeadRefusal::NoMemory);
    };
    let mut fields = match HeaderMap::with_capacity(alloc, headers.len()) {
        Ok(fields) => fields,
        Err(HeaderMapError::OutOfMemory) => return Err(HeadRefusal::NoMemory),
        Err(HeaderMapError::MaxSizeReached) => unreachable!(),
    };
    for header in headers {
        let (name, value) = match field(alloc, &values, &names, header) {
            Ok(found) => found,
            Err(refusal) => return Err(refusal),
        };
        match fields.append(name, value) {
            Ok(_) => {}
            Err(HeaderMapError::OutOfMemory) => return Err(HeadRefusal::NoMemory),
            Err(HeaderMapError::MaxSizeReached) => unreachable!(),
        }
    }
    Ok(fields)
}
