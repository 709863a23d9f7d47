//! The values of the fields of a request, as parameters have them (RFC 3875, section 4.1.18).
ghost use Rattle.std.specs.Prelude.{◌≡◌, ◌++◌, IfOk, OnOk};
ghost use Rattle.http_header.specs.HeaderMap.{get_all};
ghost use Rattle.cgi_text.specs.Pairs.{pairs_bytes};
ghost use Rattle.cgi_text.specs.Params.{field_param, field_params, is_left_out, joined, separator_of, type_param};

use crate::pairs::{push_field_pair, push_pair};
use http_header::{HeaderMap, HeaderName, HeaderValue};
use lt_bytes::{NoMemory, Text};
use std::alloc::Global;

/// Whether a field of this name, in lower case, has no parameter of that name.
fn is_left_out(name: &[u8]) -> bool
    ensures { result ≡ is_left_out name.now }
{
    name == b"content-length".as_slice()
        || name == b"content-type".as_slice()
        || name == b"transfer-encoding".as_slice()
        || name == b"connection".as_slice()
        || name == b"proxy".as_slice()
}

/// What stands between two values of a field.
fn separator_of(name: &[u8]) -> &'static [u8]
    ensures { result.now ≡ separator_of name.now }
{
    if name == b"cookie".as_slice() {
        b"; "
    } else {
        b", "
    }
}

/// The values under a name, with the separator between each two.
fn joined(
    alloc: Global,
    fields: &HeaderMap<HeaderValue>,
    name: &HeaderName,
    separator: &[u8],
) -> Result<Text, NoMemory>
    ensures { IfOk result (λ text. text ≡ joined separator.now (get_all fields.now name.now)) }
{
    let mut text = Text::new(alloc);
    let mut values = fields.get_all(name).iter();
    let Some(first) = values.next() else {
        return Ok(text);
    };
    text.push_all(first.as_bytes())?;
    for value in values {
        text.push_all(separator)?;
        text.push_all(value.as_bytes())?;
    }
    Ok(text)
}

/// Adds the parameter of the fields of a name, if they have one.
fn push_field(
    alloc: Global,
    text: &mut Text,
    fields: &HeaderMap<HeaderValue>,
    name: &HeaderName,
) -> Result<(), NoMemory>
    ensures { OnOk result (text.new ≡ text.old ++ pairs_bytes (field_param (name.now, get_all fields.now name.now))) }
{
    let bytes = name.as_bytes();
    if is_left_out(bytes) {
        return Ok(());
    }
    let value = joined(alloc, fields, name, separator_of(bytes))?;
    push_field_pair(text, bytes, value.bytes())
}

/// Adds a parameter for each name that has one, in order of first coming.
pub(crate) fn push_fields(
    alloc: Global,
    text: &mut Text,
    fields: &HeaderMap<HeaderValue>,
) -> Result<(), NoMemory>
    ensures { OnOk result (text.new ≡ text.old ++ pairs_bytes (field_params fields.now)) }
{
    // In every map a name stands once.
    let _names = fields.keys_len();
    for name in fields.keys() {
        push_field(alloc, text, fields, name)?;
    }
    Ok(())
}

/// Adds the media type of the body under the name of its field, if the request has one.
pub(crate) fn push_type(
    alloc: Global,
    text: &mut Text,
    fields: &HeaderMap<HeaderValue>,
    name: &HeaderName,
) -> Result<(), NoMemory>
    ensures { OnOk result (text.new ≡ text.old ++ pairs_bytes (type_param (get_all fields.now name.now))) }
{
    let Some(_) = fields.get(name) else {
        return Ok(());
    };
    let value = joined(alloc, fields, name, b", ")?;
    push_pair(text, b"CONTENT_TYPE", value.bytes())
}
