//! The host that a request is for.
ghost use Rattle.std.specs.Prelude.{◌≡◌, IfOk};
ghost use Rattle.http_head.specs.Host.{has_bad_host, host_field_of, without_port, host_of};

use crate::fields::{count_of, first_of};
use http_header::{HOST, HeaderMap, HeaderValue};
use http_target::authority;
use lt_bytes::{NoMemory, Text, lower};
use std::alloc::Global;

/// Whether HTTP/1.1 comes without exactly one Host, or HTTP/1.0 with more than one.
pub(crate) fn has_bad_host(minor: u8, fields: &HeaderMap<HeaderValue>) -> bool
    ensures { result ≡ has_bad_host minor fields.now }
{
    let hosts = count_of(fields, &HOST);
    hosts > 1 || (minor == 1 && hosts == 0)
}

/// The authority of a target in absolute form, else the value of Host.
pub(crate) fn host_field<'m>(sent: &'m [u8], fields: &'m HeaderMap<HeaderValue>) -> &'m [u8]
    ensures { result.now ≡ host_field_of sent.now fields.now }
{
    match authority(sent) {
        Some(found) => found,
        None => match first_of(fields, &HOST) {
            Some(value) => value,
            None => &[],
        },
    }
}

/// What stands before a colon that only digits or nothing follow.
fn without_port(field: &[u8]) -> &[u8]
    ensures { result.now ≡ without_port field.now }
{
    let mut end = field.len();
    while end > 0 && field[end - 1].is_ascii_digit() {
        end -= 1;
    }
    if end > 0 && field[end - 1] == b':' {
        &field[..end - 1]
    } else {
        field
    }
}

/// The host without its port, in lower case.
pub(crate) fn host(alloc: Global, field: &[u8]) -> Result<Text, NoMemory>
    ensures { IfOk result (λ text. text ≡ host_of field.now) }
{
    let name = without_port(field);
    let mut text = Text::with_capacity(alloc, name.len())?;
    for byte in name {
        text.push(lower(*byte))?;
    }
    Ok(text)
}
