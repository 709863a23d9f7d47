//! The attribute that a condition names.
ghost use Rattle.std.specs.Prelude.{◌≡◌, IfOk};
ghost use Rattle.conditions.specs.Fields.{field_of, http_field, server_field, physical_field};

use conf_value::Field;
use lt_bytes::{NoMemory, Text};
use std::alloc::Global;

/// The field of `$HTTP["name"]`, where it has one.
fn http_field(name: &[u8]) -> Option<Field>
    ensures { result ≡ http_field name.now }
{
    if name == b"host".as_slice() {
        return Some(Field::Host);
    }
    if name == b"url".as_slice() {
        return Some(Field::Url);
    }
    if name == b"query-string".as_slice() {
        return Some(Field::Query);
    }
    if name == b"request-method".as_slice() {
        return Some(Field::Method);
    }
    if name == b"scheme".as_slice() {
        return Some(Field::Scheme);
    }
    if name == b"user-agent".as_slice() {
        return Some(Field::UserAgent);
    }
    if name == b"referer".as_slice() {
        return Some(Field::Referer);
    }
    if name == b"cookie".as_slice() {
        return Some(Field::Cookie);
    }
    if name == b"remote-ip".as_slice() {
        return Some(Field::RemoteIp);
    }
    None
}

/// The field that `$group["name"]` names, or `None` where there is no such field.
pub fn field_of(alloc: Global, group: &[u8], name: &[u8]) -> Result<Option<Field>, NoMemory>
    ensures { IfOk result (λ field. field ≡ field_of group.now name.now) }
{
    if group == b"HTTP".as_slice() {
        return Ok(http_field(name));
    }
    if group == b"REQUEST_HEADER".as_slice() {
        let name = Text::from_bytes(alloc, name)?;
        return Ok(Some(Field::Header(name)));
    }
    if group == b"SERVER".as_slice() {
        return Ok(server_field(name));
    }
    if group == b"PHYSICAL".as_slice() {
        return Ok(physical_field(name));
    }
    Ok(None)
}

fn server_field(name: &[u8]) -> Option<Field>
    ensures { result ≡ server_field name.now }
{
    if name == b"socket".as_slice() {
        return Some(Field::Socket);
    }
    None
}

fn physical_field(name: &[u8]) -> Option<Field>
    ensures { result ≡ physical_field name.now }
{
    if name == b"path".as_slice() {
        return Some(Field::Physical);
    }
    None
}
