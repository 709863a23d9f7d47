//! Which fields of a gateway's answer a client gets, and the length that the gateway stated.
ghost use Rattle.std.specs.Prelude.{◌≡◌, ◌++◌, IfOk, OnOk};
ghost use Rattle.lt_bytes.specs.Numbers.{number_of};
ghost use Rattle.cgi_text.specs.Passed.{is_withheld, length_of, passed_line, passed_on, stated_of};

use http_header::{CONTENT_LENGTH, HeaderMap, HeaderValue};
use http_reply::Fields;
use lt_bytes::{NoMemory, Number, read_decimal};
use std::alloc::Global;

/// Whether a field of this name, in lower case, stays here.
fn is_withheld(name: &[u8]) -> bool
    ensures { result ≡ is_withheld name.now }
{
    name == b"status".as_slice()
        || name == b"connection".as_slice()
        || name == b"keep-alive".as_slice()
        || name == b"transfer-encoding".as_slice()
        || name == b"content-length".as_slice()
        || name == b"upgrade".as_slice()
        || name == b"trailer".as_slice()
        || name == b"date".as_slice()
}

fn pass(passed: &mut Fields, name: &[u8], value: &[u8]) -> Result<(), NoMemory>
    ensures { OnOk result (passed.new ≡ passed.old ++ passed_line (name.now, value.now)) }
{
    if is_withheld(name) {
        return Ok(());
    }
    passed.add(name, value)
}

/// The fields that a client gets of a gateway's answer: by name in order of first coming, each value
/// on a line of its own, all but the status, the framing, the connection's own fields and the date.
pub fn passed_fields(alloc: Global, fields: &HeaderMap<HeaderValue>) -> Result<Fields, NoMemory>
    ensures { IfOk result (λ passed. passed ≡ passed_on fields.now) }
{
    let mut passed = Fields::new(alloc);
    for (name, value) in fields.iter() {
        pass(&mut passed, name.as_bytes(), value.as_bytes())?;
    }
    Ok(passed)
}

fn length_of(value: &[u8]) -> Option<u64>
    ensures { result ≡ length_of (number_of 10 value.now) }
{
    match read_decimal(value) {
        Number::Value(n) => Some(n),
        Number::Overflow => Some(u64::MAX),
        Number::NotANumber => None,
    }
}

/// The length that a gateway's answer states: the number of its Content-Length where there is exactly
/// one such field, of digits alone. A number past 64 bits counts as the greatest that they hold.
pub fn stated_length(fields: &HeaderMap<HeaderValue>) -> Option<u64>
    ensures { result ≡ stated_of fields.now }
{
    let mut lengths = fields.get_all(&CONTENT_LENGTH).iter();
    let first = lengths.next()?;
    match lengths.next() {
        Some(_) => None,
        None => length_of(first.as_bytes()),
    }
}
