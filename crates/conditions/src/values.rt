//! The value of an attribute as a text.
ghost use Rattle.std.specs.Prelude.{◌≡◌, ◌++◌, ◌∷◌, [], codes, decimal, IfOk, OnOk, option_map};
ghost use Rattle.http_header.specs.HeaderMap.{get_all};
ghost use Rattle.http_header.specs.Token.{lowercase};
ghost use Rattle.conditions.specs.Attributes.{attributes_of, field_value, ip_text, joined, separator_of, socket_text, value_of};
ghost use Rattle.conditions.specs.Values.{bytes_of};

use crate::attrs::Attrs;
use conf_value::Field;
use http_header::{HeaderMap, HeaderValue};
use lt_bytes::{NoMemory, Text, decimal, same_word};
use lt_world::Address;
use std::alloc::Global;

/// Room for an address and a port.
const SOCKET_ROOM: usize = 21;

/// A text that is lent where it stands in the request as a whole, and made where it does not.
#[derive(Drop)]
pub(crate) enum Value<'r> {
    Lent(&'r [u8]),
    Made(Text),
}

impl Value<'_> {
    pub(crate) fn bytes(&self) -> &[u8]
        ensures { result.now ≡ bytes_of self.now }
    {
        match self {
            Value::Lent(bytes) => *bytes,
            Value::Made(text) => text.bytes(),
        }
    }
}

/// What stands between two values of a field.
fn separator_of(name: &[u8]) -> &'static [u8]
    ensures { result.now ≡ separator_of name.now }
{
    if same_word(name, b"cookie") {
        b"; "
    } else {
        b", "
    }
}

/// The values under a name, with the separator between each two. A lone value is lent.
fn joined<'r>(
    alloc: Global,
    fields: &'r HeaderMap<HeaderValue>,
    name: &[u8],
    separator: &[u8],
) -> Result<Value<'r>, NoMemory>
    ensures { IfOk result (λ value. bytes_of value ≡ joined separator.now (get_all fields.now (lowercase name.now))) }
{
    let mut values = fields.get_all(name).iter();
    let Some(first) = values.next() else {
        return Ok(Value::Lent(&[]));
    };
    let Some(second) = values.next() else {
        return Ok(Value::Lent(first.as_bytes()));
    };
    let mut text = Text::from_bytes(alloc, first.as_bytes())?;
    text.push_all(separator)?;
    text.push_all(second.as_bytes())?;
    for value in values {
        text.push_all(separator)?;
        text.push_all(value.as_bytes())?;
    }
    Ok(Value::Made(text))
}

fn field_value<'r>(
    alloc: Global,
    fields: &'r HeaderMap<HeaderValue>,
    name: &[u8],
) -> Result<Value<'r>, NoMemory>
    ensures { IfOk result (λ value. bytes_of value ≡ field_value fields.now name.now) }
{
    joined(alloc, fields, name, separator_of(name))
}

/// Adds a part of an address and the dot after it.
fn push_octet(text: &mut Text, octet: u8) -> Result<(), NoMemory>
    ensures { OnOk result (text.new ≡ text.old ++ (decimal octet ++ 46 ∷ [])) }
{
    text.push_all(decimal(u64::from(octet)).bytes())?;
    text.push(b'.')
}

/// Adds an address in dotted decimal form.
fn push_ip(text: &mut Text, ip: [u8; 4]) -> Result<(), NoMemory>
    ensures { OnOk result (text.new ≡ text.old ++ ip_text ip) }
{
    push_octet(text, ip[0])?;
    push_octet(text, ip[1])?;
    push_octet(text, ip[2])?;
    text.push_all(decimal(u64::from(ip[3])).bytes())
}

fn dotted(alloc: Global, ip: [u8; 4]) -> Result<Text, NoMemory>
    ensures { IfOk result (λ text. text ≡ ip_text ip) }
{
    let mut text = Text::with_capacity(alloc, SOCKET_ROOM)?;
    push_ip(&mut text, ip)?;
    Ok(text)
}

/// An address and its port.
pub(crate) fn socket(alloc: Global, address: &Address) -> Result<Text, NoMemory>
    ensures { IfOk result (λ text. text ≡ socket_text address.now) }
{
    let mut text = dotted(alloc, address.ip)?;
    text.push(b':')?;
    text.push_all(decimal(u64::from(address.port)).bytes())?;
    Ok(text)
}

/// The value of an attribute, if it is known.
pub(crate) fn value_of<'r>(
    alloc: Global,
    field: &Field,
    attrs: &Attrs<'r>,
) -> Result<Option<Value<'r>>, NoMemory>
    ensures { IfOk result (λ value. option_map bytes_of value ≡ value_of field.now (attributes_of attrs.now)) }
{
    match field {
        Field::Host => Ok(Some(Value::Lent(attrs.host))),
        Field::Url => Ok(Some(Value::Lent(attrs.url))),
        Field::Query => Ok(Some(Value::Lent(attrs.query))),
        Field::Method => Ok(Some(Value::Lent(attrs.method))),
        Field::Scheme => Ok(Some(Value::Lent(b"http"))),
        Field::UserAgent => Ok(Some(field_value(alloc, attrs.fields, b"User-Agent")?)),
        Field::Referer => Ok(Some(field_value(alloc, attrs.fields, b"Referer")?)),
        Field::Cookie => Ok(Some(field_value(alloc, attrs.fields, b"Cookie")?)),
        Field::Header(name) => Ok(Some(field_value(alloc, attrs.fields, name.bytes())?)),
        Field::RemoteIp => Ok(Some(Value::Made(dotted(alloc, attrs.peer.ip)?))),
        Field::Socket => Ok(Some(Value::Made(socket(alloc, &attrs.local)?))),
        Field::Physical => match attrs.physical {
            Some(path) => Ok(Some(Value::Lent(path))),
            None => Ok(None),
        },
    }
}
