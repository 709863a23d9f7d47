//! The head of the request that an HTTP gateway is asked.
ghost use Rattle.std.specs.Prelude.{◌≡◌, ◌<◌, ◌++◌, ◌∷◌, [], codes, map, OnOk, IfOk};
ghost use Rattle.http_header.specs.HeaderMap.{get_all};
ghost use Rattle.http_reply.specs.Replies.{field_line};
ghost use Rattle.cgi_text.specs.Request.{parts_of};
ghost use Rattle.proxy_message.specs.Asking.{hex_digit, escaped_byte, escaped, request_line, is_own, is_of_connection, is_withheld, kept_line, kept_lines, listed, forwarded_line, length_line, last_lines, own_lines, ask_of};

use cgi_text::{GateRequest, push_ip};
use http_head::has_option;
use http_header::{HeaderMap, HeaderValue};
use lt_bytes::{NoMemory, Text, decimal};
use std::alloc::Global;

/// Room for most heads, so that few are written with growing.
const TYPICAL_HEAD: usize = 512;

/// The head of the request that a gateway is asked, up to and with its empty line. The body follows it as it came.
pub fn ask(alloc: Global, request: &GateRequest<'_>) -> Result<Text, NoMemory>
    ensures { IfOk result (λ text. text ≡ ask_of (parts_of request.now)) }
{
    let mut text = Text::with_capacity(alloc, TYPICAL_HEAD)?;
    push_request_line(&mut text, request.method, request.target)?;
    push_field(&mut text, b"Host", request.host_field)?;
    push_kept(&mut text, request.fields)?;
    push_own(&mut text, request)?;
    Ok(text)
}

#[tactic(auto, unfolding(crate::specs::Asking::request_line))]
fn push_request_line(text: &mut Text, method: &[u8], target: &[u8]) -> Result<(), NoMemory>
    ensures { OnOk result (text.new ≡ text.old ++ request_line method.now target.now) }
{
    text.push_all(method)?;
    text.push(b' ')?;
    push_escaped(text, target)?;
    text.push_all(b" HTTP/1.0\r\n")
}

fn push_escaped(text: &mut Text, target: &[u8]) -> Result<(), NoMemory>
    ensures { OnOk result (text.new ≡ text.old ++ escaped target.now) }
{
    for byte in target {
        push_escaped_byte(text, *byte)?;
    }
    Ok(())
}

/// A rewrite may give a target a byte that would split the request line.
fn push_escaped_byte(text: &mut Text, byte: u8) -> Result<(), NoMemory>
    ensures { OnOk result (text.new ≡ text.old ++ escaped_byte byte) }
{
    if byte <= b' ' || byte == 127 {
        return text.push_all(&[b'%', hex_digit(byte / 16), hex_digit(byte % 16)]);
    }
    text.push(byte)
}

fn hex_digit(digit: u8) -> u8
    requires { digit < 16 }
    ensures { result ≡ hex_digit digit }
{
    if digit < 10 {
        b'0' + digit
    } else {
        b'A' + (digit - 10)
    }
}

fn push_field(text: &mut Text, name: &[u8], value: &[u8]) -> Result<(), NoMemory>
    ensures { OnOk result (text.new ≡ text.old ++ field_line (name.now, value.now)) }
{
    text.push_all(name)?;
    text.push_all(b": ")?;
    text.push_all(value)?;
    text.push_all(b"\r\n")
}

/// The fields that are written here, and Expect, which was answered here.
#[tactic(auto, unfolding(crate::specs::Asking::is_own))]
fn is_own(name: &[u8]) -> bool
    ensures { result ≡ is_own name.now }
{
    name == b"content-length".as_slice()
        || name == b"expect".as_slice()
        || name == b"x-forwarded-for".as_slice()
        || name == b"x-forwarded-proto".as_slice()
        || name == b"x-host".as_slice()
        || name == b"host".as_slice()
}

/// The fields that speak of one connection alone (RFC 9110, section 7.6.1).
#[tactic(auto, unfolding(crate::specs::Asking::is_of_connection))]
fn is_of_connection(name: &[u8]) -> bool
    ensures { result ≡ is_of_connection name.now }
{
    name == b"connection".as_slice()
        || name == b"keep-alive".as_slice()
        || name == b"proxy-connection".as_slice()
        || name == b"proxy".as_slice()
        || name == b"trailer".as_slice()
        || name == b"transfer-encoding".as_slice()
        || name == b"upgrade".as_slice()
        || name == b"te".as_slice()
}

/// Whether a field of this name, in lower case, stays here.
fn is_withheld(fields: &HeaderMap<HeaderValue>, name: &[u8]) -> bool
    ensures { result ≡ is_withheld fields.now name.now }
{
    is_own(name) || is_of_connection(name) || has_option(fields, name)
}

fn push_kept_line(
    text: &mut Text,
    fields: &HeaderMap<HeaderValue>,
    name: &[u8],
    value: &[u8],
) -> Result<(), NoMemory>
    ensures { OnOk result (text.new ≡ text.old ++ kept_line fields.now (name.now, value.now)) }
{
    if is_withheld(fields, name) {
        return Ok(());
    }
    push_field(text, name, value)
}

/// The fields of the request that are passed on.
fn push_kept(text: &mut Text, fields: &HeaderMap<HeaderValue>) -> Result<(), NoMemory>
    ensures { OnOk result (text.new ≡ text.old ++ kept_lines fields.now) }
{
    for (name, value) in fields.iter() {
        push_kept_line(text, fields, name.as_bytes(), value.as_bytes())?;
    }
    Ok(())
}

/// The fields that are written here.
#[tactic(auto, unfolding(crate::specs::Asking::own_lines))]
fn push_own(text: &mut Text, request: &GateRequest<'_>) -> Result<(), NoMemory>
    ensures { OnOk result (text.new ≡ text.old ++ own_lines (parts_of request.now)) }
{
    push_forwarded(text, request)?;
    push_field(text, b"X-Host", request.host_field)?;
    push_last(text, request.framed, request.body_len)
}

#[tactic(auto, unfolding(crate::specs::Asking::last_lines))]
fn push_last(text: &mut Text, framed: bool, length: u64) -> Result<(), NoMemory>
    ensures { OnOk result (text.new ≡ text.old ++ last_lines framed length) }
{
    push_field(text, b"X-Forwarded-Proto", b"http")?;
    push_length(text, framed, length)?;
    push_field(text, b"Connection", b"close")?;
    text.push_all(b"\r\n")
}

#[tactic(auto, unfolding(crate::specs::Asking::forwarded_line))]
fn push_forwarded(text: &mut Text, request: &GateRequest<'_>) -> Result<(), NoMemory>
    ensures { OnOk result (text.new ≡ text.old ++ forwarded_line (parts_of request.now)) }
{
    text.push_all(b"X-Forwarded-For: ")?;
    push_listed(text, request.fields)?;
    push_ip(text, request.peer.ip)?;
    text.push_all(b"\r\n")
}

fn push_listed(text: &mut Text, fields: &HeaderMap<HeaderValue>) -> Result<(), NoMemory>
    ensures { OnOk result (text.new ≡ text.old ++ listed (get_all fields.now (codes "x-forwarded-for"))) }
{
    for value in fields.get_all("x-forwarded-for").iter() {
        text.push_all(value.as_bytes())?;
        text.push_all(b", ")?;
    }
    Ok(())
}

fn push_length(text: &mut Text, framed: bool, length: u64) -> Result<(), NoMemory>
    ensures { OnOk result (text.new ≡ text.old ++ length_line framed length) }
{
    if framed {
        return push_field(text, b"Content-Length", decimal(length).bytes());
    }
    Ok(())
}
