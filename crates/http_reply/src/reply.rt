//! The head of a reply, and whole error replies (RFC 9112, section 4).
ghost use Rattle.std.specs.Prelude.{◌≡◌, ◌++◌, ◌∷◌, length, flat_map, decimal, map, IfOk, IsTrue, OnOk};
ghost use Rattle.http_reply.specs.FieldLines.{line_of};
ghost use Rattle.http_reply.specs.Phrases.{phrase};
ghost use Rattle.http_reply.specs.Replies.{connection_field, crlf, error_body, error_reply, field_line, has_no_body, length_field, own_fields, reply_head, server_field, stated_length, status_line};
ghost use Rattle.http_reply.specs.Spelled.{parts_of};

use crate::fields::{Field, Fields};
use crate::phrase;
use lt_bytes::{NoMemory, Text, decimal};
use std::alloc::Global;

/// Room for the head of a file's reply, and for an error reply: most are written without growing.
const TYPICAL_REPLY: usize = 256;

/// What a head says beside its fields.
#[derive(Clone, Copy, Debug)]
pub struct Spelling<'a> {
    /// The version that is written is HTTP/1 and this.
    pub minor: u8,
    pub status: u16,
    /// The length of the body, where one is to be stated. 204 and 304 state none.
    pub length: Option<u64>,
    /// The reply is the last of its connection: `Connection: close`.
    pub last: bool,
    /// The connection is kept in HTTP/1.0: `Connection: keep-alive`.
    pub keep: bool,
    /// The value of `Server`, written unless a field is named so.
    pub tag: &'a [u8],
}

/// The head of a reply, up to and with its empty line.
pub fn reply_head(alloc: Global, spelling: &Spelling<'_>, fields: &Fields) -> Result<Text, NoMemory>
    requires { ¬ (IsTrue spelling.now.last × IsTrue spelling.now.keep) }
    ensures head { IfOk result (λ text. text ≡ reply_head (parts_of spelling.now) fields.now) }
{
    let mut text = Text::with_capacity(alloc, TYPICAL_REPLY)?;
    push_given(&mut text, spelling, fields)?;
    push_own(&mut text, spelling, fields)?;
    Ok(text)
}

/// An error reply, whole: its own fields, `Content-Type: text/plain` and the number and the phrase as
/// its body. Its length is that of this body, whatever the spelling says; a HEAD request gets the
/// head alone.
pub fn error_reply(
    alloc: Global,
    spelling: &Spelling<'_>,
    fields: &Fields,
    head_only: bool,
) -> Result<Text, NoMemory>
    requires { ¬ (IsTrue spelling.now.last × IsTrue spelling.now.keep) }
    ensures reply { IfOk result (λ text. text ≡ error_reply (parts_of spelling.now) fields.now head_only) }
{
    let spelling = Spelling {
        length: Some(error_length(spelling.status)),
        ..*spelling
    };
    let mut text = Text::with_capacity(alloc, TYPICAL_REPLY)?;
    push_given(&mut text, &spelling, fields)?;
    push_field(&mut text, b"Content-Type", b"text/plain")?;
    push_own(&mut text, &spelling, fields)?;
    if !head_only && !has_no_body(spelling.status) {
        push_error_body(&mut text, spelling.status)?;
    }
    Ok(text)
}

/// Writes the start line and the fields that were given.
fn push_given(text: &mut Text, spelling: &Spelling<'_>, fields: &Fields) -> Result<(), NoMemory>
    ensures { OnOk result (text.new ≡ text.old ++ (status_line spelling.now.minor spelling.now.status ++ flat_map field_line fields.now)) }
{
    push_status_line(text, spelling.minor, spelling.status)?;
    push_fields(text, fields)
}

/// Writes the fields that the spelling gives, and the empty line.
fn push_own(text: &mut Text, spelling: &Spelling<'_>, fields: &Fields) -> Result<(), NoMemory>
    ensures { OnOk result (text.new ≡ text.old ++ (flat_map field_line (own_fields (parts_of spelling.now) fields.now) ++ crlf)) }
{
    push_length(text, spelling.status, spelling.length)?;
    push_connection(text, spelling.last, spelling.keep)?;
    push_server(text, fields, spelling.tag)?;
    text.push_all(b"\r\n")
}

fn has_no_body(status: u16) -> bool
    ensures { result ≡ has_no_body status }
{
    status == 204 || status == 304
}

fn push_status_line(text: &mut Text, minor: u8, status: u16) -> Result<(), NoMemory>
    ensures { OnOk result (text.new ≡ text.old ++ status_line minor status) }
{
    text.push_all(b"HTTP/1.")?;
    text.push_all(decimal(u64::from(minor)).bytes())?;
    text.push(b' ')?;
    text.push_all(decimal(u64::from(status)).bytes())?;
    text.push(b' ')?;
    text.push_all(phrase(status))?;
    text.push_all(b"\r\n")
}

fn push_field(text: &mut Text, name: &[u8], value: &[u8]) -> Result<(), NoMemory>
    ensures { OnOk result (text.new ≡ text.old ++ field_line (name.now, value.now)) }
{
    text.push_all(name)?;
    text.push_all(b": ")?;
    text.push_all(value)?;
    text.push_all(b"\r\n")
}

fn push_fields(text: &mut Text, fields: &Fields) -> Result<(), NoMemory>
    ensures { OnOk result (text.new ≡ text.old ++ flat_map field_line fields.now) }
{
    push_lines(text, fields.lines())
}

fn push_lines(text: &mut Text, lines: &[Field]) -> Result<(), NoMemory>
    ensures { OnOk result (text.new ≡ text.old ++ flat_map field_line (map line_of lines.now)) }
{
    for line in lines {
        push_field(text, line.name.bytes(), line.value.bytes())?;
    }
    Ok(())
}

fn push_length(text: &mut Text, status: u16, length: Option<u64>) -> Result<(), NoMemory>
    ensures { OnOk result (text.new ≡ text.old ++ flat_map field_line (length_field status length)) }
{
    if has_no_body(status) {
        return Ok(());
    }
    push_stated_length(text, length)
}

fn push_stated_length(text: &mut Text, length: Option<u64>) -> Result<(), NoMemory>
    ensures { OnOk result (text.new ≡ text.old ++ flat_map field_line (stated_length length)) }
{
    match length {
        Some(n) => push_field(text, b"Content-Length", decimal(n).bytes()),
        None => Ok(()),
    }
}

fn push_connection(text: &mut Text, last: bool, keep: bool) -> Result<(), NoMemory>
    ensures { OnOk result (text.new ≡ text.old ++ flat_map field_line (connection_field last keep)) }
{
    if last {
        return push_field(text, b"Connection", b"close");
    }
    if keep {
        return push_field(text, b"Connection", b"keep-alive");
    }
    Ok(())
}

fn push_server(text: &mut Text, fields: &Fields, tag: &[u8]) -> Result<(), NoMemory>
    ensures { OnOk result (text.new ≡ text.old ++ flat_map field_line (server_field fields.now tag.now)) }
{
    if fields.names_server() {
        return Ok(());
    }
    push_field(text, b"Server", tag)
}

/// The length of the body that `push_error_body` writes.
fn error_length(status: u16) -> u64
    ensures { result ≡ length (error_body status) }
{
    let digits = decimal(u64::from(status)).bytes().len();
    (digits + phrase(status).len() + 2) as u64
}

fn push_error_body(text: &mut Text, status: u16) -> Result<(), NoMemory>
    ensures { OnOk result (text.new ≡ text.old ++ error_body status) }
{
    text.push_all(decimal(u64::from(status)).bytes())?;
    text.push(b' ')?;
    text.push_all(phrase(status))?;
    text.push(b'\n')
}
