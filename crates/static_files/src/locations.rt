//! Where a request for a directory without its slash is sent, and which paths are never sent as files.
ghost use Rattle.std.specs.Prelude.{◌≡◌, ◌==◌, ◌++◌, IfOk, OnOk};
ghost use Rattle.std.specs.List.{list_any};
ghost use Rattle.static_files.specs.Locations.{is_kept, escaped_byte, escaped, query_part, location, ends_in, ends_in_text, is_excluded};
ghost use Rattle.static_files.specs.Texts.{text_in, texts_of};

use crate::texts::text_in;
use conf_value::Pair;
use lt_bytes::{NoMemory, Text};
use percent_encoding::percent_encode_byte;
use std::alloc::Global;

/// What stays as it is beside letters and digits.
const KEPT: &[u8] = b"-._~/!$&'()*+,;=:@";

fn is_among(bytes: &[u8], byte: u8) -> bool
    ensures { result ≡ list_any (λ kept. byte == kept) bytes.now }
{
    bytes.iter().any(|kept| byte == *kept)
}

fn is_kept(byte: u8) -> bool
    ensures { result ≡ is_kept byte }
{
    byte.is_ascii_alphanumeric() || is_among(KEPT, byte)
}

fn push_byte(text: &mut Text, byte: u8) -> Result<(), NoMemory>
    ensures { OnOk result (text.new ≡ text.old ++ escaped_byte byte) }
{
    if is_kept(byte) {
        return text.push(byte);
    }
    text.push_all(percent_encode_byte(byte).as_bytes())
}

/// The path with every other byte as its number.
fn push_escaped(text: &mut Text, path: &[u8]) -> Result<(), NoMemory>
    ensures { OnOk result (text.new ≡ text.old ++ escaped path.now) }
{
    for byte in path {
        push_byte(text, *byte)?;
    }
    Ok(())
}

fn push_query(text: &mut Text, query: &[u8]) -> Result<(), NoMemory>
    ensures { OnOk result (text.new ≡ text.old ++ query_part query.now) }
{
    if query.is_empty() {
        return Ok(());
    }
    text.push(b'?')?;
    text.push_all(query)
}

/// The value of the Location field that sends a request for a directory to its path with a final slash: the path
/// escaped, the slash, and the query as it was sent, if there is one.
pub fn location(alloc: Global, path: &[u8], query: &[u8]) -> Result<Text, NoMemory>
    ensures { IfOk result (λ text. text ≡ location path.now query.now) }
{
    // Most paths have nothing to escape.
    let room = path.len().saturating_add(query.len()).saturating_add(2);
    let mut text = Text::with_capacity(alloc, room)?;
    push_escaped(&mut text, path)?;
    text.push(b'/')?;
    push_query(&mut text, query)?;
    Ok(text)
}

pub(crate) fn ends_in(text: &[u8], end: &[u8]) -> bool
    ensures { result ≡ ends_in text.now end.now }
{
    text.ends_with(end)
}

// Whether the path ends in the text of this pair.
fn ends_in_text(path: &[u8], extension: &Pair) -> bool
    ensures { result ≡ ends_in_text path.now (text_in extension.now) }
{
    match text_in(extension) {
        Some(end) => ends_in(path, end),
        None => false,
    }
}

/// Whether the path ends in one of the extensions whose files aren't sent.
pub fn is_excluded(extensions: &[Pair], path: &[u8]) -> bool
    ensures { result ≡ is_excluded (texts_of extensions.now) path.now }
{
    for extension in extensions {
        if ends_in_text(path, extension) {
            return true;
        }
    }
    false
}
