//! What comes before the content of the body.
ghost use Rattle.std.specs.Prelude.{◌≡◌, ◌<◌, ◌++◌, length, IfOk, OnOk};
ghost use Rattle.fcgi_records.specs.Encoded.{header_of, begin_request};
ghost use Rattle.fcgi_gateway.specs.Asked.{stream, lead_of};

use crate::sending::RECORD_SIZE;
use fcgi_records::{PARAMS, STDIN, encode_begin, encode_header};
use lt_bytes::{NoMemory, Text};
use std::alloc::Global;

/// BEGIN_REQUEST, the stream of these parameters, and the header of the first record of a body of so many bytes.
pub(crate) fn lead(alloc: Global, params: &[u8], body_len: u64) -> Result<Text, NoMemory>
    ensures { IfOk result (λ text. text ≡ lead_of params.now body_len) }
{
    let mut text = Text::from_bytes(alloc, &encode_begin())?;
    push_stream(&mut text, PARAMS, params)?;
    push_header(&mut text, STDIN, body_len.min(RECORD_SIZE as u64) as u16)?;
    Ok(text)
}

fn push_header(text: &mut Text, kind: u8, length: u16) -> Result<(), NoMemory>
    ensures { OnOk result (text.new ≡ text.old ++ header_of kind length) }
{
    text.push_all(&encode_header(kind, length))
}

// Adds a record with this content.
fn push_record(text: &mut Text, kind: u8, content: &[u8]) -> Result<(), NoMemory>
    requires { length content.now < 65_536 }
    ensures { OnOk result (text.new ≡ text.old ++ (header_of kind (length content.now) ++ content.now)) }
{
    push_header(text, kind, content.len() as u16)?;
    text.push_all(content)
}

// Adds the records of a stream, and the empty one that ends it.
fn push_stream(text: &mut Text, kind: u8, bytes: &[u8]) -> Result<(), NoMemory>
    ensures { OnOk result (text.new ≡ text.old ++ stream kind bytes.now) }
{
    let mut rest = bytes;
    while rest.len() > 0 {
        let (piece, more) = rest.split_at(rest.len().min(RECORD_SIZE));
        push_record(text, kind, piece)?;
        rest = more;
    }
    push_header(text, kind, 0)
}
