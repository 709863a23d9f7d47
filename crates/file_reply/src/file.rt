//! What an opened file answers.
ghost use Rattle.std.specs.Prelude.{◌≡◌, ◌<◌, ◌≤◌, ◌+◌, ◌++◌, IfOk, OnOk};
ghost use Rattle.static_files.specs.Ranges.{LiesIn};
ghost use Rattle.file_reply.specs.Answers as spec;

use crate::answers::{Answer, Content};
use crate::asked::{is_fresh, range_for};
use http_head::Request;
use http_reply::Fields;
use lt_bytes::{NoMemory, Text, decimal};
use static_files::{Range, last_modified};
use std::alloc::Global;

/// No Content-Range is longer: `bytes `, a dash, a slash, and three numbers of 64 bits.
const LONGEST_CONTENT_RANGE: usize = 68;

fn add_date(alloc: Global, fields: &mut Fields, date: &[u8]) -> Result<(), NoMemory>
    ensures { OnOk result (fields.new ≡ fields.old ++ spec.date_field (Some date.now)) }
{
    let date = Text::from_bytes(alloc, date)?;
    fields.add_text(b"Last-Modified", date)
}

fn add_modified(alloc: Global, fields: &mut Fields, time: u64) -> Result<(), NoMemory>
    ensures { OnOk result (fields.new ≡ fields.old ++ spec.modified_field time) }
{
    match last_modified(time) {
        Some(date) => add_date(alloc, fields, &date),
        None => Ok(()),
    }
}

fn file_fields(alloc: Global, media_type: &[u8], time: u64) -> Result<Fields, NoMemory>
    ensures { IfOk result (λ fields. fields ≡ spec.file_fields media_type.now time) }
{
    let mut fields = Fields::new(alloc);
    let media_type = Text::from_bytes(alloc, media_type)?;
    fields.add_text(b"Content-Type", media_type)?;
    fields.add_constant(b"Accept-Ranges", b"bytes")?;
    add_modified(alloc, &mut fields, time)?;
    Ok(fields)
}

/// Where a part lies in a file: its first and its last byte.
fn part_text(alloc: Global, start: u64, len: u64, size: u64) -> Result<Text, NoMemory>
    requires some { 0 < len }
    requires within { start + len ≤ size }
    ensures { IfOk result (λ text. text ≡ spec.part_text start len size) }
{
    let mut text = Text::with_capacity(alloc, LONGEST_CONTENT_RANGE)?;
    text.push_all(b"bytes ")?;
    text.push_all(decimal(start).bytes())?;
    text.push(b'-')?;
    text.push_all(decimal(start + len - 1).bytes())?;
    text.push(b'/')?;
    text.push_all(decimal(size).bytes())?;
    Ok(text)
}

fn unsatisfied_text(alloc: Global, size: u64) -> Result<Text, NoMemory>
    ensures { IfOk result (λ text. text ≡ spec.unsatisfied_text size) }
{
    let mut text = Text::with_capacity(alloc, LONGEST_CONTENT_RANGE)?;
    text.push_all(b"bytes */")?;
    text.push_all(decimal(size).bytes())?;
    Ok(text)
}

fn not_modified(alloc: Global, time: u64) -> Result<Answer, NoMemory>
    ensures { IfOk result (λ answer. answer ≡ spec.not_modified time) }
{
    let mut validators = Fields::new(alloc);
    add_modified(alloc, &mut validators, time)?;
    Ok(Answer {
        status: 304,
        fields: validators,
        content: Content::Part { start: 0, len: 0 },
    })
}

fn whole(alloc: Global, media_type: &[u8], size: u64, time: u64) -> Result<Answer, NoMemory>
    ensures { IfOk result (λ answer. answer ≡ spec.ranged media_type.now size time Range.Whole) }
{
    let fields = file_fields(alloc, media_type, time)?;
    Ok(Answer {
        status: 200,
        fields,
        content: Content::Part {
            start: 0,
            len: size,
        },
    })
}

fn part(
    alloc: Global,
    media_type: &[u8],
    size: u64,
    time: u64,
    start: u64,
    len: u64,
) -> Result<Answer, NoMemory>
    requires some { 0 < len }
    requires within { start + len ≤ size }
    ensures { IfOk result (λ answer. answer ≡ spec.ranged media_type.now size time (Range.Part start len)) }
{
    let mut fields = file_fields(alloc, media_type, time)?;
    let place = part_text(alloc, start, len, size)?;
    fields.add_text(b"Content-Range", place)?;
    Ok(Answer {
        status: 206,
        fields,
        content: Content::Part { start, len },
    })
}

fn unsatisfied(alloc: Global, size: u64) -> Result<Answer, NoMemory>
    ensures { IfOk result (λ answer. answer ≡ spec.unsatisfied size) }
{
    let mut fields = Fields::new(alloc);
    let text = unsatisfied_text(alloc, size)?;
    fields.add_text(b"Content-Range", text)?;
    Ok(Answer {
        status: 416,
        fields,
        content: Content::Phrase,
    })
}

fn ranged(
    alloc: Global,
    media_type: &[u8],
    size: u64,
    time: u64,
    range: Range,
) -> Result<Answer, NoMemory>
    requires { LiesIn range size }
    ensures { IfOk result (λ answer. answer ≡ spec.ranged media_type.now size time range) }
{
    match range {
        Range::Whole => whole(alloc, media_type, size, time),
        Range::Part { start, len } => part(alloc, media_type, size, time, start, len),
        Range::Unsatisfiable => unsatisfied(alloc, size),
    }
}

/// What a file of this media type, size and time answers to a request by GET or HEAD: all of it, the part that a Range
/// asks for, that no byte of it is in the range, or that it wasn't changed. The time is in seconds since 1970.
pub fn answer(
    alloc: Global,
    media_type: &[u8],
    request: &Request,
    size: u64,
    time: u64,
) -> Result<Answer, NoMemory>
    ensures { IfOk result (λ answer. answer ≡ spec.answer media_type.now request.now.method request.now.fields size time) }
{
    if is_fresh(&request.fields, time) {
        return not_modified(alloc, time);
    }
    let range = range_for(request.method.bytes(), &request.fields, size);
    ranged(alloc, media_type, size, time, range)
}
