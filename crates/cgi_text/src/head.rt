//! The head of a gateway's answer (RFC 3875, section 6).
ghost use Rattle.std.specs.Prelude.{◌≡◌, ◌<◌, ◌≤◌, List, ℕ, length, IfSome, IfNone};
ghost use Rattle.httparse.specs.Grammar.{Field, LineEnd, ReadsSection};
ghost use Rattle.httparse.specs.Spans.{IsSectionWithin, IsSectionOf};
ghost use Rattle.http_head.specs.Lines.{empty_line};
ghost use Rattle.http_head.specs.Ends.{IsWithin};
ghost use Rattle.cgi_text.specs.Head.{Says, cgi_head, head_by, section_end};

use crate::passed::{passed_fields, stated_length};
use crate::status::status_of;
use http_head::{FIELD_LINE_LIMIT, HeadEnd, head_end, read_fields};
use http_header::{HeaderMap, HeaderValue};
use http_reply::Fields;
use httparse::Status;
use httparse::spans::{EMPTY_HEADER_SPAN, HeaderSpan, parse_headers};
use lt_bytes::NoMemory;
use std::alloc::Global;

/// What the head of a gateway's answer says.
#[derive(Debug, Drop)]
pub struct CgiHead {
    /// The status of the reply, from 200 to 599.
    pub status: u16,
    /// The fields that the client gets, their names in lower case.
    pub fields: Fields,
    /// The number of the head's bytes, its empty line among them.
    pub length: usize,
    /// The length that the head states for its body.
    pub stated: Option<u64>,
}

/// Why there is no head.
#[derive(Clone, Copy, Debug, PartialEq, Eq)]
pub enum CgiRefusal {
    /// It has not ended, and there are fewer bytes than its limit.
    NeedMore,
    /// It has ended, and has too many field lines, one that is not read, or no status in range.
    BadCgiHead,
    /// It has not ended within its limit.
    CgiHeadTooLong,
    NoMemory,
}

impl From<NoMemory> for CgiRefusal {
    ghost use Rattle.cgi_text.specs.declared.head.CgiRefusal.TheVariants.{NoMemory};

    ghost from_gives = { λ _ e. e ≡ NoMemory };

    fn from(_want: NoMemory) -> CgiRefusal {
        CgiRefusal::NoMemory
    }
}

/// The length of the empty line at the front, LF or CR LF; 0 where none is there.
fn empty_line(bytes: &[u8]) -> usize
    ensures value { result ≡ empty_line bytes.now }
    ensures within { result ≤ length bytes.now }
{
    match bytes {
        [b'\n', ..] => 1,
        [b'\r', b'\n', ..] => 2,
        _ => 0,
    }
}

/// Where the head ends: behind its first empty line, before which no line need stand.
pub fn section_end(bytes: &[u8]) -> HeadEnd
    ensures value { result ≡ section_end bytes.now }
    ensures within { IsWithin (length bytes.now) result }
{
    let empty = empty_line(bytes);
    if empty > 0 {
        return HeadEnd::At(empty);
    }
    head_end(bytes)
}

/// How long the field lines and their empty line are, and how many spans cover them, where the
/// grammar reads them and there is room.
fn parsed(head: &[u8], spans: &mut [HeaderSpan]) -> Option<(usize, usize)>
    ensures within { IfSome result (λ r. IsSectionWithin head.now spans.new r.0 r.1) }
    ensures some { IfSome result (IsSectionOf head.now 0 spans.new) }
    ensures none { IfNone result ((fields : List Field) (last : LineEnd) (rest : List ℕ)
        → ReadsSection head.now fields last rest → length spans.old < length fields) }
{
    match parse_headers(head, spans) {
        Ok(Status::Complete(found)) => Some(found),
        Ok(Status::Partial) => None,
        Err(_) => None,
    }
}

/// The head of so many bytes with these fields, or that its status is bad.
fn judged(
    alloc: Global,
    size: usize,
    fields: &HeaderMap<HeaderValue>,
) -> Result<CgiHead, CgiRefusal>
    ensures { Says (head_by size fields.now) result }
{
    let Some(status) = status_of(fields) else {
        return Err(CgiRefusal::BadCgiHead);
    };
    let stated = stated_length(fields);
    Ok(CgiHead {
        status,
        fields: passed_fields(alloc, fields)?,
        length: size,
        stated,
    })
}

/// The head at the front of a gateway's answer, or why there is none: it has not ended, within its
/// limit or at all, or it has more than 64 field lines, one that the grammar does not read, or no
/// status from 200 to 599.
pub fn read_cgi_head(alloc: Global, bytes: &[u8]) -> Result<CgiHead, CgiRefusal>
    ensures { Says (cgi_head bytes.now) result }
{
    let size = match section_end(bytes) {
        HeadEnd::At(size) => size,
        HeadEnd::NotYet => return Err(CgiRefusal::NeedMore),
        HeadEnd::TooLarge => return Err(CgiRefusal::CgiHeadTooLong),
    };
    let (head, _) = bytes.split_at(size);
    let mut spans = [EMPTY_HEADER_SPAN; FIELD_LINE_LIMIT];
    let Some((_, count)) = parsed(head, &mut spans) else {
        return Err(CgiRefusal::BadCgiHead);
    };
    // The grammar read each field, and no name in so short a head is too long: only memory is short.
    let Ok(fields) = read_fields(alloc, head, &spans[..count]) else {
        return Err(CgiRefusal::NoMemory);
    };
    judged(alloc, size, &fields)
}
