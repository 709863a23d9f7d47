//! What a whole request head says.
ghost use Rattle.std.specs.Prelude.{◌≡◌, ◌≤◌, length, Err, IfSome, IfNone};
ghost use Rattle.httparse.specs.Grammar.{HasNoRequest};
ghost use Rattle.httparse.specs.Spans.{IsRequestWithin, IsRequestOf};
ghost use Rattle.http_head.specs.Lines.{field_lines};
ghost use Rattle.http_head.specs.Head.{request_of, head_of, Says};

use crate::fields::read_fields;
use crate::framing::{Framing, framing_of};
use crate::host::{has_bad_host, host, host_field};
use crate::limits::FIELD_LINE_LIMIT;
use crate::lines::{ends_in_other_version, field_lines, start_line};
use crate::options::{closes, expects};
use crate::refusal::HeadRefusal;
use http_header::{HeaderMap, HeaderValue};
use http_target::{Target, TargetRefusal, read_target};
use httparse::Status;
use httparse::spans::{EMPTY_HEADER_SPAN, HeaderSpan, RequestSpans, parse_request};
use lt_bytes::Text;
use std::alloc::Global;

/// A request, as its head says.
#[derive(Drop)]
pub struct Request {
    pub method: Text,
    /// The target as it stands in the start line.
    pub sent: Text,
    /// The target in origin form, its path and its query.
    pub target: Target,
    /// The minor version: 0 for HTTP/1.0, 1 for HTTP/1.1.
    pub minor: u8,
    /// The host without its port, in lower case.
    pub host: Text,
    /// The authority of a target in absolute form, else the value of Host; empty where there is
    /// neither.
    pub host_field: Text,
    /// The fields, the names in order of first coming. Never `remove` from it: that breaks the
    /// order.
    pub fields: HeaderMap<HeaderValue>,
    /// How long the body is.
    pub framing: Framing,
    /// The connection does not persist: Connection has the option `close`, or the version is
    /// HTTP/1.0 and Connection has no option `keep-alive`.
    pub close: bool,
    /// The client waits for 100 (Continue) before it sends the body.
    pub expect: bool,
}

/// The spans of the head that the grammar reads, where there is room for its fields.
fn parsed(head: &[u8], spans: &mut [HeaderSpan]) -> Option<RequestSpans>
    ensures within { IfSome result (IsRequestWithin head.now spans.new) }
    ensures some { IfSome result (IsRequestOf head.now spans.new) }
    ensures none { IfNone result (field_lines head.now ≤ length spans.old → HasNoRequest head.now) }
{
    match parse_request(head, spans) {
        Ok(Status::Complete(found)) => Some(found),
        Ok(Status::Partial) => None,
        Err(_) => None,
    }
}

/// The request by the words of the start line and the fields, or the first fault in them.
fn judged(
    alloc: Global,
    minor: u8,
    method: &[u8],
    sent: &[u8],
    fields: HeaderMap<HeaderValue>,
) -> Result<Request, HeadRefusal>
    ensures { Says (request_of minor method.now sent.now fields) result }
{
    if has_bad_host(minor, &fields) {
        return Err(HeadRefusal::BadHead);
    }
    let framing = match framing_of(minor, &fields) {
        Ok(framing) => framing,
        Err(refusal) => return Err(refusal),
    };
    if method == b"CONNECT".as_slice() {
        return Err(HeadRefusal::NotImplemented);
    }
    let target = match read_target(alloc, sent) {
        Ok(target) => target,
        Err(TargetRefusal::BadTarget) => return Err(HeadRefusal::BadTarget),
        Err(TargetRefusal::NoMemory) => return Err(HeadRefusal::NoMemory),
    };
    let field = host_field(sent, &fields);
    let host = host(alloc, field)?;
    let host_field = Text::from_bytes(alloc, field)?;
    let close = closes(minor, &fields);
    let expect = expects(minor, &fields);
    Ok(Request {
        method: Text::from_bytes(alloc, method)?,
        sent: Text::from_bytes(alloc, sent)?,
        target,
        minor,
        host,
        host_field,
        fields,
        framing,
        close,
        expect,
    })
}

/// Why a head is refused that the grammar does not read.
fn unread(head: &[u8]) -> HeadRefusal
    requires none { field_lines head.now ≤ FIELD_LINE_LIMIT → HasNoRequest head.now }
    ensures { head_of head.now ≡ Err result }
{
    if field_lines(head) > FIELD_LINE_LIMIT {
        HeadRefusal::TooLarge
    } else if ends_in_other_version(start_line(head)) {
        HeadRefusal::BadVersion
    } else {
        HeadRefusal::BadHead
    }
}

/// What a whole head says, or the first reason to refuse it: more field lines than the limit;
/// another version; a head that the grammar does not read; the wrong number of Host fields; a body
/// framed in two ways, in an unknown way, or by no number; CONNECT; a bad target.
pub fn read_head(alloc: Global, head: &[u8]) -> Result<Request, HeadRefusal>
    ensures { Says (head_of head.now) result }
{
    // A head that is read has no more field lines than there is room for, and its version is known.
    let mut spans = [EMPTY_HEADER_SPAN; FIELD_LINE_LIMIT];
    let Some(found) = parsed(head, &mut spans) else {
        return Err(unread(head));
    };
    let fields = match read_fields(alloc, head, &spans[..found.headers]) {
        Ok(fields) => fields,
        Err(refusal) => return Err(refusal),
    };
    judged(
        alloc,
        found.version,
        found.method.of(head),
        found.path.of(head),
        fields,
    )
}
