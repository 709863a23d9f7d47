//! What a head of a response makes of an answer.
ghost use Rattle.std.specs.Prelude.{◌≡◌, ◌-◌, ◌<◌, ◌≤◌, ◌++◌, ℕ, List, length, take, codes, IfOk, IfSome, IfNone};
ghost use Rattle.http_header.specs.HeaderMap.{get_all};
ghost use Rattle.httparse.specs.Grammar.{ResponseHead, ReadsResponse};
ghost use Rattle.httparse.specs.Spans.{IsResponseWithin, IsResponseOf};
ghost use Rattle.http_head.specs.Ends.{head_end};
ghost use Rattle.http_head.specs.declared.ends.HeadEnd.TheVariants.{NotYet};
ghost use Rattle.lt_bytes.specs.Numbers.{number_of};
ghost use Rattle.proxy_message.specs.Stages as stages;
ghost use Rattle.proxy_message.specs.Progress as spec;
ghost use Rattle.proxy_message.specs.Feeding.{IsHeaded};

use crate::limits::BODY_LIMIT;
use crate::progress::Progress;
use crate::stage::Stage;
use cgi_text::{CgiHead, passed_fields, stated_length};
use http_head::{FIELD_LINE_LIMIT, HEAD_LIMIT, HeadEnd, head_end, read_fields};
use http_header::{CONTENT_LENGTH, HeaderMap, HeaderValue, TRANSFER_ENCODING};
use httparse::Status;
use httparse::spans::{EMPTY_HEADER_SPAN, HeaderSpan, ResponseSpans, parse_response};
use lt_bytes::{NoMemory, Number, Text, read_decimal, same_word};
use lt_http_body::{Body, Framing};
use std::alloc::Global;

/// A head that comes before that of the answer (RFC 9110, section 15.2). 101 is none: it ends HTTP on this link.
fn is_interim(status: u16) -> bool
    ensures { result ≡ stages.is_interim status }
{
    status >= 100 && status <= 199 && status != 101
}

fn is_final(status: u16) -> bool
    ensures { result ≡ stages.is_final status }
{
    status >= 200 && status <= 599
}

fn has_no_body(head_only: bool, status: u16) -> bool
    ensures { result ≡ stages.has_no_body head_only status }
{
    head_only || status == 204 || status == 304
}

fn of_length(n: u64) -> Stage
    ensures { result ≡ stages.of_length n }
{
    if n > BODY_LIMIT {
        Stage::TooLarge
    } else {
        Stage::Framed(Body::new(Framing::Length(n), BODY_LIMIT))
    }
}

fn stated(value: &[u8]) -> Stage
    ensures { result ≡ stages.stated_by (number_of 10 value.now) }
{
    match read_decimal(value) {
        Number::Value(n) => of_length(n),
        Number::Overflow => Stage::TooLarge,
        Number::NotANumber => Stage::BadAnswer,
    }
}

fn coded(coding: &[u8]) -> Stage
    ensures { result ≡ stages.coded_by coding.now }
{
    if same_word(coding, b"chunked".as_slice()) {
        Stage::Framed(Body::new(Framing::Chunked, BODY_LIMIT))
    } else {
        Stage::BadAnswer
    }
}

fn by_lengths(fields: &HeaderMap<HeaderValue>) -> Stage
    ensures { result ≡ stages.by_lengths (get_all fields.now (codes "content-length")) }
{
    let mut lengths = fields.get_all(&CONTENT_LENGTH).iter();
    let Some(length) = lengths.next() else {
        return Stage::ToEnd(BODY_LIMIT);
    };
    match lengths.next() {
        Some(_) => Stage::BadAnswer,
        None => stated(length.as_bytes()),
    }
}

fn by_codings(fields: &HeaderMap<HeaderValue>) -> Stage
    ensures { result ≡ stages.by_codings (get_all fields.now (codes "transfer-encoding")) (get_all fields.now (codes "content-length")) }
{
    let mut codings = fields.get_all(&TRANSFER_ENCODING).iter();
    let Some(coding) = codings.next() else {
        return by_lengths(fields);
    };
    match codings.next() {
        Some(_) => Stage::BadAnswer,
        None => coded(coding.as_bytes()),
    }
}

/// What follows a head with this status and these fields.
fn content_of(head_only: bool, status: u16, fields: &HeaderMap<HeaderValue>) -> Stage
    ensures { result ≡ stages.content_of head_only status fields.now }
{
    if has_no_body(head_only, status) {
        Stage::Done
    } else {
        by_codings(fields)
    }
}

fn is_refused(stage: &Stage) -> bool
    ensures { result ≡ stages.is_refused stage.now }
{
    matches!(stage, Stage::BadAnswer | Stage::TooLarge)
}

/// Behind the head of the answer.
fn behind_head(
    alloc: Global,
    head_only: bool,
    length: usize,
    status: u16,
    fields: &HeaderMap<HeaderValue>,
) -> Result<Progress, NoMemory>
    ensures { IfOk result (λ p. p ≡ spec.behind_head head_only (spec.head_of length status fields.now) (stages.content_of head_only status fields.now)) }
{
    let stage = content_of(head_only, status, fields);
    if is_refused(&stage) {
        return Ok(Progress::before(head_only, stage));
    }
    let head = CgiHead {
        status,
        fields: passed_fields(alloc, fields)?,
        length,
        stated: stated_length(fields),
    };
    Ok(Progress {
        head_only,
        head: Some(head),
        stage,
    })
}

fn by_status(
    alloc: Global,
    head_only: bool,
    length: usize,
    status: u16,
    fields: &HeaderMap<HeaderValue>,
) -> Result<Progress, NoMemory>
    ensures { IfOk result (λ p. p ≡ spec.by_status head_only length status fields.now) }
{
    if is_interim(status) {
        return Ok(Progress::begin(alloc, head_only));
    }
    if !is_final(status) {
        return Ok(Progress::before(head_only, Stage::BadAnswer));
    }
    behind_head(alloc, head_only, length, status, fields)
}

/// The spans of the head that the grammar reads, where there is room for its fields.
fn parsed(head: &[u8], spans: &mut [HeaderSpan]) -> Option<ResponseSpans>
    ensures within { IfSome result (IsResponseWithin head.now spans.new) }
    ensures some { IfSome result (IsResponseOf head.now spans.new) }
    ensures none { IfNone result ((h : ResponseHead) (rest : List ℕ) → ReadsResponse head.now h rest → length spans.old < length h.fields) }
{
    match parse_response(head, spans) {
        Ok(Status::Complete(found)) => Some(found),
        Ok(Status::Partial) => None,
        Err(_) => None,
    }
}

/// Behind a whole head.
fn judged(alloc: Global, head_only: bool, head: &[u8]) -> Result<Progress, NoMemory>
    ensures { IfOk result (λ p. p ≡ spec.judged head_only head.now) }
{
    let mut spans = [EMPTY_HEADER_SPAN; FIELD_LINE_LIMIT];
    let Some(found) = parsed(head, &mut spans) else {
        return Ok(Progress::before(head_only, Stage::BadAnswer));
    };
    // The map takes each name of a head within the limit, so that memory alone can be missing.
    let Ok(fields) = read_fields(alloc, head, &spans[..found.headers]) else {
        return Err(NoMemory);
    };
    by_status(alloc, head_only, head.len(), found.code, &fields)
}

/// Behind the first bytes of a head, of which `held` came before; and how many of the bytes it took.
pub(crate) fn headed(
    alloc: Global,
    head_only: bool,
    held: &Text,
    bytes: &[u8],
) -> Result<(Progress, usize), NoMemory>
    requires unfinished { head_end held.now ≡ NotYet }
    requires some { 0 < length bytes.now }
    ensures { IfOk result (λ r. IsHeaded head_only held.now bytes.now r.0 r.1) }
{
    let whole = joined(alloc, held, bytes)?;
    match head_end(whole.bytes()) {
        HeadEnd::At(n) => {
            let progress = judged(alloc, head_only, first(whole.bytes(), n))?;
            Ok((progress, n - held.len()))
        }
        HeadEnd::NotYet => {
            let taken = whole.len() - held.len();
            Ok((Progress::before(head_only, Stage::Head(whole)), taken))
        }
        HeadEnd::TooLarge => {
            let taken = whole.len() - held.len();
            Ok((Progress::before(head_only, Stage::BadAnswer), taken))
        }
    }
}

/// The bytes of a head that came, with as many more as the limit leaves room for.
fn joined(alloc: Global, held: &Text, bytes: &[u8]) -> Result<Text, NoMemory>
    requires { length held.now ≤ HEAD_LIMIT }
    ensures { IfOk result (λ whole. whole ≡ held.now ++ take (HEAD_LIMIT - length held.now) bytes.now) }
{
    let mut whole = Text::from_bytes(alloc, held.bytes())?;
    whole.push_all(first(bytes, HEAD_LIMIT - held.len()))?;
    Ok(whole)
}

fn first(bytes: &[u8], most: usize) -> &[u8]
    ensures { result.now ≡ take most bytes.now }
{
    if bytes.len() > most {
        &bytes[..most]
    } else {
        bytes
    }
}
