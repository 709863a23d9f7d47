//! What the bytes of an application come to.
ghost use Rattle.std.specs.Prelude.{◌≡◌, ◌+◌, ◌*◌, ◌<◌, ◌≤◌, ◌^◌, ◌++◌, [], true, length, map, IfOk, OnOk, OnErr};
ghost use Rattle.buffer_pool.specs.Kept.{Kept, HeldWithin};
ghost use Rattle.chunkqueue.specs.Items.{Byte, items_of, count_of};
ghost use Rattle.cgi_text.specs.Head.{section_end, cgi_head};
ghost use Rattle.fcgi_records.specs.declared.state.State.{State};
ghost use Rattle.fcgi_records.specs.Reading.{state_after, stdout_in, said_at};
ghost use Rattle.fcgi_records.specs.States.{answer_from};
ghost use Rattle.fcgi_records.specs.Feeding.{AllInMemory, bytes_of};
ghost use Rattle.fcgi_gateway.specs.Heard.{start_at, is_too_long, judged, heard_of};
ghost use Rattle.fcgi_gateway.specs.Progress.{heard_at, is_whole, is_told};

use cgi_text::{CgiHead, CgiRefusal, read_cgi_head, section_end};
use chunkqueue::{Chunks, Queue, Store};
use fcgi_records::{Reader, ReaderState, RecordFault};
use http_head::{HEAD_LIMIT, HeadEnd};
use lt_bytes::NoMemory;
use std::alloc::Global;

/// The most bytes that the body of an answer may have.
pub const ANSWER_LIMIT: u64 = 4_194_304;

/// What the bytes of an application came to.
#[derive(Drop)]
pub(crate) enum Progress {
    /// More is to come.
    Partly,
    /// A whole answer with this head.
    Fully(CgiHead),
    /// No good answer begins with them.
    Breaks,
    /// The body is above its limit.
    Exceeds,
}

impl Progress {
    /// The head of a whole answer.
    pub(crate) fn head(self) -> CgiHead
        requires { is_whole self ≡ true }
        ensures { self ≡ Progress.Fully result }
    {
        match self {
            Progress::Fully(head) => head,
            Progress::Partly | Progress::Breaks | Progress::Exceeds => unreachable!(),
        }
    }
}

// Where the body begins.
fn start_of(front: &[u8]) -> u64
    ensures { result ≡ start_at (section_end front.now) }
{
    match section_end(front) {
        HeadEnd::At(n) => n as u64,
        HeadEnd::NotYet => HEAD_LIMIT as u64,
        HeadEnd::TooLarge => HEAD_LIMIT as u64,
    }
}

fn is_too_long(out: &Chunks) -> bool
    requires memory { AllInMemory (items_of out.now) }
    ensures { result ≡ is_too_long (bytes_of out.now) }
{
    if out.len() <= ANSWER_LIMIT {
        return false;
    }
    let mut front = [0; HEAD_LIMIT];
    let n = out.peek(&mut front);
    let (front, _) = front.split_at(n);
    ANSWER_LIMIT < out.len().saturating_sub(start_of(front))
}

// The head of a whole answer.
fn read_answer(alloc: Global, out: &Chunks) -> Result<Progress, NoMemory>
    ensures { IfOk result (λ found. heard_at (bytes_of out.now) found ≡ judged (bytes_of out.now) (cgi_head (bytes_of out.now))) }
{
    let mut front = [0; HEAD_LIMIT];
    let n = out.peek(&mut front);
    let (front, _) = front.split_at(n);
    match read_cgi_head(alloc, front) {
        Ok(head) => Ok(Progress::Fully(head)),
        Err(CgiRefusal::NoMemory) => Err(NoMemory),
        Err(CgiRefusal::NeedMore) => Ok(Progress::Breaks),
        Err(CgiRefusal::BadCgiHead) => Ok(Progress::Breaks),
        Err(CgiRefusal::CgiHeadTooLong) => Ok(Progress::Breaks),
    }
}

/// What the content of STDOUT comes to, by the answer of the reader of its records.
pub(crate) fn hear(
    alloc: Global,
    answered: Result<ReaderState, RecordFault>,
    out: &Chunks,
) -> Result<Progress, NoMemory>
    requires memory { AllInMemory (items_of out.now) }
    ensures { (s : State) → answered ≡ answer_from s
        → IfOk result (λ found. heard_at (bytes_of out.now) found ≡ heard_of (said_at s (bytes_of out.now))) }
{
    if is_too_long(out) {
        return Ok(Progress::Exceeds);
    }
    match answered {
        Ok(ReaderState::Open) => Ok(Progress::Partly),
        Ok(ReaderState::Done) => read_answer(alloc, out),
        Err(_) => Ok(Progress::Breaks),
    }
}

/// Reads the records among the bytes, and moves the content of STDOUT behind `out`.
pub(crate) fn feed(
    reader: &mut Reader,
    store: &mut Store,
    out: &mut Chunks,
    bytes: &[u8],
) -> Result<Result<ReaderState, RecordFault>, NoMemory>
    requires counted { HeldWithin store.old (length out.old.numbers) }
    requires fits { count_of out.old + length bytes.now < 2 ^ 63 }
    requires memory { AllInMemory (items_of out.old) }
    ensures answer { IfOk result (λ answered. answered ≡ answer_from (state_after reader.old bytes.now)) }
    ensures stands { OnOk result (reader.new ≡ state_after reader.old bytes.now) }
    ensures stdout { OnOk result (bytes_of out.new ≡ bytes_of out.old ++ stdout_in reader.old bytes.now) }
    ensures memory { AllInMemory (items_of out.new) }
    ensures filled { store.new.filled ≤ store.old.filled + 2 * length bytes.now }
    ensures kept { Kept store.old out.old.numbers store.new out.new.numbers }
{
    let mut input = Chunks::new();
    match input.push_bytes(store, bytes) {
        Ok(()) => {}
        Err(error) => {
            input.close(store);
            return Err(error);
        }
    }
    let answered = reader.feed(store, &mut input, out);
    input.close(store);
    match told(answered) {
        Ok(answered) => Ok(answered),
        Err(error) => Err(error),
    }
}

// The answer, unless memory was missing.
fn told(
    answered: Result<ReaderState, RecordFault>,
) -> Result<Result<ReaderState, RecordFault>, NoMemory>
    ensures same { IfOk result (λ r. r ≡ answered) }
    ensures told { OnOk result (is_told answered ≡ true) }
{
    match answered {
        Ok(state) => Ok(Ok(state)),
        Err(RecordFault::NoMemory) => Err(NoMemory),
        Err(RecordFault::WrongVersion) => Ok(Err(RecordFault::WrongVersion)),
        Err(RecordFault::WrongId) => Ok(Err(RecordFault::WrongId)),
        Err(RecordFault::WrongType) => Ok(Err(RecordFault::WrongType)),
        Err(RecordFault::WrongEnd) => Ok(Err(RecordFault::WrongEnd)),
        Err(RecordFault::Refused { protocol }) => Ok(Err(RecordFault::Refused { protocol })),
        Err(RecordFault::AfterEnd) => Ok(Err(RecordFault::AfterEnd)),
    }
}
