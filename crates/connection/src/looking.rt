//! Looking for a head at the front of what came.
ghost use Rattle.std.specs.Prelude.{◌≡◌, ◌≤◌, ℕ, length, take, drop, true, IfOk, OnErr};
ghost use Rattle.buffer_pool.specs.Kept.{Kept, HeldWithin};
ghost use Rattle.chunkqueue.specs.Items.{items_of, count_of, memory_front};
ghost use Rattle.http_head.specs.declared.limits.TheConstants.{HEAD_LIMIT};
ghost use Rattle.http_head.specs.declared.ends.HeadEnd.TheVariants.{At};
ghost use Rattle.http_head.specs.Ends.{head_end, IsWithin};
ghost use Rattle.http_head.specs.Scan.{IsScan};
ghost use Rattle.http_head.specs.Head.{head_of};
ghost use Rattle.server_model.specs.Request.{status_of};
ghost use Rattle.server_model.specs.Reply.{is_accepted, continue_bytes};
ghost use Rattle.server_model.specs.Steps.{is_in_memory};
ghost use Rattle.connection.specs.Looking.{looked_by, taken_in, progress_of, IsLooked};

use crate::progress::Progress;
use chunkqueue::{Chunks, Queue, Store};
use http_head::{Framing, HeadEnd, HeadRefusal, HeadScan, Request, read_head};
use lt_bytes::{NoMemory, Text};
use std::alloc::Global;

/// What stands at the front of what came.
#[derive(Drop)]
pub(crate) enum Looked {
    /// No whole head is there yet.
    Unfinished,
    /// A head that is refused with this status.
    Refused(u16),
    /// A head that was read, and how many bytes it takes.
    Headed(Request, usize),
}

impl Looked {
    /// How many bytes are taken up with it.
    pub(crate) fn taken(&self) -> usize
        ensures { result ≡ taken_in self.now }
    {
        match self {
            Looked::Headed(_, taken) => *taken,
            Looked::Unfinished | Looked::Refused(_) => 0,
        }
    }

    /// How far the request is then.
    pub(crate) fn progress(self, scan: HeadScan) -> Progress
        ensures { result ≡ progress_of self scan }
    {
        match self {
            Looked::Unfinished => Progress::Awaiting(scan),
            Looked::Refused(status) => Progress::Refused(status),
            Looked::Headed(request, _) => Progress::Heading(request),
        }
    }
}

/// Whether a body follows that is accepted: in chunks, or of a stated length that is within the limit.
fn is_accepted(framing: Framing, limit: u64) -> bool
    ensures { result ≡ is_accepted framing limit }
{
    match framing {
        Framing::None => false,
        Framing::Length(length) => 0 < length && length <= limit,
        Framing::Chunked => true,
    }
}

/// What a client is told first, where it waits for that (RFC 9110, sections 10.1.1 and 15.2.1).
pub(crate) fn continue_bytes(request: &Request, limit: u64) -> &'static [u8]
    ensures bytes { result.now ≡ continue_bytes request.now limit }
    ensures most { length result.now ≤ 25 }
{
    if request.expect && is_accepted(request.framing, limit) {
        b"HTTP/1.1 100 Continue\r\n\r\n"
    } else {
        b""
    }
}

/// The status with which a head is refused.
fn status_of(refusal: HeadRefusal) -> u16
    ensures { result ≡ status_of refusal }
{
    match refusal {
        HeadRefusal::BadHead | HeadRefusal::BadTarget => 400,
        HeadRefusal::TooLarge => 431,
        HeadRefusal::BadVersion => 505,
        HeadRefusal::NotImplemented => 501,
        HeadRefusal::NoMemory => 500,
    }
}

/// What a whole head asks for.
fn judged(alloc: Global, head: &[u8]) -> Result<Looked, NoMemory>
    ensures { IfOk result (λ found. found ≡ looked_by (length head.now) (head_of head.now)) }
{
    match read_head(alloc, head) {
        Ok(request) => Ok(Looked::Headed(request, head.len())),
        Err(HeadRefusal::NoMemory) => Err(NoMemory),
        Err(refusal) => Ok(Looked::Refused(status_of(refusal))),
    }
}

/// What was seen of all that came, where it lies, as far as the head tells its end.
pub(crate) fn scanned(input: &Chunks) -> HeadScan
    ensures scan { IsScan (memory_front (items_of input.now)) result }
{
    let mut scan = HeadScan::new();
    for slice in input.slices() {
        scan = scan.see(slice);
        let HeadEnd::NotYet = scan.end() else {
            return scan;
        };
    }
    scan
}

// The first `n` bytes, one after another, where they lie in several chunks.
fn gathered(alloc: Global, input: &Chunks, n: usize) -> Result<Text, NoMemory>
    requires within { n ≤ length (memory_front (items_of input.now)) }
    ensures { IfOk result (λ text. text ≡ take n (memory_front (items_of input.now))) }
{
    let mut text = Text::with_capacity(alloc, n)?;
    for slice in input.slices() {
        let left = n - text.len();
        if left <= slice.len() {
            text.push_all(&slice[..left])?;
            return Ok(text);
        }
        text.push_all(slice)?;
    }
    Ok(text)
}

// What a head of so many bytes asks for. Mostly the first chunk has it, and nothing is copied.
fn headed(alloc: Global, input: &Chunks, n: usize) -> Result<Looked, NoMemory>
    requires memory { is_in_memory (items_of input.now) ≡ true }
    requires within { n ≤ length (memory_front (items_of input.now)) }
    ensures found { IfOk result (λ found. found ≡ looked_by n (head_of (take n (memory_front (items_of input.now))))) }
{
    let front = input.front_bytes();
    if n <= front.len() {
        return judged(alloc, &front[..n]);
    }
    let head = gathered(alloc, input, n)?;
    judged(alloc, head.bytes())
}

/// What the head says that ends there, of what came. Nothing of it is taken.
pub(crate) fn look(alloc: Global, input: &Chunks, end: HeadEnd) -> Result<Looked, NoMemory>
    requires memory { is_in_memory (items_of input.now) ≡ true }
    requires end { end ≡ head_end (memory_front (items_of input.now)) }
    requires within { IsWithin (length (memory_front (items_of input.now))) end }
    ensures looked { IfOk result (IsLooked (memory_front (items_of input.now))) }
    // Memory is wanted only for a head that is whole.
    ensures wants { OnErr result ((n : ℕ) × (end ≡ At n)) }
{
    match end {
        HeadEnd::NotYet => Ok(Looked::Unfinished),
        HeadEnd::TooLarge => Ok(Looked::Refused(431)),
        HeadEnd::At(n) => headed(alloc, input, n),
    }
}

/// Takes the first bytes off.
pub(crate) fn skip(input: &mut Chunks, store: &mut Store, n: usize)
    requires counted { HeldWithin store.old (length input.old.numbers) }
    requires memory { is_in_memory (items_of input.old) ≡ true }
    requires within { n ≤ count_of input.old }
    ensures items { items_of input.new ≡ drop n (items_of input.old) }
    ensures filled { store.new.filled ≡ store.old.filled }
    ensures kept { Kept store.old input.old.numbers store.new input.new.numbers }
{
    let mut left = n;
    while left > 0 {
        let taken = left.min(input.front_bytes().len());
        input.advance(store, taken);
        left -= taken;
    }
}
