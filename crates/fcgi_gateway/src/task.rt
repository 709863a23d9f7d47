//! One attempt at an application.
ghost use Rattle.std.specs.Prelude.{◌≡◌, ℕ, ◌+◌, ◌*◌, ◌<◌, ◌≤◌, ◌^◌, ◌++◌, List, [], true, length, map, take, IsOk, IfOk, OnOk, OnErr};
ghost use Rattle.buffer_pool.specs.Kept.{Kept, HeldWithin};
ghost use Rattle.chunkqueue.specs.Items.{Byte, items_of, count_of, empty};
ghost use Rattle.cgi_text.specs.declared.head.CgiHead.{CgiHead};
ghost use Rattle.cgi_text.specs.Attempts.{Answered, Exchange, silence, with_input, with_output, with_end, with_failure, result_of, state_of, left_by};
ghost use Rattle.cgi_text.specs.Request.{parts_of};
ghost use Rattle.fcgi_records.specs.Feeding.{AllInMemory, bytes_of};
ghost use Rattle.fcgi_gateway.specs.Asked.{asked};
ghost use Rattle.fcgi_gateway.specs.Heard.{heard};
ghost use Rattle.fcgi_gateway.specs.Task.{IsAt, state_by, over_by, is_answered};

use crate::asking::lead;
use crate::handing::{front_within, hand_over, has_begun, take_content};
use crate::hearing::{Progress, feed, hear};
use crate::sending::Sending;
use cgi_text::{CgiHead, GateRequest, GateState, params};
use chunkqueue::{BUFFER_SIZE, Chunks, Queue, Store};
use fcgi_records::Reader;
use lt_bytes::{NoMemory, Text};
use std::alloc::Global;
use std::marker::Model;
use std::mem::replace;

/// An attempt. It must be closed: it can't be dropped.
pub struct FcgiTask {
    alloc: Global,
    // What is sent before the content of the body.
    lead: Text,
    sending: Sending,
    // What was not taken of the body.
    body: Chunks,
    // A byte was taken.
    begun: bool,
    // The link has ended or failed.
    over: bool,
    reader: Reader,
    // The content of STDOUT.
    out: Chunks,
    progress: Progress,
}

impl Model for FcgiTask {
    ghost use Rattle.fcgi_gateway.specs.Task.{Task};

    ghost Value = { Task };

    ghost use Rattle.fcgi_gateway.specs.Inside.{task_of, IsTask};

    ghost view = { task_of };

    ghost invariant = { IsTask };
}

impl FcgiTask {
    /// The attempt of a request with this body, which it takes over. The allocator is kept for the head of the answer.
    pub fn new(
        alloc: Global,
        request: &GateRequest<'_>,
        store: &mut Store,
        body: &mut Chunks,
    ) -> Result<FcgiTask, NoMemory>
        requires counted { HeldWithin store.old (length body.old.numbers) }
        requires memory { AllInMemory (items_of body.old) }
        ensures ok { IfOk result (IsAt (asked (parts_of request.now) (bytes_of body.old)) silence) }
        ensures body { OnOk result (body.new ≡ empty) }
        ensures numbers { IfOk result (λ task. task.numbers ≡ body.old.numbers) }
        ensures err { OnErr result (body.new ≡ body.old) }
        ensures store { store.new ≡ store.old }
    {
        let params = params(alloc, request)?;
        let lead = lead(alloc, params.bytes(), body.len())?;
        Ok(FcgiTask {
            alloc,
            lead,
            sending: Sending::Lead(0),
            body: replace(body, Chunks::new()),
            begun: false,
            over: false,
            reader: Reader::new(),
            out: Chunks::new(),
            progress: Progress::Partly,
        })
    }

    /// The first bytes of what is still to be sent; none exactly where all was taken.
    pub fn to_send(&self) -> &[u8]
        ensures offer { result.now ≡ self.now.offer }
        ensures leads { result.now ≡ take (length result.now) self.now.unsent }
        ensures some { 0 < length self.now.unsent → 0 < length result.now }
    {
        match &self.sending {
            Sending::Lead(taken) => &self.lead.bytes()[*taken..],
            Sending::Content(left) => front_within(&self.body, *left),
            Sending::Header(header, taken) => &header[*taken..],
            Sending::Done => &[],
        }
    }

    /// The application took so many of the bytes. Nothing is copied, and no memory is taken.
    pub fn sent(&mut self, store: &mut Store, n: usize) -> Result<(), NoMemory>
        requires counted { HeldWithin store.old (length self.old.numbers) }
        requires offered { n ≤ length self.old.offer }
        ensures ok { IsOk result }
        ensures stands { (asks : List ℕ) (e : Exchange) → IsAt asks e self.old → IsAt asks (with_output (take n self.old.offer) e) self.new }
        ensures filled { store.new.filled ≡ store.old.filled }
        ensures kept { Kept store.old self.old.numbers store.new self.new.numbers }
    {
        take_content(self.sending, store, &mut self.body, n);
        self.sending = self.sending.after(n, self.lead.len(), self.body.len());
        self.begun = has_begun(self.begun, n);
        Ok(())
    }

    /// Takes what was read.
    pub fn got(&mut self, store: &mut Store, bytes: &[u8]) -> Result<GateState, NoMemory>
        requires counted { HeldWithin store.old (length self.old.numbers) }
        requires fits { length self.old.stdout + length bytes.now < 2 ^ 63 }
        ensures stands { (asks : List ℕ) (e : Exchange) → IsAt asks e self.old
            → IfOk result (λ s. (s ≡ state_of (result_of heard (with_input bytes.now e))) × IsAt asks (left_by s (with_input bytes.now e)) self.new) }
        ensures filled { store.new.filled ≤ store.old.filled + 2 * length bytes.now }
        ensures kept { Kept store.old self.old.numbers store.new self.new.numbers }
    {
        match self.read(store, bytes) {
            Ok(()) => Ok(self.settle(store)),
            Err(error) => Err(error),
        }
    }

    fn read(&mut self, store: &mut Store, bytes: &[u8]) -> Result<(), NoMemory>
        requires counted { HeldWithin store.old (length self.old.numbers) }
        requires fits { length self.old.stdout + length bytes.now < 2 ^ 63 }
        ensures stands { (asks : List ℕ) (e : Exchange) → IsAt asks e self.old → OnOk result (IsAt asks (with_input bytes.now e) self.new) }
        ensures filled { store.new.filled ≤ store.old.filled + 2 * length bytes.now }
        ensures kept { Kept store.old self.old.numbers store.new self.new.numbers }
    {
        let answered = feed(&mut self.reader, store, &mut self.out, bytes)?;
        self.progress = hear(self.alloc, answered, &self.out)?;
        Ok(())
    }

    /// The link has ended. It takes no memory.
    pub fn ended(&mut self, store: &mut Store) -> Result<GateState, NoMemory>
        requires counted { HeldWithin store.old (length self.old.numbers) }
        ensures ok { IsOk result }
        ensures stands { (asks : List ℕ) (e : Exchange) → IsAt asks e self.old
            → IfOk result (λ s. (s ≡ state_of (result_of heard (with_end e))) × IsAt asks (left_by s (with_end e)) self.new) }
        ensures filled { store.new.filled ≡ store.old.filled }
        ensures kept { Kept store.old self.old.numbers store.new self.new.numbers }
    {
        self.over = true;
        Ok(self.settle(store))
    }

    /// A read or a write of the link failed. It takes no memory.
    pub fn failed(&mut self, store: &mut Store) -> GateState
        requires counted { HeldWithin store.old (length self.old.numbers) }
        ensures state { (asks : List ℕ) (e : Exchange) → IsAt asks e self.old
            → (result ≡ state_of (result_of heard (with_failure e))) × IsAt asks (left_by result (with_failure e)) self.new }
        ensures filled { store.new.filled ≡ store.old.filled }
        ensures kept { Kept store.old self.old.numbers store.new self.new.numbers }
    {
        self.over = true;
        self.settle(store)
    }

    fn state(&self) -> GateState
        ensures { result ≡ state_by self.now.heard self.now.over self.now.begun }
    {
        match &self.progress {
            Progress::Exceeds => GateState::Bad502,
            Progress::Fully(_) => GateState::Answer,
            Progress::Breaks => self.lost(),
            Progress::Partly => {
                if self.over {
                    self.lost()
                } else {
                    GateState::Waiting
                }
            }
        }
    }

    fn lost(&self) -> GateState
        ensures { result ≡ over_by self.now.begun }
    {
        if self.begun {
            GateState::Bad502
        } else {
            GateState::Retry
        }
    }

    // Answers the state. An attempt that may be made again stands as when it was made.
    fn settle(&mut self, store: &mut Store) -> GateState
        requires counted { HeldWithin store.old (length self.old.numbers) }
        ensures stands { (asks : List ℕ) (e : Exchange) → IsAt asks e self.old
            → (result ≡ state_of (result_of heard e)) × IsAt asks (left_by result e) self.new }
        ensures filled { store.new.filled ≡ store.old.filled }
        ensures kept { Kept store.old self.old.numbers store.new self.new.numbers }
    {
        match self.state() {
            GateState::Retry => {
                self.forget(store);
                GateState::Retry
            }
            GateState::Waiting => GateState::Waiting,
            GateState::Answer => GateState::Answer,
            GateState::Bad502 => GateState::Bad502,
        }
    }

    // Nothing was heard.
    fn forget(&mut self, store: &mut Store)
        requires counted { HeldWithin store.old (length self.old.numbers) }
        ensures stands { (asks : List ℕ) (e : Exchange) → IsAt asks e self.old → e.output ≡ [] → IsAt asks silence self.new }
        ensures filled { store.new.filled ≡ store.old.filled }
        ensures kept { Kept store.old self.old.numbers store.new self.new.numbers }
    {
        self.out.empty_into(store);
        self.reader = Reader::new();
        self.progress = Progress::Partly;
        self.over = false;
    }

    /// Hands the answer over: its head, and its body behind `body`. It takes no memory.
    pub fn answer(self, store: &mut Store, body: &mut Chunks) -> CgiHead
        requires counted { HeldWithin store.old (length self.numbers + length body.old.numbers) }
        requires answered { is_answered self.heard ≡ true }
        requires fits { count_of body.old + length self.stdout < 2 ^ 63 }
        ensures answer { (asks : List ℕ) (e : Exchange) (head : CgiHead) (content : List ℕ) → IsAt asks e self → result_of heard e ≡ Answered head content
            → (result ≡ head) × (items_of body.new ≡ items_of body.old ++ map Byte content) }
        ensures filled { store.new.filled ≤ store.old.filled + 2 * BUFFER_SIZE }
        ensures moves { store.new.filled ≤ store.old.filled + length self.stdout }
        ensures kept { Kept store.old (self.numbers ++ body.old.numbers) store.new body.new.numbers }
    {
        let FcgiTask {
            alloc: _,
            lead: _,
            sending: _,
            body: unsent,
            begun: _,
            over: _,
            reader: _,
            out,
            progress,
        } = self;
        unsent.close(store);
        let head = progress.head();
        let length = head.length;
        hand_over(out, store, length, body);
        head
    }

    /// Gives back what is held. It takes no memory.
    pub fn close(self, store: &mut Store)
        requires counted { HeldWithin store.old (length self.numbers) }
        ensures filled { store.new.filled ≡ store.old.filled }
        ensures kept { Kept store.old self.numbers store.new [] }
    {
        let FcgiTask {
            alloc: _,
            lead: _,
            sending: _,
            body,
            begun: _,
            over: _,
            reader: _,
            out,
            progress: _,
        } = self;
        body.close(store);
        out.close(store);
    }
}
