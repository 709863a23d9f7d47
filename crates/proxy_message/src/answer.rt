//! The answer of an HTTP gateway, read as its bytes come.
ghost use Rattle.std.specs.Prelude.{◌≡◌, ◌≢◌, ◌+◌, ◌^◌, ◌<◌, ◌≤◌, ◌++◌, length, map, drop, [], false, true, OnOk, Ok, option_map};
ghost use Rattle.buffer_pool.specs.Kept.{Kept, HeldWithin};
ghost use Rattle.chunkqueue.specs.Items.{Byte, items_of, count_of};
ghost use Rattle.lt_http_body.specs.Feeding.{AllInMemory, bytes_of};
ghost use Rattle.proxy_message.specs.Progress as spec;
ghost use Rattle.proxy_message.specs.Reading.{progress_after, content_in, taken_in};
ghost use Rattle.proxy_message.specs.Feeding.{Reads, Takes, UnlessNoMemory};

use crate::heads::headed;
use crate::progress::Progress;
use crate::refusal::{AnswerRefusal, AnswerState};
use crate::stage::Stage;
use cgi_text::CgiHead;
use chunkqueue::{Chunks, Queue, Store};
use lt_bytes::NoMemory;
use std::alloc::Global;
use std::marker::Model;

/// An answer that is read. Contracts see where it stands.
#[derive(Drop)]
pub struct AnswerReader {
    progress: Progress,
    alloc: Global,
}

impl Model for AnswerReader {
    ghost use Rattle.proxy_message.specs.declared.progress.Progress.{Progress};
    ghost use Rattle.proxy_message.specs.Feeding.{IsSoundStage};

    ghost Value = { Progress };

    ghost view = { λ r. r.progress };

    ghost invariant = { λ r. IsSoundStage r.progress.stage };
}

impl AnswerReader {
    /// An answer of which no byte came. One to HEAD has no body. The allocator is kept for the heads.
    pub fn new(alloc: Global, head_only: bool) -> AnswerReader
        ensures { result ≡ spec.begin head_only }
    {
        AnswerReader {
            progress: Progress::begin(alloc, head_only),
            alloc,
        }
    }

    /// Takes the bytes of the answer off the front of `input`, and moves those of its body behind `body`. Where more is needed,
    /// all were taken. After want of memory it may be called again.
    pub fn feed(
        &mut self,
        store: &mut Store,
        input: &mut Chunks,
        body: &mut Chunks,
    ) -> Result<AnswerState, AnswerRefusal>
        requires counted { HeldWithin store.old (length body.old.numbers + length input.old.numbers) }
        requires fits { count_of body.old + count_of input.old < 2 ^ 63 }
        requires memory { AllInMemory (items_of input.old) }
        ensures answer { UnlessNoMemory result (result ≡ spec.answer_from (progress_after self.old (bytes_of input.old)).stage) }
        ensures stands { UnlessNoMemory result (self.new ≡ progress_after self.old (bytes_of input.old)) }
        ensures content { UnlessNoMemory result (items_of body.new ≡ items_of body.old ++ map Byte (content_in self.old (bytes_of input.old))) }
        ensures rest { UnlessNoMemory result (items_of input.new ≡ drop (taken_in self.old (bytes_of input.old)) (items_of input.old)) }
        ensures takes { Takes self.old input.old body.old self.new input.new body.new }
        ensures filled { store.new.filled + count_of input.new ≤ store.old.filled + count_of input.old }
        ensures kept { Kept store.old (body.old.numbers ++ input.old.numbers) store.new (body.new.numbers ++ input.new.numbers) }
    {
        while !self.is_over() && input.len() > 0 {
            match self.take(store, input, body) {
                Ok(()) => {}
                Err(_) => return Err(AnswerRefusal::NoMemory),
            }
        }
        self.answer()
    }

    /// Says that the link has ended. It takes no memory.
    pub fn ended(&mut self) -> Result<AnswerState, AnswerRefusal>
        ensures answer { result ≡ spec.answer_from (spec.ended self.old).stage }
        ensures stands { self.new ≡ spec.ended self.old }
        ensures whole { result ≢ Ok AnswerState.NeedMore }
    {
        self.progress.stage.end();
        self.answer()
    }

    /// The head of the answer, once it came.
    pub fn head(&self) -> Option<&CgiHead>
        ensures { option_map (λ h. h.now) result ≡ self.now.head }
    {
        self.progress.head.as_ref()
    }

    /// Whether no further byte is its own: it has ended, or is refused.
    pub fn is_over(&self) -> bool
        ensures { result ≡ spec.is_over self.now.stage }
    {
        self.progress.stage.is_over()
    }

    fn answer(&self) -> Result<AnswerState, AnswerRefusal>
        ensures { result ≡ spec.answer_from self.now.stage }
    {
        self.progress.stage.answer()
    }

    // Takes bytes of a head, or of the body.
    fn take(
        &mut self,
        store: &mut Store,
        input: &mut Chunks,
        body: &mut Chunks,
    ) -> Result<(), NoMemory>
        requires counted { HeldWithin store.old (length body.old.numbers + length input.old.numbers) }
        requires fits { count_of body.old + count_of input.old < 2 ^ 63 }
        requires memory { AllInMemory (items_of input.old) }
        requires some { 0 < count_of input.old }
        requires open { spec.is_over self.old.stage ≡ false }
        ensures less { OnOk result (count_of input.new < count_of input.old) }
        ensures takes { Takes self.old input.old body.old self.new input.new body.new }
        ensures filled { store.new.filled + count_of input.new ≤ store.old.filled + count_of input.old }
        ensures kept { Kept store.old (body.old.numbers ++ input.old.numbers) store.new (body.new.numbers ++ input.new.numbers) }
    {
        if self.progress.stage.is_head() {
            return self.take_head(store, input);
        }
        self.progress.stage.take(store, input, body)
    }

    fn take_head(&mut self, store: &mut Store, input: &mut Chunks) -> Result<(), NoMemory>
        requires counted { HeldWithin store.old (length input.old.numbers) }
        requires memory { AllInMemory (items_of input.old) }
        requires some { 0 < count_of input.old }
        requires head { spec.is_head self.old.stage ≡ true }
        ensures less { OnOk result (count_of input.new < count_of input.old) }
        ensures reads { Reads self.old input.old self.new input.new [] }
        ensures filled { store.new.filled ≡ store.old.filled }
        ensures kept { Kept store.old input.old.numbers store.new input.new.numbers }
    {
        let Stage::Head(held) = &self.progress.stage else {
            return Ok(());
        };
        let (progress, n) = headed(
            self.alloc,
            self.progress.head_only,
            held,
            input.front_bytes(),
        )?;
        self.progress = progress;
        input.advance(store, n);
        Ok(())
    }
}
