//! The content of an answer behind its head.
ghost use Rattle.std.specs.Prelude.{◌≡◌, ◌+◌, ◌^◌, ◌<◌, ◌≤◌, ◌++◌, length, drop, false, IfOk, OnOk, OnErr};
ghost use Rattle.buffer_pool.specs.Kept.{Kept, HeldWithin};
ghost use Rattle.chunkqueue.specs.Items.{items_of, count_of};
ghost use Rattle.lt_http_body.specs.Feeding.{AllInMemory};
ghost use Rattle.proxy_message.specs.declared.progress.Progress.{Progress};
ghost use Rattle.proxy_message.specs.declared.stage.Stage.TheVariants.{Framed, ToEnd};
ghost use Rattle.proxy_message.specs.Progress as spec;
ghost use Rattle.proxy_message.specs.Feeding.{Takes, IsSoundStage};
ghost use Rattle.lt_http_body.specs.Standings as body_spec;

use crate::refusal::{AnswerRefusal, AnswerState};
use crate::stage::Stage;
use chunkqueue::{Chunks, Queue, Store};
use lt_bytes::NoMemory;
use lt_http_body::{Body, BodyRefusal, BodyState};

/// Takes bytes of a body of a stated length, or in the chunked coding.
fn take_framed(
    content: &mut Body,
    store: &mut Store,
    input: &mut Chunks,
    body: &mut Chunks,
) -> Result<(), NoMemory>
    requires counted { HeldWithin store.old (length body.old.numbers + length input.old.numbers) }
    requires fits { count_of body.old + count_of input.old < 2 ^ 63 }
    requires memory { AllInMemory (items_of input.old) }
    requires some { 0 < count_of input.old }
    requires open { body_spec.is_over content.old.state ≡ false }
    ensures less { OnOk result (count_of input.new < count_of input.old) }
    ensures takes { (p : Progress) → Takes (spec.with_stage p (Framed content.old)) input.old body.old (spec.with_stage p (Framed content.new)) input.new body.new }
    ensures filled { store.new.filled + count_of input.new ≤ store.old.filled + count_of input.old }
    ensures kept { Kept store.old (body.old.numbers ++ input.old.numbers) store.new (body.new.numbers ++ input.new.numbers) }
{
    match content.feed(store, input, body) {
        Ok(_) => Ok(()),
        Err(BodyRefusal::BadChunk) => Ok(()),
        Err(BodyRefusal::TooLarge) => Ok(()),
        Err(BodyRefusal::NoMemory) => Err(NoMemory),
    }
}

/// What is answered of a body of a stated length, or in the chunked coding.
fn framed_answer(content: &Body) -> Result<AnswerState, AnswerRefusal>
    ensures { result ≡ spec.framed_answer content.now.state }
{
    match content.answer() {
        Ok(BodyState::NeedMore) => Ok(AnswerState::NeedMore),
        Ok(BodyState::Done) => Ok(AnswerState::Done),
        Err(BodyRefusal::BadChunk) => Err(AnswerRefusal::BadAnswer),
        Err(BodyRefusal::TooLarge) => Err(AnswerRefusal::TooLarge),
        Err(BodyRefusal::NoMemory) => Err(AnswerRefusal::NoMemory),
    }
}

/// Takes bytes of a body that goes on up to the end of the link.
fn take_to_end(
    left: u64,
    store: &mut Store,
    input: &mut Chunks,
    body: &mut Chunks,
) -> Result<Stage, NoMemory>
    requires counted { HeldWithin store.old (length body.old.numbers + length input.old.numbers) }
    requires fits { count_of body.old + count_of input.old < 2 ^ 63 }
    requires memory { AllInMemory (items_of input.old) }
    requires some { 0 < count_of input.old }
    ensures less { OnOk result (count_of input.new < count_of input.old) }
    ensures ok { IfOk result (λ next. (p : Progress) → Takes (spec.with_stage p (ToEnd left)) input.old body.old (spec.with_stage p next) input.new body.new) }
    ensures sound { IfOk result (λ next. IsSoundStage next) }
    ensures err { OnErr result ((input.new ≡ input.old) × (body.new ≡ body.old)) }
    ensures filled { store.new.filled + count_of input.new ≤ store.old.filled + count_of input.old }
    ensures kept { Kept store.old (body.old.numbers ++ input.old.numbers) store.new (body.new.numbers ++ input.new.numbers) }
{
    if left == 0 {
        drop_first(store, input);
        return Ok(Stage::TooLarge);
    }
    let n = left.min(input.len());
    match body.steal(store, input, n) {
        Ok(()) => Ok(Stage::ToEnd(left - n)),
        Err(error) => Err(error),
    }
}

/// Takes the byte at the front, and drops it.
fn drop_first(store: &mut Store, input: &mut Chunks)
    requires counted { HeldWithin store.old (length input.old.numbers) }
    requires memory { AllInMemory (items_of input.old) }
    requires some { 0 < count_of input.old }
    ensures items { items_of input.new ≡ drop 1 (items_of input.old) }
    ensures filled { store.new.filled ≡ store.old.filled }
    ensures kept { Kept store.old input.old.numbers store.new input.new.numbers }
{
    let n = input.front_bytes().len().min(1);
    input.advance(store, n);
}

impl Stage {
    /// Takes bytes of the body.
    pub(crate) fn take(
        &mut self,
        store: &mut Store,
        input: &mut Chunks,
        body: &mut Chunks,
    ) -> Result<(), NoMemory>
        requires counted { HeldWithin store.old (length body.old.numbers + length input.old.numbers) }
        requires fits { count_of body.old + count_of input.old < 2 ^ 63 }
        requires memory { AllInMemory (items_of input.old) }
        requires some { 0 < count_of input.old }
        requires open { spec.is_over self.old ≡ false }
        requires behind { spec.is_head self.old ≡ false }
        ensures less { OnOk result (count_of input.new < count_of input.old) }
        ensures takes { (p : Progress) → Takes (spec.with_stage p self.old) input.old body.old (spec.with_stage p self.new) input.new body.new }
        ensures sound { IsSoundStage self.new }
        ensures filled { store.new.filled + count_of input.new ≤ store.old.filled + count_of input.old }
        ensures kept { Kept store.old (body.old.numbers ++ input.old.numbers) store.new (body.new.numbers ++ input.new.numbers) }
    {
        match self {
            Stage::Framed(content) => take_framed(content, store, input, body),
            Stage::ToEnd(left) => match take_to_end(*left, store, input, body) {
                Ok(next) => {
                    *self = next;
                    Ok(())
                }
                Err(error) => Err(error),
            },
            _ => Ok(()),
        }
    }

    /// No further byte belongs to the answer.
    pub(crate) fn is_over(&self) -> bool
        ensures { result ≡ spec.is_over self.now }
    {
        match self {
            Stage::Head(_) => false,
            Stage::Framed(content) => content.is_over(),
            Stage::ToEnd(_) => false,
            Stage::Done | Stage::BadAnswer | Stage::TooLarge => true,
        }
    }

    /// Bytes of a head come next.
    pub(crate) fn is_head(&self) -> bool
        ensures { result ≡ spec.is_head self.now }
    {
        matches!(self, Stage::Head(_))
    }

    /// The link has ended.
    pub(crate) fn end(&mut self)
        ensures ended { self.new ≡ spec.ended_from self.old }
        ensures sound { IsSoundStage self.new }
    {
        match self {
            Stage::Head(_) => *self = Stage::BadAnswer,
            Stage::Framed(content) => {
                if !content.is_over() {
                    *self = Stage::BadAnswer;
                }
            }
            Stage::ToEnd(_) => *self = Stage::Done,
            Stage::Done | Stage::BadAnswer | Stage::TooLarge => {}
        }
    }

    /// What is answered there.
    pub(crate) fn answer(&self) -> Result<AnswerState, AnswerRefusal>
        ensures { result ≡ spec.answer_from self.now }
    {
        match self {
            Stage::Head(_) => Ok(AnswerState::NeedMore),
            Stage::Framed(content) => framed_answer(content),
            Stage::ToEnd(_) => Ok(AnswerState::NeedMore),
            Stage::Done => Ok(AnswerState::Done),
            Stage::BadAnswer => Err(AnswerRefusal::BadAnswer),
            Stage::TooLarge => Err(AnswerRefusal::TooLarge),
        }
    }
}
