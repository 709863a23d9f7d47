//! The body of a request, read as its bytes come.
ghost use Rattle.std.specs.Prelude.{◌≡◌, ◌+◌, ◌-◌, [], ◌*◌, ◌<◌, ◌≤◌, ◌^◌, ◌++◌, length, map, drop, false, true, OnOk};
ghost use Rattle.buffer_pool.specs.Kept.{Kept, HeldWithin};
ghost use Rattle.chunkqueue.specs.Items.{Byte, items_of, count_of};
ghost use Rattle.lt_http_body.specs.Standings.{begin, is_over, is_in_line, answer_from};
ghost use Rattle.lt_http_body.specs.Reading.{standing_after, data_in, taken_in};
ghost use Rattle.lt_http_body.specs.Feeding.{AllInMemory, bytes_of, Reads, Takes, UnlessNoMemory};

use crate::standing::Standing;
use chunkqueue::{Chunks, Queue, Store};
use http_head::Framing;
use lt_bytes::NoMemory;
use std::marker::Model;

/// Whether a body is whole.
#[derive(Clone, Copy, Debug, PartialEq, Eq)]
pub enum BodyState {
    /// The bytes that came are no whole body yet.
    NeedMore,
    /// The body is whole.
    Done,
}

/// Why a body is refused.
#[derive(Clone, Copy, Debug, PartialEq, Eq)]
pub enum BodyRefusal {
    /// 400: no chunked body goes on with the bytes that came.
    BadChunk,
    /// 413: a stated length, or the sum of the chunks' sizes, is above the limit.
    TooLarge,
    /// Memory ran out. Nothing is lost.
    NoMemory,
}

/// A body that is read. Contracts see where it stands.
#[derive(Drop)]
pub struct Body {
    standing: Standing,
}

impl Model for Body {
    ghost use Rattle.lt_http_body.specs.declared.standing.Standing.{Standing};
    ghost use Rattle.lt_http_body.specs.Sound.{IsSoundState};

    ghost Value = { Standing };

    ghost view = { λ b. b.standing };

    ghost invariant = { λ b. IsSoundState b.standing.state };
}

impl Body {
    /// A body of which no byte came. A limit of `u64::MAX` is none.
    pub fn new(framing: Framing, limit: u64) -> Body
        ensures { result ≡ begin framing limit }
    {
        Body {
            standing: Standing::begin(framing, limit),
        }
    }

    /// Takes the bytes of the body off the front of `input`, and moves its data behind `body`. Where more is needed, all were
    /// taken. After want of memory it may be called again.
    pub fn feed(
        &mut self,
        store: &mut Store,
        input: &mut Chunks,
        body: &mut Chunks,
    ) -> Result<BodyState, BodyRefusal>
        requires counted { HeldWithin store.old (length body.old.numbers + length input.old.numbers) }
        requires fits { count_of body.old + count_of input.old < 2 ^ 63 }
        requires memory { AllInMemory (items_of input.old) }
        ensures answer { UnlessNoMemory result (result ≡ answer_from (standing_after self.old (bytes_of input.old)).state) }
        ensures stands { UnlessNoMemory result (self.new ≡ standing_after self.old (bytes_of input.old)) }
        ensures data { UnlessNoMemory result (items_of body.new ≡ items_of body.old ++ map Byte (data_in self.old (bytes_of input.old))) }
        ensures rest { UnlessNoMemory result (items_of input.new ≡ drop (taken_in self.old (bytes_of input.old)) (items_of input.old)) }
        ensures takes { Takes self.old input.old body.old self.new input.new body.new }
        ensures filled { store.new.filled + count_of input.new ≤ store.old.filled + count_of input.old }
        ensures kept { Kept store.old (body.old.numbers ++ input.old.numbers) store.new (body.new.numbers ++ input.new.numbers) }
    {
        while !self.is_over() && input.len() > 0 {
            match self.take(store, input, body) {
                Ok(()) => {}
                Err(_) => return Err(BodyRefusal::NoMemory),
            }
        }
        self.answer()
    }

    /// Whether no further byte is its own: it has ended, or is refused.
    pub fn is_over(&self) -> bool
        ensures { result ≡ is_over self.now.state }
    {
        self.standing.is_over()
    }

    /// What is answered of the bytes that came.
    pub fn answer(&self) -> Result<BodyState, BodyRefusal>
        ensures { result ≡ answer_from self.now.state }
    {
        self.standing.answer()
    }

    // Takes bytes of lines, or data.
    fn take(
        &mut self,
        store: &mut Store,
        input: &mut Chunks,
        body: &mut Chunks,
    ) -> Result<(), NoMemory>
        requires counted { HeldWithin store.old (length body.old.numbers + length input.old.numbers) }
        requires fits { count_of body.old + count_of input.old < 2 ^ 63 }
        requires memory { AllInMemory (items_of input.old) }
        requires some { 0 < count_of input.old }
        requires open { is_over self.old.state ≡ false }
        ensures less { OnOk result (count_of input.new < count_of input.old) }
        ensures takes { Takes self.old input.old body.old self.new input.new body.new }
        ensures filled { store.new.filled + count_of input.new ≤ store.old.filled + count_of input.old }
        ensures kept { Kept store.old (body.old.numbers ++ input.old.numbers) store.new (body.new.numbers ++ input.new.numbers) }
    {
        if self.standing.is_in_line() {
            self.take_line(store, input);
            return Ok(());
        }
        self.take_data(store, input, body)
    }

    fn take_line(&mut self, store: &mut Store, input: &mut Chunks)
        requires counted { HeldWithin store.old (length input.old.numbers) }
        requires memory { AllInMemory (items_of input.old) }
        requires some { 0 < count_of input.old }
        requires line { is_in_line self.old.state ≡ true }
        ensures less { count_of input.new < count_of input.old }
        ensures reads { Reads self.old input.old self.new input.new [] }
        ensures filled { store.new.filled ≡ store.old.filled }
        ensures kept { Kept store.old input.old.numbers store.new input.new.numbers }
    {
        let (standing, n) = self.standing.through(input.front_bytes());
        self.standing = standing;
        input.advance(store, n);
    }

    fn take_data(
        &mut self,
        store: &mut Store,
        input: &mut Chunks,
        body: &mut Chunks,
    ) -> Result<(), NoMemory>
        requires counted { HeldWithin store.old (length body.old.numbers + length input.old.numbers) }
        requires fits { count_of body.old + count_of input.old < 2 ^ 63 }
        requires memory { AllInMemory (items_of input.old) }
        requires some { 0 < count_of input.old }
        requires open { is_over self.old.state ≡ false }
        requires line { is_in_line self.old.state ≡ false }
        ensures less { OnOk result (count_of input.new < count_of input.old) }
        ensures takes { Takes self.old input.old body.old self.new input.new body.new }
        ensures filled { store.new.filled + count_of input.new ≤ store.old.filled + count_of input.old }
        ensures kept { Kept store.old (body.old.numbers ++ input.old.numbers) store.new (body.new.numbers ++ input.new.numbers) }
    {
        let n = self.standing.left().min(input.len());
        match body.steal(store, input, n) {
            Ok(()) => {
                self.standing = self.standing.without(n);
                Ok(())
            }
            Err(error) => Err(error),
        }
    }
}
