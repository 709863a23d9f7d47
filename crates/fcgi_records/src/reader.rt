//! A stream of records from an application, read as its bytes come.
ghost use Rattle.std.specs.Prelude.{◌≡◌, ◌+◌, ◌<◌, ◌≤◌, ◌^◌, ◌++◌, [], length, map, drop, false, true, OnOk};
ghost use Rattle.buffer_pool.specs.Kept.{Kept, HeldWithin};
ghost use Rattle.chunkqueue.specs.Items.{Byte, items_of, count_of};
ghost use Rattle.fcgi_records.specs.States.{is_broken, is_framing, answer_from};
ghost use Rattle.fcgi_records.specs.Reading.{state_after, stdout_in, taken_in};
ghost use Rattle.fcgi_records.specs.Feeding.{AllInMemory, bytes_of, Reads, Takes, UnlessNoMemory};

use crate::state::State;
use chunkqueue::{Chunks, Queue, Store};
use lt_bytes::NoMemory;
use std::marker::Model;

/// Whether the answer is whole.
#[derive(Clone, Copy, Debug, PartialEq, Eq)]
pub enum ReaderState {
    /// END_REQUEST with its padding is not whole yet.
    Open,
    /// It is whole, and so is the answer.
    Done,
}

/// Why a stream is refused. The first four are judged as a record's header is whole, in this order.
#[derive(Clone, Copy, Debug, PartialEq, Eq)]
pub enum RecordFault {
    /// The version is not 1.
    WrongVersion,
    /// The request id is not 1.
    WrongId,
    /// The type is none of STDOUT, STDERR and END_REQUEST.
    WrongType,
    /// The content of END_REQUEST has not 8 bytes.
    WrongEnd,
    /// The protocol status is not FCGI_REQUEST_COMPLETE: the application did not serve the request.
    Refused { protocol: u8 },
    /// A byte behind END_REQUEST and its padding.
    AfterEnd,
    /// Memory ran out. Nothing is lost.
    NoMemory,
}

/// A reader of a stream. Contracts see where it stands.
#[derive(Drop)]
pub struct Reader {
    state: State,
}

impl Model for Reader {
    ghost use Rattle.fcgi_records.specs.declared.state.State.{State};
    ghost use Rattle.fcgi_records.specs.Sound.{IsSoundState};

    ghost Value = { State };

    ghost view = { λ r. r.state };

    ghost invariant = { λ r. IsSoundState r.state };
}

impl Reader {
    /// A reader of a stream of which no byte came.
    pub fn new() -> Reader
        ensures { result ≡ State.Version }
    {
        Reader {
            state: State::Version,
        }
    }

    /// Takes the bytes that came off the front of `input`, and moves the content of STDOUT behind `out`. After want of memory
    /// it may be called again.
    pub fn feed(
        &mut self,
        store: &mut Store,
        input: &mut Chunks,
        out: &mut Chunks,
    ) -> Result<ReaderState, RecordFault>
        requires counted { HeldWithin store.old (length out.old.numbers + length input.old.numbers) }
        requires fits { count_of out.old + count_of input.old < 2 ^ 63 }
        requires memory { AllInMemory (items_of input.old) }
        ensures answer { UnlessNoMemory result (result ≡ answer_from (state_after self.old (bytes_of input.old))) }
        ensures stands { UnlessNoMemory result (self.new ≡ state_after self.old (bytes_of input.old)) }
        ensures stdout { UnlessNoMemory result (items_of out.new ≡ items_of out.old ++ map Byte (stdout_in self.old (bytes_of input.old))) }
        ensures rest { UnlessNoMemory result (items_of input.new ≡ drop (taken_in self.old (bytes_of input.old)) (items_of input.old)) }
        ensures takes { Takes self.old input.old out.old self.new input.new out.new }
        ensures filled { store.new.filled + count_of input.new ≤ store.old.filled + count_of input.old }
        ensures kept { Kept store.old (out.old.numbers ++ input.old.numbers) store.new (out.new.numbers ++ input.new.numbers) }
    {
        while !self.is_broken() && input.len() > 0 {
            match self.take(store, input, out) {
                Ok(()) => {}
                Err(_) => return Err(RecordFault::NoMemory),
            }
        }
        self.answer()
    }

    fn is_broken(&self) -> bool
        ensures { result ≡ is_broken self.now }
    {
        self.state.is_broken()
    }

    fn answer(&self) -> Result<ReaderState, RecordFault>
        ensures { result ≡ answer_from self.now }
    {
        self.state.answer()
    }

    // Takes bytes that are dropped, or content.
    fn take(
        &mut self,
        store: &mut Store,
        input: &mut Chunks,
        out: &mut Chunks,
    ) -> Result<(), NoMemory>
        requires counted { HeldWithin store.old (length out.old.numbers + length input.old.numbers) }
        requires fits { count_of out.old + count_of input.old < 2 ^ 63 }
        requires memory { AllInMemory (items_of input.old) }
        requires some { 0 < count_of input.old }
        requires open { is_broken self.old ≡ false }
        ensures less { OnOk result (count_of input.new < count_of input.old) }
        ensures takes { Takes self.old input.old out.old self.new input.new out.new }
        ensures filled { store.new.filled + count_of input.new ≤ store.old.filled + count_of input.old }
        ensures kept { Kept store.old (out.old.numbers ++ input.old.numbers) store.new (out.new.numbers ++ input.new.numbers) }
    {
        if self.state.is_framing() {
            self.take_framing(store, input);
            return Ok(());
        }
        self.take_content(store, input, out)
    }

    fn take_framing(&mut self, store: &mut Store, input: &mut Chunks)
        requires counted { HeldWithin store.old (length input.old.numbers) }
        requires memory { AllInMemory (items_of input.old) }
        requires some { 0 < count_of input.old }
        requires framing { is_framing self.old ≡ true }
        ensures less { count_of input.new < count_of input.old }
        ensures reads { Reads self.old input.old self.new input.new [] }
        ensures filled { store.new.filled ≡ store.old.filled }
        ensures kept { Kept store.old input.old.numbers store.new input.new.numbers }
    {
        let (state, n) = self.state.through(input.front_bytes());
        self.state = state;
        input.advance(store, n);
    }

    fn take_content(
        &mut self,
        store: &mut Store,
        input: &mut Chunks,
        out: &mut Chunks,
    ) -> Result<(), NoMemory>
        requires counted { HeldWithin store.old (length out.old.numbers + length input.old.numbers) }
        requires fits { count_of out.old + count_of input.old < 2 ^ 63 }
        requires memory { AllInMemory (items_of input.old) }
        requires some { 0 < count_of input.old }
        requires open { is_broken self.old ≡ false }
        requires framing { is_framing self.old ≡ false }
        ensures less { OnOk result (count_of input.new < count_of input.old) }
        ensures takes { Takes self.old input.old out.old self.new input.new out.new }
        ensures filled { store.new.filled + count_of input.new ≤ store.old.filled + count_of input.old }
        ensures kept { Kept store.old (out.old.numbers ++ input.old.numbers) store.new (out.new.numbers ++ input.new.numbers) }
    {
        let n = self.state.left().min(input.len());
        match out.steal(store, input, n) {
            Ok(()) => {
                self.state = self.state.without(n);
                Ok(())
            }
            Err(error) => Err(error),
        }
    }
}
