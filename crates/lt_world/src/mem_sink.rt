//! A sink in memory with a fixed room, one of whose writes fails as planned. It tells its bytes.
ghost use Rattle.std.specs.Prelude.{◌≡◌, ◌≤◌, ◌+◌, [], ◌++◌, Some, None, IfOk, length, vec_len, vec_capacity};
ghost use Rattle.lt_world.specs.SinkRuns.{empty_sink, is_due, after_write, WritePlanned};

use crate::fault::Fault;
use crate::streams::Sink;
use lt_bytes::NoMemory;
use std::alloc::Global;
use std::marker::Model;

/// A sink that takes as many bytes as it has room for. Contracts see it as its bytes, its room and its plan.
#[derive(Drop)]
pub struct MemSink {
    bytes: Vec<u8>,
    room: u64,
    fails: Option<u32>,
    made: u64,
    faults: u64,
}

impl Model for MemSink {
    ghost use Rattle.lt_world.specs.SinkRuns.{Poured};

    ghost Value = { Poured };

    ghost use Rattle.lt_world.specs.SinkView.{poured_of, HasRoom};

    ghost view = { poured_of };

    ghost invariant = { HasRoom };
}

impl MemSink {
    /// A sink with this room, for which it takes all its memory now.
    pub fn new(alloc: Global, room: u64) -> Result<MemSink, NoMemory>
        ensures { IfOk result (λ sink. sink ≡ empty_sink room) }
    {
        match Vec::with_capacity(alloc, room as usize) {
            Ok(bytes) => Ok(MemSink {
                bytes,
                room,
                fails: None,
                made: 0,
                faults: 0,
            }),
            Err(_) => Err(NoMemory),
        }
    }

    /// The write with this number, counted from 0, fails, and no other is planned to.
    pub fn plan(&mut self, nth: u32)
        ensures { self.new ≡ record self.old { fails = Some nth } }
    {
        self.fails = Some(nth);
    }

    /// The bytes that were taken.
    pub fn bytes(&self) -> &[u8]
        ensures { result.now ≡ self.now.bytes }
    {
        &self.bytes
    }

    fn is_due(&self) -> bool
        ensures { result ≡ is_due self.now }
    {
        match self.fails {
            Some(nth) => u64::from(nth) == self.made,
            None => false,
        }
    }

    fn write_next(&mut self, piece: &[u8]) -> Result<usize, Fault>
        ensures becomes { self.new ≡ after_write result piece.now self.old }
        ensures planned { WritePlanned result (length piece.now) self.old }
        ensures faults { self.old.faults ≤ self.new.faults }
    {
        let due = self.is_due();
        let left = self.room as usize - self.bytes.len();
        let n = left.min(piece.len());
        self.made = self.made.saturating_add(1);
        if due || (n == 0 && !piece.is_empty()) {
            self.faults = self.faults.saturating_add(1);
            return Err(Fault);
        }
        keep(&mut self.bytes, &piece[..n]);
        Ok(n)
    }
}

// Adds bytes for which there is room.
fn keep(kept: &mut Vec<u8>, bytes: &[u8])
    requires { vec_len kept.old + length bytes.now ≤ vec_capacity kept.old }
    ensures bytes { kept.new.items ≡ kept.old.items ++ bytes.now }
    ensures len { vec_len kept.new ≡ vec_len kept.old + length bytes.now }
    ensures capacity { vec_capacity kept.old ≤ vec_capacity kept.new }
{
    let _ = kept.extend_from_slice(bytes);
}

impl Sink for MemSink {
    ghost use Rattle.lt_world.specs.SinkRuns.{SinkLater, SinkLater-same, SinkLater-more, SinkLater-faults};

    ghost tells = { Unit {0} };

    ghost bytes = { λ sink. sink.bytes };

    ghost faults = { λ sink. sink.faults };

    ghost later = { SinkLater };

    ghost later_same = { SinkLater-same };

    ghost later_later = { SinkLater-more };

    ghost later_faults = { SinkLater-faults };

    fn write(&mut self, piece: &[u8]) -> Result<usize, Fault> {
        self.write_next(piece)
    }
}
