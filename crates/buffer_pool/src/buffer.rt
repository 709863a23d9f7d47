//! A buffer with its number, as plain data.
ghost use Rattle.std.specs.Prelude.{◌≡◌, ◌-◌, ◌≤◌, length};
ghost use Rattle.buffer_pool.specs.Edits.{blank, put_in, dropped, packed, as_file};
ghost use Rattle.buffer_pool.specs.Filling.{Fills};
ghost use Rattle.buffer_pool.specs.State.{IsWithin};

use crate::filling::{Piece, read_into};
use std::marker::Model;

/// How many bytes a buffer has room for.
pub const BUFFER_SIZE: usize = 4096;

/// What a chunk stands for in a queue: its own bytes, or the rest of a range of a file, of which its bytes are what was
/// read ahead.
#[derive(Clone, Copy, Debug, PartialEq, Eq)]
pub enum Kind {
    Bytes,
    /// `file` is the number of an opened file, and the range has the `len` bytes from `start` on.
    File { file: u32, start: u64, len: u64 },
}

// The bytes from `start` up to `end` are held.
#[derive(Drop)]
pub struct Buffer {
    number: u64,
    kind: Kind,
    start: usize,
    end: usize,
    bytes: [u8; BUFFER_SIZE],
}

impl Model for Buffer {
    ghost use Rattle.buffer_pool.specs.State.{ChunkState};

    ghost Value = { ChunkState };

    ghost use Rattle.buffer_pool.specs.Held.{held, IsHeld};

    ghost view = { held };

    ghost invariant = { IsHeld };
}

impl Buffer {
    pub(crate) fn new(number: u64) -> Buffer
        ensures { result ≡ blank number }
    {
        Buffer {
            number,
            kind: Kind::Bytes,
            start: 0,
            end: 0,
            bytes: [0; BUFFER_SIZE],
        }
    }

    pub(crate) fn number(&self) -> u64
        ensures { result ≡ self.now.number }
    {
        self.number
    }

    pub(crate) fn kind(&self) -> Kind
        ensures { result ≡ self.now.kind }
    {
        self.kind
    }

    pub(crate) fn room(&self) -> usize
        ensures room { result ≡ self.now.room }
        ensures within { IsWithin self.now }
    {
        BUFFER_SIZE - self.end
    }

    pub(crate) fn bytes(&self) -> &[u8]
        ensures { result.now ≡ self.now.bytes }
    {
        &self.bytes[self.start..self.end]
    }

    pub(crate) fn clear(&mut self)
        ensures { self.new ≡ blank self.old.number }
    {
        self.kind = Kind::Bytes;
        self.start = 0;
        self.end = 0;
    }

    pub(crate) fn set_file(&mut self, file: u32, start: u64, len: u64)
        ensures { self.new ≡ as_file self.old file start len }
    {
        self.kind = Kind::File { file, start, len };
    }

    pub(crate) fn put(&mut self, bytes: &[u8])
        requires { length bytes.now ≤ self.old.room }
        ensures { self.new ≡ put_in self.old bytes.now }
    {
        let end = self.end + bytes.len();
        self.bytes[self.end..end].copy_from_slice(bytes);
        self.end = end;
    }

    pub(crate) fn fill<S, P: Piece<S>>(
        &mut self,
        n: usize,
        piece: &P,
        source: &mut S,
    ) -> Result<(), P::Fault>
        requires room { n ≤ self.old.room }
        requires can_read { P.can_read piece.now source.old n }
        ensures { Fills (P.reads piece.now source.old) (put_in self.old) self.old n result self.new source.new }
    {
        match read_into(&mut self.bytes, self.end, n, piece, source) {
            Ok(()) => {
                self.end += n;
                Ok(())
            }
            Err(fault) => Err(fault),
        }
    }

    pub(crate) fn drop_front(&mut self, n: usize)
        requires { n ≤ length self.old.bytes }
        ensures { self.new ≡ dropped self.old n }
    {
        self.start += n;
        if self.start == self.end {
            self.start = 0;
            self.end = 0;
        }
    }

    pub(crate) fn pack(&mut self)
        ensures { self.new ≡ packed self.old }
    {
        let len = self.end - self.start;
        self.bytes.copy_within(self.start..self.end, 0);
        self.start = 0;
        self.end = len;
    }
}
