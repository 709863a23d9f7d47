//! A segment of bytes in memory.
ghost use Rattle.std.specs.Prelude.{◌≡◌, ◌≤◌, length, drop, IfOk};

use lt_bytes::NoMemory;
use std::alloc::Global;
use std::marker::Model;

/// Bytes of which the first may have left. Contracts see those that are left.
#[derive(Drop)]
pub(crate) struct MemorySegment {
    bytes: Vec<u8>,
    start: usize,
}

impl Model for MemorySegment {
    ghost use Rattle.std.specs.Prelude.{ℕ, ◌≤◌, List, drop, vec_len};

    ghost Value = { List ℕ };

    ghost view = { λ s. drop s.start s.bytes.items };

    ghost invariant = { λ s. s.start ≤ vec_len s.bytes };
}

impl MemorySegment {
    pub(crate) fn copy_of(alloc: Global, bytes: &[u8]) -> Result<MemorySegment, NoMemory>
        ensures { IfOk result (λ segment. segment ≡ bytes.now) }
    {
        match Vec::from_slice(alloc, bytes) {
            Ok(bytes) => Ok(MemorySegment { bytes, start: 0 }),
            Err(_) => Err(NoMemory),
        }
    }

    pub(crate) fn bytes(&self) -> &[u8]
        ensures { result.now ≡ self.now }
    {
        &self.bytes[self.start..]
    }

    pub(crate) fn drop_front(&mut self, n: usize)
        requires { n ≤ length self.old }
        ensures { self.new ≡ drop n self.old }
    {
        self.start += n;
    }
}
