//! Reading a whole range of a file.
ghost use Rattle.std.specs.Prelude.{◌≡◌, ◌+◌, ◌≤◌, [], length, take, drop, IfOk, OnOk};

use lt_world::Fault;
use std::fs::File;
use std::io;
use std::io::ErrorKind;
use std::os::unix::fs::FileExt;

/// A file that is read at any place.
pub trait ReadAt {
    ghost use Rattle.std.specs.Prelude.{ℕ, List, IfOk};
    ghost use Rattle.files_disk.specs.Ranges.{GivesAt};
    ghost use Rattle.std.specs.Io.{ReadsAtMost};

    /// Whether files of this type tell their bytes.
    ghost tells: { Type 0 };

    ghost bytes: { Self → List ℕ };

    /// Reads once, some of the bytes from `start` on. A read of no byte into a buffer that is not empty is past the
    /// end.
    fn read_at(&self, buf: &mut [u8], start: u64) -> io::Result<usize>
        ensures within { ReadsAtMost result buf.new }
        ensures bytes { tells → IfOk result (λ n. GivesAt n start (bytes self.now) buf.new) };
}

impl ReadAt for File {
    ghost tells = { ⊥ };

    ghost bytes = { λ _. [] };

    fn read_at(&self, buf: &mut [u8], start: u64) -> io::Result<usize> {
        FileExt::read_at(self, buf, start)
    }
}

/// Fills the whole buffer with the bytes from `start` on, or fails: a file that ends before that is a fault.
pub fn fill<F: ReadAt>(file: &F, start: u64, buf: &mut [u8]) -> Result<(), Fault>
    ensures whole { F.tells → OnOk result (buf.new ≡ take (length buf.new) (drop start (F.bytes file.now))) }
{
    let mut filled = 0;
    for _ in 0..u64::MAX {
        if filled >= buf.len() {
            return Ok(());
        }
        match fill_on(file, start, filled, buf) {
            Ok(n) => filled += n,
            Err(fault) => return Err(fault),
        }
    }
    Err(Fault)
}

// Reads once behind the filled front. An interrupted read is one of no byte.
fn fill_on<F: ReadAt>(file: &F, start: u64, filled: usize, buf: &mut [u8]) -> Result<usize, Fault>
    requires { filled ≤ length buf.old }
    ensures within { IfOk result (λ n. filled + n ≤ length buf.new) }
    ensures front { F.tells → take filled buf.old ≡ take filled (drop start (F.bytes file.now)) →
        IfOk result (λ n. take (filled + n) buf.new ≡ take (filled + n) (drop start (F.bytes file.now))) }
{
    let Some(at) = start.checked_add(filled as u64) else {
        return Err(Fault);
    };
    match file.read_at(&mut buf[filled..], at) {
        Ok(0) => Err(Fault),
        Ok(n) => Ok(n),
        Err(error) if error.kind() == ErrorKind::Interrupted => Ok(0),
        Err(_) => Err(Fault),
    }
}
