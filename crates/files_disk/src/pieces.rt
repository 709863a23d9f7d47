//! Reading a whole text, piece by piece.
ghost use Rattle.std.specs.Prelude.{◌≡◌, ◌≤◌};
ghost use Rattle.std.specs.Io.{ReadsAtMost};
ghost use Rattle.std.specs.Io.KnownBytes.{ReadConsumes};
ghost use Rattle.lt_world.specs.TextAnswers.{FetchCause};
ghost use Rattle.files_disk.specs.Pieces.{IsWhole};

use lt_bytes::Text;
use lt_world::{Fault, Fetched, Source};
use std::alloc::Global;
use std::io::{ErrorKind, Read};

/// How many bytes one read asks for.
const PIECE: usize = 4096;

/// A reader as a source. An interrupted read is made again.
#[derive(Drop)]
pub struct Reading<F> {
    file: F,
    faults: u64,
}

impl<F> Reading<F> {
    pub fn new(file: F) -> Reading<F>
        ensures { result.faults ≡ 0 }
    {
        Reading { file, faults: 0 }
    }
}

impl<F: Read> Source for Reading<F> {
    ghost use Rattle.std.specs.Prelude.{◌≤◌, [], IsSome, unwrap_or};
    ghost use Rattle.std.proofs.Common.{le_refl, le_trans};

    // Where the reader's bytes are known, they are those of the source.
    ghost tells = { (file : F) → IsSome (F.remaining file) };

    ghost bytes = { λ source. unwrap_or (F.remaining source.file) [] };

    ghost faults = { λ source. source.faults };

    // What is later has failed as often or more.
    ghost later = { λ a b. a.faults ≤ b.faults };

    ghost later_same = { λ a. le_refl a.faults };

    ghost later_later = { λ _ _ _ ab bc. le_trans ab bc };

    ghost later_faults = { λ _ _ later. later };

    fn read(&mut self, buf: &mut [u8]) -> Result<usize, Fault> {
        match read_once(&mut self.file, buf) {
            Ok(n) => Ok(n),
            Err(fault) => {
                self.faults = self.faults.saturating_add(1);
                Err(fault)
            }
        }
    }
}

fn read_once<F: Read>(file: &mut F, buf: &mut [u8]) -> Result<usize, Fault>
    ensures bound { ReadsAtMost result buf.new }
    ensures bytes { ReadConsumes (F.remaining file.old) (F.remaining file.new) result buf.new }
{
    for _ in 0..u64::MAX {
        match file.read(buf) {
            Ok(n) => return Ok(n),
            Err(error) if error.kind() == ErrorKind::Interrupted => {}
            Err(_) => return Err(Fault),
        }
    }
    Err(Fault)
}

/// All bytes of a source, if they are at most `max`.
pub fn read_whole<S: Source>(alloc: Global, source: &mut S, max: u64) -> Fetched
    ensures whole { IsWhole result S.tells max (S.bytes source.old) }
    ensures cause { FetchCause result (S.faults source.old) (S.faults source.new) }
    ensures faults { S.faults source.old ≤ S.faults source.new }
{
    let mut text = Text::new(alloc);
    let mut piece = [0u8; PIECE];
    loop {
        match source.read(&mut piece) {
            Ok(0) => return Fetched::Text(text),
            Ok(n) => {
                if n as u64 > max - text.len() as u64 {
                    return Fetched::Long;
                }
                if text.push_all(&piece[..n]).is_err() {
                    return Fetched::NoMemory;
                }
            }
            Err(_) => return Fetched::Failed,
        }
    }
}
