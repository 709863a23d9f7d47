//! Standard output as a sink.
use lt_world::{Fault, Sink};
use std::io::{Printer, Write, writer};

/// A writer as a sink. It keeps nothing back: each piece is offered once, as it comes.
#[derive(Drop)]
pub struct OutSink<W> {
    out: W,
    faults: u64,
}

impl<'a, R: Print> OutSink<Printer<'a, R>> {
    /// Standard output, over the runtime.
    pub fn new(rt: &'a R) -> OutSink<Printer<'a, R>> {
        OutSink {
            out: writer(rt),
            faults: 0,
        }
    }
}

impl<W: Write> Sink for OutSink<W> {
    ghost use Rattle.std.specs.Prelude.{◌≤◌, [], IsSome, unwrap_or};
    ghost use Rattle.std.proofs.Common.{le_refl, le_trans};

    // What a writer is known to hold is what the sink took. Of standard output nothing is known.
    ghost tells = { (out : W) → IsSome (W.contents out) };

    ghost bytes = { λ sink. unwrap_or (W.contents sink.out) [] };

    ghost faults = { λ sink. sink.faults };

    // What is later has failed as often or more.
    ghost later = { λ a b. a.faults ≤ b.faults };

    ghost later_same = { λ a. le_refl a.faults };

    ghost later_later = { λ _ _ _ ab bc. le_trans ab bc };

    ghost later_faults = { λ _ _ later. later };

    fn write(&mut self, piece: &[u8]) -> Result<usize, Fault> {
        match self.out.write(piece) {
            Ok(n) if n > 0 || piece.is_empty() => Ok(n),
            // An output that takes nothing will take nothing later.
            _ => {
                self.faults = self.faults.saturating_add(1);
                Err(Fault)
            }
        }
    }
}
