//! Bytes that a source writes straight into the room of a buffer.
ghost use Rattle.std.specs.Prelude.{◌+◌, ◌≤◌, length};
ghost use Rattle.buffer_pool.specs.Filling.{ReadsInto};

/// Bytes of a source of type `S`, which come as a whole or not at all.
pub trait Piece<S> {
    ghost use Rattle.std.specs.Prelude.{ℕ, List, Result, length};

    /// Why none came.
    type Fault;

    /// That the source may be asked for so many.
    ghost can_read: { Self → S → ℕ → Type 0 };

    /// The source that was asked, the answer, what the buffer holds then, and what the source is then.
    ghost reads: { Self → S → Result (Unit {0}) Self.Fault → List ℕ → S → Type 0 };

    /// Fills the whole buffer, or fails.
    fn read(&self, source: &mut S, buf: &mut [u8]) -> Result<(), Self::Fault>
        requires can_read { can_read self.now source.old (length buf.old) }
        ensures reads { reads self.now source.old result buf.new source.new };
}

/// Reads `n` bytes into a buffer from index `at` on.
pub(crate) fn read_into<S, P: Piece<S>>(
    buf: &mut [u8],
    at: usize,
    n: usize,
    piece: &P,
    source: &mut S,
) -> Result<(), P::Fault>
    requires within { at + n ≤ length buf.old }
    requires can_read { P.can_read piece.now source.old n }
    ensures { ReadsInto (P.reads piece.now source.old) buf.old at n result buf.new source.new }
{
    piece.read(source, &mut buf[at..at + n])
}
