//! The bytes in memory at the front of a queue, a chunk at a time.
ghost use Rattle.std.specs.Prelude.{◌≡◌, [], ◌∷◌, MatchOption};
ghost use Rattle.std.specs.Iterator.{YieldsFirstRef, item_count};
ghost use Rattle.chunkqueue.specs.Pooled.{slices_before};

use buffer_pool::{ChunkList, Kind, Walk};
use std::marker::Model;

/// An iterator over what the chunks in memory that stand before any range hold, a slice each. Nothing is copied.
#[derive(Drop)]
pub struct Slices<'a> {
    walk: Walk<'a>,
    // A range was met.
    ended: bool,
}

impl<'a> Model for Slices<'a> {
    ghost use Rattle.std.specs.Prelude.{ℕ, List, [], if◌then◌else◌};
    ghost use Rattle.chunkqueue.specs.Pooled.{slices_before};

    ghost Value = { List (List ℕ) };

    ghost view = { λ p. if p.ended then [] else slices_before p.walk };
}

impl<'a> Slices<'a> {
    /// What the chunks of a queue hold, up to the first range.
    pub(crate) fn of(chunks: &'a ChunkList) -> Slices<'a>
        ensures { result ≡ slices_before chunks.now }
    {
        Slices {
            walk: chunks.walk(),
            ended: false,
        }
    }

    fn step(&mut self) -> Option<&'a [u8]>
        ensures { MatchOption result ((self.old ≡ []) × (self.new ≡ [])) (λ slice. self.old ≡ slice.now ∷ self.new) }
    {
        if self.ended {
            return None;
        }
        let Some(view) = self.walk.next() else {
            return None;
        };
        let Kind::Bytes = view.kind else {
            self.ended = true;
            return None;
        };
        Some(view.bytes)
    }
}

impl<'a> Iterator for Slices<'a> {
    type Item = &'a [u8];

    ghost next_gives = { YieldsFirstRef (λ s. s) };

    ghost remaining = { item_count (λ s. s) };

    fn next(&mut self) -> Option<&'a [u8]> {
        self.step()
    }
}
