//! What makes patterns.

use lt_bytes::Text;
use regex::bytes::Regex;

/// What a maker answers for a text.
#[derive(Drop)]
pub enum Made {
    Pattern(Regex),
    Refused,
    NoMemory,
}

/// The kind of an answer of `make` that is kept.
#[derive(Clone, Copy, Debug, PartialEq, Eq)]
pub enum MadeKind {
    Pattern,
    Refused,
}

/// A call of `make` that was made.
#[derive(Debug, Drop)]
pub struct Asked {
    pub text: Text,
    pub answer: MadeKind,
}

/// What makes patterns of texts.
///
/// A call that answers for want of memory is not kept among the calls that were made.
pub trait PatternMaker {
    ghost use Rattle.std.specs.Prelude.{◌≡◌, ℕ, ◌≤◌, List};
    ghost use Rattle.conditions.specs.declared.made.Asked.{Asked};
    ghost use Rattle.conditions.specs.Made.{made_keeps, MadeRight, MadeCause};

    /// The calls of `make` so far, the newest first.
    ghost calls: { Self → List Asked };

    /// How often a text was refused. It never falls.
    ghost refusals: { Self → ℕ };

    /// The pattern of this text. A pattern is what the grammar of regular expressions reads in the text, and a text is
    /// refused only where the count of refusals rises.
    fn make(&mut self, text: &[u8]) -> Made
        ensures right { MadeRight text.now result }
        ensures calls { calls self.new ≡ made_keeps result text.now (calls self.old) }
        ensures cause { MadeCause result (refusals self.old) (refusals self.new) }
        ensures refusals { refusals self.old ≤ refusals self.new };
}
