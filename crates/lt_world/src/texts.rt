//! Texts by their names: configuration files and scripts.
use lt_bytes::Text;

#[derive(Drop)]
pub enum Fetched {
    Text(Text),
    Missing,
    /// The text has more bytes than were asked for.
    Long,
    Failed,
    NoMemory,
}

/// The kind of an answer of `fetch` that is kept.
#[derive(Clone, Copy, Debug, PartialEq, Eq)]
pub enum FetchKind {
    Text,
    Missing,
    Long,
    Failed,
}

/// A call of `fetch` that was made.
#[derive(Debug, Drop)]
pub struct Fetch {
    pub name: Text,
    pub answer: FetchKind,
}

/// Where whole texts come from.
///
/// A call that answers for want of memory is not kept among the calls that were made.
pub trait Texts {
    ghost use Rattle.std.specs.Prelude.{◌≡◌, ℕ, ◌≤◌, List};
    ghost use Rattle.lt_world.specs.declared.texts.Fetch.{Fetch};
    ghost use Rattle.lt_world.specs.TextAnswers.{Library, fetch_keeps, FetchRight, FetchWithin, FetchCause};

    /// Whether texts of this type tell what they hold and what was asked.
    ghost tells: { Type 0 };

    /// The bytes under each name.
    ghost texts: { Self → Library };

    /// The calls of `fetch` so far, the newest first.
    ghost calls: { Self → List Fetch };

    /// How often a call has failed. It never falls.
    ghost faults: { Self → ℕ };

    /// The second texts are what the first may become. What is later has failed as often or more.
    ghost later: { Self → Self → Type 0 };

    /// The whole text of this name, if it has at most `max` bytes.
    fn fetch(&mut self, name: &[u8], max: u64) -> Fetched
        ensures texts { tells → texts self.new ≡ texts self.old }
        ensures calls { tells → calls self.new ≡ fetch_keeps result name.now (calls self.old) }
        ensures right { tells → FetchRight result max (texts self.old name.now) }
        ensures within { FetchWithin result max }
        ensures cause { FetchCause result (faults self.old) (faults self.new) }
        ensures faults { faults self.old ≤ faults self.new }
        ensures later { later self.old self.new };

    ghost later_same: { (texts : Self) → later texts texts };

    ghost later_later: { (a b c : Self) → later a b → later b c → later a c };

    ghost later_faults: { (a b : Self) → later a b → faults a ≤ faults b };
}
