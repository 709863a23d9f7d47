//! The groups of a match.
ghost use Rattle.std.specs.Prelude.{◌≡◌, ◌<◌, [], ◌∷◌, ◌++◌, OnOk, OnErr};
ghost use Rattle.conditions.specs.Groups.{group_at};

use lt_bytes::{List, NoMemory, Text};
use std::alloc::Global;
use std::marker::Model;

/// The texts of the groups 0 to 9 of a match; group 0 is the whole match. A group that took no part is empty, and
/// where nothing matched all are. Contracts see the list of the texts.
#[derive(Drop)]
pub struct Groups {
    texts: List<Text>,
}

impl Model for Groups {
    ghost use Rattle.std.specs.Prelude.{ℕ, List};

    ghost Value = { List (List ℕ) };

    ghost view = { λ g. g.texts };
}

impl Groups {
    /// Empty groups, which take no memory.
    pub fn new(alloc: Global) -> Groups
        ensures { result ≡ [] }
    {
        Groups {
            texts: List::new(alloc),
        }
    }

    /// The text of a group.
    pub fn get(&self, n: u8) -> &[u8]
        requires { n < 10 }
        ensures { result.now ≡ group_at self.now n }
    {
        match self.texts.get(usize::from(n)) {
            Some(text) => text.bytes(),
            None => &[],
        }
    }

    /// Adds the text of the next group.
    pub(crate) fn push(&mut self, text: Text) -> Result<(), NoMemory>
        ensures ok { OnOk result (self.new ≡ self.old ++ text ∷ []) }
        ensures err { OnErr result (self.new ≡ self.old) }
    {
        self.texts.push(text)
    }
}
