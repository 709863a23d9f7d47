//! What was asked, the newest first.
ghost use Rattle.std.specs.Prelude.{◌≡◌, [], ◌∷◌, OnOk, OnErr, drop};

use lt_bytes::NoMemory;
use std::alloc::Global;
use std::marker::Model;

#[derive(Drop)]
pub struct Log<T> {
    items: Vec<T>,
}

impl<T> Model for Log<T> {
    ghost use Rattle.std.specs.Prelude.{List, reverse};
    ghost use Rattle.std.specs.Coded.{coded_list};

    ghost Value = { List T };

    ghost coded = { coded_list T.code };

    ghost view = { λ l. reverse l.items.items };
}

impl<T: Drop> Log<T> {
    pub fn new(alloc: Global) -> Log<T>
        ensures { result ≡ [] }
    {
        Log {
            items: Vec::new(alloc),
        }
    }

    pub fn add(&mut self, item: T) -> Result<(), NoMemory>
        ensures ok { OnOk result (self.new ≡ item ∷ self.old) }
        ensures err { OnErr result (self.new ≡ self.old) }
    {
        match self.items.push(item) {
            Ok(()) => Ok(()),
            Err(_) => Err(NoMemory),
        }
    }

    /// Takes the newest off again.
    pub fn undo(&mut self)
        ensures { self.new ≡ drop 1 self.old }
    {
        let _ = self.items.pop();
    }
}
