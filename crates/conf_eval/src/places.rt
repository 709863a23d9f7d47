//! Where keys stand in a list, by their bytes.
ghost use Rattle.std.specs.Prelude.{◌≡◌, ℕ, List, IfOk, OnErr, OnOk, None, Some, if◌then◌else◌};
ghost use Rattle.std.specs.Str.{bytes_eq};
ghost use Rattle.conf_eval.specs.Places.{place_in};

use lt_bytes::NoMemory;
use std::alloc::Global;
use std::collections::HashMap;

/// The place of each key of a list, so that adding to a list looks through none of it.
#[derive(Drop)]
pub struct Places {
    alloc: Global,
    by_key: HashMap<Vec<u8>, usize>,
}

impl Places {
    pub fn new(alloc: Global) -> Places
        ensures { (key : List ℕ) → place_in result key ≡ None }
    {
        Places {
            alloc,
            by_key: HashMap::new(alloc),
        }
    }

    pub fn find(&self, key: &[u8]) -> Option<usize>
        ensures { result ≡ place_in self.now key.now }
    {
        match self.by_key.get(key) {
            Some(at) => Some(*at),
            None => None,
        }
    }

    /// A copy of a key, as `put` takes it.
    pub fn name(&self, key: &[u8]) -> Result<Vec<u8>, NoMemory>
        ensures { IfOk result (λ name. name.items ≡ key.now) }
    {
        match Vec::from_slice(self.alloc, key) {
            Ok(name) => Ok(name),
            Err(_) => Err(NoMemory),
        }
    }

    /// Puts a key at a place.
    pub fn put(&mut self, key: Vec<u8>, at: usize) -> Result<(), NoMemory>
        ensures ok { OnOk result ((other : List ℕ) → place_in self.new other ≡ (if bytes_eq key.items other then Some at else place_in self.old other)) }
        ensures err { OnErr result ((other : List ℕ) → place_in self.new other ≡ place_in self.old other) }
    {
        match self.by_key.insert(key, at) {
            Ok(_) => Ok(()),
            Err(_full) => Err(NoMemory),
        }
    }
}
