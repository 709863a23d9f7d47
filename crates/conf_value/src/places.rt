//! Where the keys of an array stand.
ghost use Rattle.std.specs.Prelude.{IfOk, OnOk, ◌≡◌};
ghost use Rattle.std.specs.Option.{option_and_then};
ghost use Rattle.conf_value.specs.declared.value.Pair.{out-Pair};
ghost use Rattle.conf_value.specs.Places.{ArePlaces, HasNow, IsNoted, IsNotedKey, place_in};

use crate::Pair;
use lt_bytes::NoMemory;
use std::alloc::Global;
use std::collections::HashMap;

/// For each key of an array the place of the first pair that has it.
#[derive(Drop)]
pub struct Places {
    map: HashMap<Vec<u8>, usize>,
}

impl Places {
    /// The places of these pairs.
    pub fn of(alloc: Global, pairs: &[Pair]) -> Result<Places, NoMemory>
        ensures { IfOk result (λ places. ArePlaces pairs.now places) }
    {
        let mut places = Places {
            map: HashMap::new(alloc),
        };
        for (at, pair) in pairs.iter().enumerate() {
            places.note(alloc, pair, at)?;
        }
        Ok(places)
    }

    /// The place of the key of this pair.
    pub fn get(&self, pair: &Pair) -> Option<usize>
        ensures { result ≡ option_and_then (place_in self.now) (out-Pair pair.now).key }
    {
        match &pair.key {
            Some(key) => self.place(key.bytes()),
            None => None,
        }
    }

    fn place(&self, key: &[u8]) -> Option<usize>
        ensures { result ≡ place_in self.now key.now }
    {
        self.map.get(key).copied()
    }

    /// Notes that this pair stands at a place. A key that has a place keeps it.
    pub fn note(&mut self, alloc: Global, pair: &Pair, at: usize) -> Result<(), NoMemory>
        ensures { OnOk result (IsNoted self.old pair.now at self.new) }
    {
        match &pair.key {
            Some(key) => self.note_key(alloc, key.bytes(), at),
            None => Ok(()),
        }
    }

    fn note_key(&mut self, alloc: Global, key: &[u8], at: usize) -> Result<(), NoMemory>
        ensures { OnOk result (IsNotedKey self.old key.now at self.new) }
    {
        if self.place(key).is_some() {
            return Ok(());
        }
        self.insert(alloc, key, at)
    }

    fn insert(&mut self, alloc: Global, key: &[u8], at: usize) -> Result<(), NoMemory>
        ensures { OnOk result (HasNow self.old key.now at self.new) }
    {
        let key = Vec::from_slice(alloc, key)?;
        self.map.insert(key, at)?;
        Ok(())
    }
}
