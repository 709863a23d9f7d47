//! Which places count, one for each typed key.
ghost use Rattle.std.specs.Prelude.{◌≡◌, ◌≢◌, None};
ghost use Rattle.settings.specs.declared.key.Key.{Key};
ghost use Rattle.settings.specs.Indexed as spec;

use crate::key::Key;
use crate::places::Place;

/// For each typed key the place that counts, if any does.
#[derive(Clone, Copy, Debug, PartialEq, Eq)]
pub struct Counting {
    places: [Option<Place>; 16],
}

impl Counting {
    /// No key is set.
    pub fn new() -> Counting
        ensures { (key : Key) → spec.place_in result key ≡ None }
    {
        Counting { places: [None; 16] }
    }

    /// The place of a key.
    pub fn place(&self, key: Key) -> Option<Place>
        ensures { result ≡ spec.place_in self.now key }
    {
        self.places[key.row()]
    }

    /// From now on a key has this place.
    pub fn set(&mut self, key: Key, place: Option<Place>)
        ensures key { spec.place_in self.new key ≡ place }
        ensures others { (other : Key) → other ≢ key → spec.place_in self.new other ≡ spec.place_in self.old other }
    {
        self.places[key.row()] = place;
    }
}
