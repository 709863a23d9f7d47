//! What stands at the paths of the files in memory.
ghost use Rattle.std.specs.Prelude.{◌≡◌, ◌++◌, ◌∷◌, [], take, OnOk, OnErr, length};
ghost use Rattle.lt_world.specs.Disk.{Directory};
ghost use Rattle.lt_world.specs.Memory.{Placed, tree_by, with_node, with_directories, parents};
ghost use Rattle.lt_world.specs.Standing.{node_of, Sees, StandsLast, AddsPlaces};

use crate::content::Content;
use lt_bytes::{NoMemory, Text};
use std::alloc::Global;
use std::marker::Model;

#[derive(Drop)]
pub enum Standing {
    Directory,
    File(Content),
}

#[derive(Drop)]
pub struct Place {
    pub path: Text,
    pub standing: Standing,
}

/// What a path names.
#[derive(Clone, Copy)]
pub enum Seen<'a> {
    Missing,
    Directory,
    File(&'a Content),
}

/// In the order in which they were placed: of one path the last counts.
#[derive(Drop)]
pub struct Places {
    alloc: Global,
    places: Vec<Place>,
}

impl Model for Places {
    ghost use Rattle.std.specs.Prelude.{List};
    ghost use Rattle.lt_world.specs.Memory.{Placed};

    ghost Value = { List Placed };

    ghost use Rattle.lt_world.specs.PlaceView.{placed_of};

    ghost view = { placed_of };
}

impl Places {
    pub fn new(alloc: Global) -> Places
        ensures { result ≡ [] }
    {
        Places {
            alloc,
            places: Vec::new(alloc),
        }
    }

    /// What a path names: with a final slash only a directory, and nothing at the empty path.
    pub fn at(&self, path: &[u8]) -> Seen<'_>
        ensures { Sees result (tree_by self.now path.now) }
    {
        let Some((last, before)) = path.split_last() else {
            return Seen::Missing;
        };
        if *last == b'/' {
            return match self.last_at(before) {
                Some(Standing::Directory) => Seen::Directory,
                Some(Standing::File(_)) => Seen::Missing,
                None => Seen::Missing,
            };
        }
        match self.last_at(path) {
            None => Seen::Missing,
            Some(Standing::Directory) => Seen::Directory,
            Some(Standing::File(content)) => Seen::File(content),
        }
    }

    fn last_at(&self, path: &[u8]) -> Option<&Standing>
        ensures { StandsLast result path.now self.now }
    {
        let mut i = self.places.len();
        while i > 0 {
            i -= 1;
            let place = &self.places[i];
            if place.path.bytes() == path {
                return Some(&place.standing);
            }
        }
        None
    }

    fn add(&mut self, path: &[u8], standing: Standing) -> Result<(), NoMemory>
        ensures ok { OnOk result (self.new ≡ self.old ++ record { path = path.now; node = node_of standing } ∷ []) }
        ensures err { OnErr result (self.new ≡ self.old) }
    {
        let path = Text::from_bytes(self.alloc, path)?;
        if self.places.push(Place { path, standing }).is_err() {
            return Err(NoMemory);
        }
        Ok(())
    }

    fn add_directory(&mut self, path: &[u8]) -> Result<(), NoMemory>
        ensures ok { OnOk result (tree_by self.new ≡ with_node path.now Directory (tree_by self.old)) }
        ensures grows { AddsPlaces self.old self.new }
    {
        if let Some(Standing::Directory) = self.last_at(path) {
            return Ok(());
        }
        self.add(path, Standing::Directory)
    }

    fn add_parents(&mut self, path: &[u8]) -> Result<(), NoMemory>
        ensures ok { OnOk result (tree_by self.new ≡ with_directories (parents [] path.now) (tree_by self.old)) }
        ensures grows { AddsPlaces self.old self.new }
    {
        for i in 0..path.len() {
            if path[i] == b'/' && self.add_directory(&path[..i]).is_err() {
                return Err(NoMemory);
            }
        }
        Ok(())
    }

    fn add_with_parents(&mut self, path: &[u8], standing: Standing) -> Result<(), NoMemory>
        ensures ok { OnOk result (tree_by self.new ≡ with_node path.now (node_of standing) (with_directories (parents [] path.now) (tree_by self.old))) }
        ensures grows { AddsPlaces self.old self.new }
    {
        self.add_parents(path)?;
        self.add(path, standing)
    }

    fn len(&self) -> usize
        ensures { result ≡ length self.now }
    {
        self.places.len()
    }

    fn truncate(&mut self, len: usize)
        ensures { self.new ≡ take len self.old }
    {
        self.places.truncate(len);
    }

    /// Places something at a path, and a directory at each of its parents.
    pub fn place(&mut self, path: &[u8], standing: Standing) -> Result<(), NoMemory>
        ensures ok { OnOk result (tree_by self.new ≡ with_node path.now (node_of standing) (with_directories (parents [] path.now) (tree_by self.old))) }
        ensures err { OnErr result (self.new ≡ self.old) }
    {
        let len = self.len();
        let placed = self.add_with_parents(path, standing);
        if placed.is_err() {
            self.truncate(len);
        }
        placed
    }
}
