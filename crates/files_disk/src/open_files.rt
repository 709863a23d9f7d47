//! The opened files, each under its number. A number that was given back is used again.
ghost use Rattle.std.specs.Prelude.{◌≡◌, ◌^◌, ◌<◌, [], None, Some, IsOk, OnOk, option_copied};
ghost use Rattle.slab.specs.Slab.{get, HasRoomFor, Updates};

use lt_bytes::NoMemory;
use lt_world::FileId;
use slab::Slab;
use std::alloc::Global;
use std::marker::Model;

#[derive(Drop)]
pub struct OpenFiles<F> {
    files: Slab<F>,
}

impl<F> Model for OpenFiles<F> {
    ghost use Rattle.slab.specs.Slab.{Slab, slab_code};

    ghost Value = { Slab F };

    ghost coded = { slab_code F.code };

    ghost view = { λ o. o.files };
}

impl<F: Drop> OpenFiles<F> {
    /// No file is open, and no memory is taken.
    pub fn new(alloc: Global) -> OpenFiles<F>
        ensures empty { result.slots ≡ [] }
        ensures room { result.capacity ≡ 0 }
    {
        OpenFiles {
            files: Slab::new(alloc),
        }
    }

    /// Room and a number for one file more. It takes memory only where more files are open than ever before.
    pub fn make_room(&mut self) -> Result<(), NoMemory>
        ensures room { OnOk result (HasRoomFor self.new 1) }
        ensures number { OnOk result (self.new.vacant_key < 2 ^ 32) }
        ensures kept { self.new ≡ record self.old { capacity = self.new.capacity } }
        ensures still { HasRoomFor self.old 1 → self.new ≡ self.old }
        ensures succeeds { HasRoomFor self.old 1 → self.old.vacant_key < 2 ^ 32 → IsOk result }
    {
        if self.files.vacant_key() > 0xffff_ffff {
            return Err(NoMemory);
        }
        match self.files.reserve(1) {
            Ok(()) => Ok(()),
            Err(_) => Err(NoMemory),
        }
    }

    /// Puts an opened file under a number that no open file has.
    pub fn add(&mut self, file: F) -> FileId
        requires room { HasRoomFor self.old 1 }
        requires number { self.old.vacant_key < 2 ^ 32 }
        ensures fresh { get self.old result.0 ≡ None }
        ensures added { Updates self.old self.new result.0 (Some file) }
        ensures room { self.new.capacity ≡ self.old.capacity }
    {
        FileId(self.files.insert_reserved(file) as u32)
    }

    /// The file that is open under this number.
    pub fn at(&self, file: FileId) -> Option<&F>
        ensures { option_copied result ≡ get self.now file.0 }
    {
        self.files.get(file.0 as usize)
    }

    /// Closes the file that is open under this number, and no other.
    pub fn release(&mut self, file: FileId)
        ensures closed { Updates self.old self.new file.0 None }
        ensures room { self.new.capacity ≡ self.old.capacity }
    {
        let _ = self.files.try_remove(file.0 as usize);
    }
}
