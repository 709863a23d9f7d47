//! The opened files, each with its bytes under its number.
ghost use Rattle.std.specs.Prelude.{◌≡◌, ◌+◌, ◌≤◌, ◌<◌, ℕ, List, Some, None, IfSome, [], ◌∷◌, ◌++◌, length, take, drop, set};
ghost use Rattle.lt_world.specs.Memory.{table_by};
ghost use Rattle.lt_world.specs.Slots.{OpensSlot, closes_slot};

use lt_bytes::Text;
use std::alloc::Global;
use std::marker::Model;
use std::rc::Rc;

#[derive(Drop)]
pub struct Slots {
    slots: Vec<Option<Rc<Text>>>,
}

impl Model for Slots {
    ghost use Rattle.std.specs.Prelude.{ℕ, List, Option};

    ghost Value = { List (Option (List ℕ)) };

    ghost use Rattle.lt_world.specs.SlotView.{slots_of};

    ghost view = { slots_of };
}

impl Slots {
    pub fn new(alloc: Global) -> Slots
        ensures { result ≡ [] }
    {
        Slots {
            slots: Vec::new(alloc),
        }
    }

    /// Opens a file under a number that was never used. Its bytes are shared, not copied.
    pub fn open(&mut self, bytes: &Rc<Text>) -> Option<u32>
        ensures { OpensSlot result bytes.now.value self.old self.new }
    {
        let file = self.slots.len();
        if file > 0xffff_ffff {
            return None;
        }
        let Ok(shared) = bytes.clone() else {
            return None;
        };
        if self.slots.push(Some(shared)).is_err() {
            return None;
        }
        Some(file as u32)
    }

    /// Copies the bytes from `start` on that the buffer has room for.
    pub fn read(&self, file: u32, start: u64, buf: &mut [u8])
        requires { (x : List ℕ) × (table_by self.now file ≡ Some x) × (start + length buf.old ≤ length x) }
        ensures { (x : List ℕ) → table_by self.now file ≡ Some x → buf.new ≡ take (length buf.old) (drop start x) }
    {
        let bytes = self.bytes(file);
        let rest = &bytes[start as usize..];
        buf.copy_from_slice(&rest[..buf.len()]);
    }

    fn bytes(&self, file: u32) -> &[u8]
        requires { (x : List ℕ) × (table_by self.now file ≡ Some x) }
        ensures { table_by self.now file ≡ Some result.now }
    {
        match &self.slots[file as usize] {
            Some(bytes) => bytes.bytes(),
            None => &[],
        }
    }

    pub fn release(&mut self, file: u32)
        ensures { self.new ≡ closes_slot file self.old }
    {
        let i = file as usize;
        if i < self.slots.len() {
            let slot = &mut self.slots[i];
            *slot = None;
        }
    }
}
