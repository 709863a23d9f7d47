//! Files of letters.
use lt_world::{Fault, FileId, Files, Found, Opened, Owner, ReadLog};

/// Files in which the letters from a to z stand one after another, over and over.
#[derive(Drop)]
pub struct Letters {
    /// Each read fails.
    pub broken: bool,
    faults: u64,
    reads: ReadLog,
}

impl Letters {
    pub fn new() -> Letters {
        Letters {
            broken: false,
            faults: 0,
            reads: ReadLog::new(),
        }
    }
}

impl Files for Letters {
    ghost use Rattle.std.specs.Prelude.{◌≤◌, None, []};
    ghost use Rattle.std.proofs.Common.{le_refl, le_trans};
    ghost use Rattle.lt_world.specs.Disk.{Missing};

    ghost tells = { ⊥ };

    ghost disk = { λ _. record { tree = λ _. Missing; table = λ _. None; calls = [] } };

    ghost faults = { λ files. files.faults };

    ghost reads = { λ files. files.reads };

    ghost later = { λ a b. a.faults ≤ b.faults };

    ghost later_same = { λ files. le_refl files.faults };

    ghost later_later = { λ a b c ab bc. le_trans ab bc };

    ghost later_faults = { λ a b later. later };

    fn find(&mut self, _owner: Owner, _path: &[u8]) -> Found {
        Found::Missing
    }

    fn open(&mut self, _owner: Owner, _path: &[u8]) -> Opened {
        Opened::NoMemory
    }

    fn read_at(
        &mut self,
        owner: Owner,
        _file: FileId,
        start: u64,
        buf: &mut [u8],
    ) -> Result<(), Fault> {
        if self.broken {
            self.faults = self.faults.saturating_add(1);
            self.reads.add(owner, &Err(Fault));
            return Err(Fault);
        }
        for (i, byte) in buf.iter_mut().enumerate() {
            *byte = b'a' + (start.wrapping_add(i as u64) % 26) as u8;
        }
        self.reads.add(owner, &Ok(()));
        Ok(())
    }

    fn release(&mut self, _file: FileId) {}
}
