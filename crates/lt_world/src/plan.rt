//! Which calls of one kind are to fail.
ghost use Rattle.std.specs.Prelude.{◌≡◌, [], ◌∷◌, ◌++◌, OnOk, OnErr};
ghost use Rattle.lt_world.specs.Plans.{is_due, next};

use lt_bytes::NoMemory;
use std::alloc::Global;
use std::marker::Model;

#[derive(Drop)]
pub struct Plan {
    fails: Vec<u64>,
    made: u64,
}

impl Model for Plan {
    ghost use Rattle.lt_world.specs.Plans.{Planned};

    ghost Value = { Planned };

    ghost view = { λ a. record { fails = a.fails.items; made = a.made } };
}

impl Plan {
    pub fn new(alloc: Global) -> Plan
        ensures { result ≡ record { fails = []; made = 0 } }
    {
        Plan {
            fails: Vec::new(alloc),
            made: 0,
        }
    }

    pub fn add(&mut self, nth: u32) -> Result<(), NoMemory>
        ensures ok { OnOk result (self.new ≡ record { fails = self.old.fails ++ nth ∷ []; made = self.old.made }) }
        ensures err { OnErr result (self.new ≡ self.old) }
    {
        match self.fails.push(u64::from(nth)) {
            Ok(()) => Ok(()),
            Err(_) => Err(NoMemory),
        }
    }

    /// Whether the next call is one that fails.
    pub fn is_due(&self) -> bool
        ensures { result ≡ is_due self.now }
    {
        self.fails.contains(&self.made)
    }

    /// A call was made.
    pub fn count(&mut self)
        ensures { self.new ≡ record { fails = self.old.fails; made = next self.old.made } }
    {
        self.made = self.made.saturating_add(1);
    }
}
