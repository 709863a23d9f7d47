//! How often files were read from, and for whom a read failed last.
ghost use Rattle.std.specs.Prelude.{◌≡◌, None};
ghost use Rattle.lt_world.specs.FileAnswers.{read_once};

use crate::fault::Fault;
use crate::net::Owner;
use std::marker::Model;

/// What files keep of the calls of `read_at`.
#[derive(Drop)]
pub struct ReadLog {
    made: u64,
    failed: Option<Owner>,
}

impl Model for ReadLog {
    ghost use Rattle.lt_world.specs.Disk.{Reads};

    ghost Value = { Reads };

    ghost view = { λ log. record { made = log.made; failed = log.failed } };
}

impl ReadLog {
    /// No call was made.
    pub fn new() -> ReadLog
        ensures { result ≡ record { made = 0; failed = None } }
    {
        ReadLog {
            made: 0,
            failed: None,
        }
    }

    /// A call was made for this owner, and answered so.
    pub fn add(&mut self, owner: Owner, answer: &Result<(), Fault>)
        ensures { self.new ≡ read_once answer.now owner self.old }
    {
        self.made = self.made.saturating_add(1);
        if answer.is_err() {
            self.failed = Some(owner);
        }
    }
}
