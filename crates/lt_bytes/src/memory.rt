//! Want of memory, the one failure that no caller can rule out.
ghost use Rattle.std.specs.Prelude.{◌≡◌, Some, codes};
ghost use Rattle.lt_bytes.specs.Memory.{no_memory};

use std::alloc::{AllocError, AllocFailed};
use std::error::Error;
use std::fmt;

/// Memory ran out. What the call was to change stands as it was, unless the call says otherwise.
#[derive(Clone, Copy, Debug, PartialEq, Eq)]
pub struct NoMemory;

impl fmt::Display for NoMemory {
    ghost output = { λ _. Some (codes "out of memory") };

    fn fmt<W: fmt::Write>(&self, f: &mut fmt::Formatter<W>) -> fmt::Result {
        write!(f, "out of memory")
    }
}

impl Error for NoMemory {}

impl From<AllocError> for NoMemory {
    ghost from_gives = { λ _ e. e ≡ no_memory };

    fn from(_error: AllocError) -> NoMemory {
        NoMemory
    }
}

/// What could not be stored is dropped.
impl<T: Drop> From<AllocFailed<T>> for NoMemory {
    ghost from_gives = { λ _ e. e ≡ no_memory };

    fn from(_error: AllocFailed<T>) -> NoMemory {
        NoMemory
    }
}
