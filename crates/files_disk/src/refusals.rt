//! What it means that the system refuses a name.
ghost use Rattle.std.specs.Prelude.{◌≡◌};
ghost use Rattle.std.specs.IoError.{error_kind};
ghost use Rattle.files_disk.specs.Refusals.{refusal_by};

use std::io::{Error, ErrorKind};

#[derive(Clone, Copy, Debug, PartialEq, Eq)]
pub enum Refusal {
    /// Nothing has that name.
    Missing,
    Failed,
    NoMemory,
}

/// A name that is too long for the system, or that leads through a file, names nothing.
pub fn refusal_of(error: &Error) -> Refusal
    ensures { result ≡ refusal_by (error_kind error.now) }
{
    match error.kind() {
        ErrorKind::NotFound | ErrorKind::NotADirectory | ErrorKind::InvalidFilename => {
            Refusal::Missing
        }
        ErrorKind::OutOfMemory => Refusal::NoMemory,
        _ => Refusal::Failed,
    }
}
