//! Faults with their places.
ghost use Rattle.std.specs.Prelude.{◌≡◌};
ghost use Rattle.conf_eval.specs.Answers.{halted};

use crate::halt::Halt;
use crate::{ConfFault, ConfKind, LoadError};

/// A fault of this kind.
pub fn fault(kind: ConfKind, file: u32, line: u32) -> LoadError
    ensures { result ≡ LoadError.Conf (record { kind = kind; file = file; line = line }) }
{
    LoadError::Conf(ConfFault { kind, file, line })
}

/// What halts a statement of this line.
pub fn stop(halt: Halt, file: u32, line: u32) -> LoadError
    ensures { result ≡ halted halt file line }
{
    match halt {
        Halt::Wrong(wrong) => fault(wrong.kind(), file, line),
        Halt::NoMemory => LoadError::NoMemory,
    }
}
