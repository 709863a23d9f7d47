//! The end of the process: the status's text on standard error, and its number.
ghost use Rattle.std.specs.Prelude.{◌≡◌};
ghost use Rattle.std.specs.Process.{exit_status};
ghost use Rattle.lt_commands.specs.Exits.{exit_number};

use lt_commands::Status;
use std::process::ExitCode;

/// Says on standard error why the call was not done, and answers the number with which the process ends.
pub fn end<R: Eprint>(rt: &R, status: Status) -> ExitCode
    ensures { exit_status result ≡ exit_number status }
{
    if status != Status::Done {
        // Where standard error takes nothing, the number tells it alone.
        let _ = eprintln!(rt; "{status}");
    }
    ExitCode::from(status.exit_number())
}
