//! The script, out of the text of its name.
ghost use Rattle.std.specs.Prelude.{◌≡◌, ◌≤◌, ℕ, List, IfOk};
ghost use Rattle.lt_commands.specs.Reading.{ScriptSays, ReadCause, Asks, IsOnly, HasScript};
ghost use Rattle.lt_script.specs.Texts.{Spells};
ghost use Rattle.lt_script.specs.declared.script.Script.{Script};

use crate::status::Status;
use lt_script::{SCRIPT_LIMIT, Script, ScriptError, parse_script};
use lt_world::{Fetched, Texts};
use std::alloc::Global;

/// The number of the script among the named texts.
pub const SCRIPT: u32 = 2;

/// What a script that is too long has in place of a wrong line.
const TOO_LONG: Status = Status::Script { line: 0 };

/// The script that the text of this name spells.
pub fn read_script<X: Texts>(alloc: Global, texts: &mut X, name: &str) -> Result<Script, Status>
    ensures says { X.tells → ScriptSays result (X.texts texts.old name.now) }
    ensures spelled { IfOk result (λ script. (bytes : List ℕ) × Spells bytes script) }
    ensures only { X.tells → (said : Script) → HasScript (X.texts texts.old name.now) said → IsOnly said result }
    ensures asks { X.tells → Asks result name.now (X.calls texts.old) (X.calls texts.new) }
    ensures cause { ReadCause result (X.faults texts.old) (X.faults texts.new) }
    ensures texts { X.tells → X.texts texts.new ≡ X.texts texts.old }
    ensures faults { X.faults texts.old ≤ X.faults texts.new }
{
    match texts.fetch(name.as_bytes(), SCRIPT_LIMIT as u64) {
        Fetched::Text(text) => match parse_script(alloc, text.bytes()) {
            Ok(script) => Ok(script),
            Err(ScriptError::Line { number }) => Err(Status::Script { line: number }),
            Err(ScriptError::TooLong) => Err(TOO_LONG),
            Err(ScriptError::NoMemory) => Err(Status::NoMemory),
        },
        Fetched::Missing => Err(Status::Missing { text: SCRIPT }),
        Fetched::Long => Err(TOO_LONG),
        Fetched::Failed => Err(Status::TextFault),
        Fetched::NoMemory => Err(Status::NoMemory),
    }
}
