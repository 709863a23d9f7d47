//! The text of a script.
ghost use Rattle.std.specs.Prelude.{◌≡◌, ◌+◌, ◌<◌, ◌≤◌, ◌↔◌, ℕ, List, length, option_map, IfSome, OnOk, IfOk, IfErr};
ghost use Rattle.lt_script.specs.Scripts.{cut, GivesScript, GivesRest, added, is_head};
ghost use Rattle.lt_script.specs.Texts.{Spells, IsBadLine, OnLineError, IsRead, IsRefusedAt};
ghost use Rattle.lt_script.specs.Printing.{printed};
ghost use Rattle.lt_script.specs.declared.script.Script.{Script};

use crate::fields::{LineError, after};
use crate::limits::SCRIPT_LIMIT;
use crate::lines::{Line, line_of};
use crate::script::{Script, ScriptError};
use lt_bytes::{List, NoMemory};
use std::alloc::Global;

/// Reads the text of a script. Its first line is `lighttpd-script 1`, and each line ends with a line feed.
pub fn parse_script(alloc: Global, bytes: &[u8]) -> Result<Script, ScriptError>
    // A script comes only for a text that spells it, and for each such text it comes.
    ensures spelled { IfOk result (λ script. Spells bytes.now script) }
    ensures read { (script : Script) → length bytes.now ≤ SCRIPT_LIMIT → Spells bytes.now script → IsRead result script }

    // What was printed of a script that came from some text gives it again.
    ensures again { (text : List ℕ) (script : Script) → length text ≤ SCRIPT_LIMIT → Spells text script → bytes.now ≡ printed script → IsRead result script }

    // A line is named only where it is the first outside the grammar, and then it is named.
    ensures line { IfErr result (λ e. OnLineError e (IsBadLine bytes.now)) }
    ensures refused { (number : ℕ) → length bytes.now ≤ SCRIPT_LIMIT → IsBadLine bytes.now number → IsRefusedAt result number }
    ensures too_long { (result ≡ Err ScriptError.TooLong) ↔ (SCRIPT_LIMIT < length bytes.now) }
{
    read_all(alloc, bytes)
}

#[tactic(auto, unfolding(crate::specs::Scripts::script_of))]
fn read_all(alloc: Global, bytes: &[u8]) -> Result<Script, ScriptError>
    ensures { GivesScript result bytes.now }
{
    if bytes.len() > SCRIPT_LIMIT {
        return Err(ScriptError::TooLong);
    }
    match cut(bytes) {
        None => Err(ScriptError::Line { number: 1 }),
        Some((head, rest)) => {
            if !is_head(head) {
                return Err(ScriptError::Line { number: 1 });
            }
            read_lines(alloc, rest)
        }
    }
}

fn is_head(line: &[u8]) -> bool
    ensures { result ≡ is_head line.now }
{
    match after(b"lighttpd-script 1", line) {
        None => false,
        Some(rest) => rest.len() == 0,
    }
}

// The bytes before the first line feed, and those after it.
fn cut(bytes: &[u8]) -> Option<(&[u8], &[u8])>
    ensures value { option_map (λ x. (x.0.now, x.1.now)) result ≡ cut bytes.now }
    ensures less { IfSome result (λ x. length x.0.now + length x.1.now + 1 ≡ length bytes.now) }
{
    for (i, b) in bytes.iter().enumerate() {
        if *b == b'\n' {
            return Some((&bytes[..i], &bytes[i + 1..]));
        }
    }
    None
}

// The lines after the first.
fn read_lines(alloc: Global, bytes: &[u8]) -> Result<Script, ScriptError>
    requires { length bytes.now ≤ SCRIPT_LIMIT }
    ensures { GivesRest result bytes.now }
{
    let mut script = Script {
        files: List::new(alloc),
        faults: List::new(alloc),
        steps: List::new(alloc),
    };
    let mut rest = bytes;
    let mut number = 2;
    while let Some((line, next)) = cut(rest) {
        match line_of(alloc, line) {
            Ok(line) => {
                if add(&mut script, line).is_err() {
                    return Err(ScriptError::NoMemory);
                }
            }
            Err(LineError::NoMemory) => return Err(ScriptError::NoMemory),
            Err(LineError::Bad) => return Err(ScriptError::Line { number }),
        }
        rest = next;
        number += 1;
    }
    if rest.len() > 0 {
        return Err(ScriptError::Line { number });
    }
    Ok(script)
}

fn add(script: &mut Script, line: Line) -> Result<(), NoMemory>
    ensures { OnOk result (script.new ≡ added script.old line) }
{
    match line {
        Line::Skip => Ok(()),
        Line::File(file) => script.files.push(file),
        Line::Fault(fault) => script.faults.push(fault),
        Line::Step(step) => script.steps.push(step),
    }
}
