//! A configuration is loaded, and its warnings are put out.
ghost use Rattle.std.specs.Prelude.{◌≡◌, ◌≤◌, ◌++◌, IfOk, OnOk};
ghost use Rattle.settings.specs.InForm.{IsInForm};
ghost use Rattle.conf_eval.specs.Patterns.{ArePatterns};
ghost use Rattle.conf_eval.specs.declared.fault.Loaded.{Loaded};
ghost use Rattle.lt_commands.specs.Failures.{failures};
ghost use Rattle.lt_commands.specs.Loading.{HasConf};
ghost use Rattle.conf_eval.specs.Answers.{kept};
ghost use Rattle.lt_commands.specs.Warned.{IsOnlyWarned, WarnedAsks, WarnedFaults, WarnedSays, WarnedTo};
ghost use Rattle.std.specs.Fmt.{decimal as number_text};
ghost use Rattle.lt_commands.specs.Warnings.{lines_of, unused, warning_line, warning_lines};

use crate::loading::load_conf;
use crate::status::Status;
use conditions::PatternMaker;
use conf_eval::Loaded;
use conf_value::Warning;
use lt_bytes::{NoMemory, Text, decimal};
use lt_world::{Sink, Texts};
use script_net::write_all;
use std::alloc::Global;

/// Loads the configuration whose text has this name, and puts its warnings out, a line each; or answers the status
/// with which the call ends. A configuration with a fault gives no warnings.
pub fn load_warned<X: Texts, M: PatternMaker, S: Sink>(
    alloc: Global,
    name: &str,
    texts: &mut X,
    maker: &mut M,
    sink: &mut S,
) -> Result<Loaded, Status>
    ensures says { X.tells → WarnedSays result (X.texts texts.old) name.now }
    ensures only { X.tells → (loaded : Loaded) → HasConf (X.texts texts.old) name.now loaded → IsOnlyWarned loaded result }
    ensures asks { X.tells → WarnedAsks result name.now (X.texts texts.old) (kept (X.calls texts.old) (M.calls maker.old)) (kept (X.calls texts.new) (M.calls maker.new)) }
    ensures in_form { IfOk result (λ loaded. IsInForm loaded.config) }
    ensures patterns { IfOk result (λ loaded. ArePatterns loaded.config.blocks loaded.patterns) }
    ensures warns { S.tells → X.tells → (loaded : Loaded) → HasConf (X.texts texts.old) name.now loaded
        → WarnedTo result (warning_lines loaded) (S.bytes sink.old) (S.bytes sink.new) }
    ensures cause { WarnedFaults result (failures (X.faults texts.old) (M.refusals maker.old) (S.faults sink.old)) (failures (X.faults texts.new) (M.refusals maker.new) (S.faults sink.new)) }
    ensures texts { X.tells → X.texts texts.new ≡ X.texts texts.old }
    ensures faults { X.faults texts.old ≤ X.faults texts.new }
    ensures refusals { M.refusals maker.old ≤ M.refusals maker.new }
    ensures sink_faults { S.faults sink.old ≤ S.faults sink.new }
{
    let loaded = match load_conf(alloc, name, texts, maker) {
        Ok(loaded) => loaded,
        Err(status) => return Err(status),
    };
    let Ok(lines) = warning_lines(alloc, &loaded) else {
        return Err(Status::NoMemory);
    };
    match write_all(sink, lines.bytes()) {
        Ok(()) => Ok(loaded),
        Err(_) => Err(Status::SinkFault),
    }
}

fn warning_lines(alloc: Global, loaded: &Loaded) -> Result<Text, NoMemory>
    ensures { IfOk result (λ text. text ≡ warning_lines loaded.now) }
{
    let mut text = Text::new(alloc);
    push_warnings(&mut text, loaded.config.warnings.as_slice())?;
    Ok(text)
}

// A line for each warning.
fn push_warnings(text: &mut Text, warnings: &[Warning]) -> Result<(), NoMemory>
    ensures { OnOk result (text.new ≡ text.old ++ lines_of warnings.now) }
{
    for warning in warnings {
        push_warning(text, warning)?;
    }
    Ok(())
}

fn push_warning(text: &mut Text, warning: &Warning) -> Result<(), NoMemory>
    ensures { OnOk result (text.new ≡ text.old ++ warning_line warning.now) }
{
    text.push_all(b"warning: file ")?;
    push_number(text, warning.file)?;
    text.push_all(b" line ")?;
    push_number(text, warning.line)?;
    push_key(text, warning.key.bytes())
}

fn push_number(text: &mut Text, number: u32) -> Result<(), NoMemory>
    ensures { OnOk result (text.new ≡ text.old ++ number_text number) }
{
    text.push_all(decimal(number as u64).bytes())
}

fn push_key(text: &mut Text, key: &[u8]) -> Result<(), NoMemory>
    ensures { OnOk result (text.new ≡ text.old ++ unused key.now) }
{
    text.push_all(b": ")?;
    text.push_all(key)?;
    text.push_all(b" is not used\n")
}
