//! A benchmark run: clients of a script that is generated for them, and the summary of what they took.
ghost use Rattle.std.specs.Prelude.{◌≡◌, ◌≤◌, ℕ, List, [], IfOk};
ghost use Rattle.lt_world.specs.Memory.{no_files};
ghost use Rattle.settings.specs.InForm.{IsInForm};
ghost use Rattle.conf_eval.specs.Patterns.{ArePatterns};
ghost use Rattle.conf_eval.specs.declared.fault.Loaded.{Loaded};
ghost use Rattle.script_net.specs.Playing.{unplayed};
ghost use Rattle.script_gen.specs.Totals.{summary_of};
ghost use Rattle.command_words.specs.declared.line.TheConstants.{MAX_CLIENTS};
ghost use Rattle.lt_commands.specs.Benching.{bench_name, bench_texts};
ghost use Rattle.lt_commands.specs.Failures.{failures};
ghost use Rattle.lt_commands.specs.Loading.{HasConf};
ghost use Rattle.lt_commands.specs.Offline.{BenchSays, FaultsSay, IsOfLine, IsRefusal, MemorySays, SinkSays};
ghost use Rattle.lt_commands.specs.Runs.{asked_of};
ghost use Rattle.lt_commands.specs.Serving.{ServesBench, ServesSome};

use crate::loading::load_conf;
use crate::playing::{Output, play};
use crate::status::Status;
use conditions::RegexMaker;
use conf_eval::Loaded;
use lt_bytes::NoMemory;
use lt_world::{MemFiles, MemTexts, Sink};
use script_gen::generate;
use script_net::ScriptNet;
use std::alloc::Global;

/// The name of the configuration's text.
const NAME: &str = "bench.conf";

/// The configuration: the root has the files of a generated script.
const TEXT: &[u8] = b"server.document-root = \"/srv\"";

/// Serves so many clients of a generated script, and puts out the summary of what they took.
pub fn bench<S: Sink>(
    alloc: Global,
    clients: u64,
    net: &mut ScriptNet,
    files: &mut MemFiles,
    sink: &mut S,
) -> Status
    requires few { clients ≤ MAX_CLIENTS }
    requires net { net.old ≡ unplayed [] }
    requires files { files.old ≡ no_files }
    ensures says { BenchSays result }
    ensures line { IsOfLine result }
    ensures runs { IsRefusal result → ⊥ }
    ensures faults { (texts patterns : ℕ) → FaultsSay result (failures texts patterns (S.faults sink.old)) (failures texts patterns (S.faults sink.new)) }
    ensures memory { MemorySays result net.new.last }
    ensures serves { ServesSome result (asked_of files.new) net.new.game.trace }
    ensures benched { ServesBench clients result (asked_of files.new) net.new.game.trace }
    ensures summed { S.tells → SinkSays result (summary_of net.new.game.trace) (S.bytes sink.old) (S.bytes sink.new) }
{
    let Ok(loaded) = bench_conf(alloc) else {
        return Status::NoMemory;
    };
    let Ok(script) = generate(alloc, clients) else {
        return Status::NoMemory;
    };
    play(alloc, &loaded, &script, Output::Summary, net, files, sink)
}

// The configuration of a benchmark run.
fn bench_conf(alloc: Global) -> Result<Loaded, NoMemory>
    ensures conf { IfOk result (λ loaded. HasConf bench_texts bench_name loaded) }
    ensures only { (loaded : Loaded) → HasConf bench_texts bench_name loaded → IfOk result (λ found. found ≡ loaded) }
    ensures in_form { IfOk result (λ loaded. IsInForm loaded.config) }
    ensures patterns { IfOk result (λ loaded. ArePatterns loaded.config.blocks loaded.patterns) }
{
    let mut texts = MemTexts::new(alloc);
    texts.add(NAME.as_bytes(), TEXT)?;
    let mut maker = RegexMaker::new(alloc);
    match load_conf(alloc, NAME, &mut texts, &mut maker) {
        Ok(loaded) => Ok(loaded),
        // The text is there, can be read, has no fault and names no pattern: it is memory that is wanted.
        Err(_) => Err(NoMemory),
    }
}
