//! The work that needs no sockets: a replay, the check of a configuration, its printed form, and a benchmark run.
ghost use Rattle.std.specs.Prelude.{◌≡◌, ℕ, List, [], map, string_bytes};
ghost use Rattle.lt_world.specs.Memory.{no_files};
ghost use Rattle.script_net.specs.Playing.{unplayed};
ghost use Rattle.script_net.specs.Reports.{report_of};
ghost use Rattle.script_gen.specs.Totals.{summary_of};
ghost use Rattle.conf_parse.specs.declared.tree.Tree.{Tree};
ghost use Rattle.conf_parse.specs.Print.{printed};
ghost use Rattle.lt_commands.specs.Runs.{asked_of};
ghost use Rattle.lt_commands.specs.Words.{Line, SpellsLine, Replay as replay_line, Print as print_line, Bench as bench_line};
ghost use Rattle.lt_commands.specs.Loading.{HasConf, HasSomeConf};
ghost use Rattle.lt_commands.specs.Printing.{HasTree};
ghost use Rattle.lt_commands.specs.Offline.{CheckSays, Completes, FaultsSay, HasSomeScript, HasSomeTree, IsComplete, IsCompleteLoad, IsOfLine, IsQuiet, IsRefusal, LineSays, MemorySays, PrintSays, PutsOut, ReplaySays, SinkSays, WordsSay};
ghost use Rattle.lt_commands.specs.Failures.{failures};
ghost use Rattle.conf_eval.specs.Answers.{kept};
ghost use Rattle.lt_commands.specs.Fetching.{CheckAsks, LineAsks, PrintAsks, ReplayAsks};
ghost use Rattle.lt_commands.specs.Serving.{ServesBench, ServesSome, ServesSpelled};
ghost use Rattle.lt_commands.specs.Warnings.{checked};
ghost use Rattle.conf_eval.specs.declared.fault.Loaded.{Loaded};

use crate::benching::bench;
use crate::loading::load_conf;
use crate::playing::{Output, play};
use crate::printing::read_tree;
use crate::reading::read_script;
use crate::status::Status;
use crate::warnings::load_warned;
use crate::words::{Call, read_words};
use conditions::PatternMaker;
use conf_parse::print;
use lt_world::{MemFiles, Sink, Texts};
use script_net::{ScriptNet, write_all};
use std::alloc::Global;

/// Does what the words ask for, if it needs no sockets, and answers how it ended.
///
/// `replay -f CONF SCRIPT` serves the clients of a script and writes the report; `[-D] -t -f CONF` checks a configuration
/// and writes its warnings; `[-D] -p -f CONF` writes its printed form; `bench NUMBER` serves so many clients of a script that
/// is generated for them, and writes the summary. What cannot be done is the first of: the words, the
/// configuration, the script, the output.
pub fn offline<X: Texts, M: PatternMaker, S: Sink>(
    alloc: Global,
    words: &[String],
    texts: &mut X,
    maker: &mut M,
    net: &mut ScriptNet,
    files: &mut MemFiles,
    sink: &mut S,
) -> Status
    requires net { net.old ≡ unplayed [] }
    requires files { files.old ≡ no_files }

    ensures words { WordsSay result (map string_bytes words.now) }
    ensures texts { X.tells → (line : Line) → SpellsLine (map string_bytes words.now) line → LineSays result line (X.texts texts.old) }
    ensures asks { X.tells → (line : Line) → SpellsLine (map string_bytes words.now) line → LineAsks result line (X.texts texts.old) (kept (X.calls texts.old) (M.calls maker.old)) (kept (X.calls texts.new) (M.calls maker.new)) }
    ensures faults { FaultsSay result (failures (X.faults texts.old) (M.refusals maker.old) (S.faults sink.old)) (failures (X.faults texts.new) (M.refusals maker.new) (S.faults sink.new)) }
    ensures memory { MemorySays result net.new.last }

    // With good words and texts the call is done, unless something fails or memory is wanted.
    ensures complete { X.tells → (line : Line) → SpellsLine (map string_bytes words.now) line → Completes result line (X.texts texts.old) }

    // Whatever the texts tell, the clients sent and the sockets took: there is a configuration for which each client took
    // a prefix of its own stream, and all of it where it was closed clean; and what was due for each event followed it
    // in the same turn. Where the texts tell, it is the one that they spell.
    ensures serves { ServesSome result (asked_of files.new) net.new.game.trace }
    ensures spelled { X.tells → (conf script : List ℕ) → SpellsLine (map string_bytes words.now) (replay_line conf script)
        → ServesSpelled conf script (X.texts texts.old) result (asked_of files.new) net.new.game.trace }

    // A call that is refused, and one that checks or prints, asked neither the net nor the files for anything.
    ensures refused { IsRefusal result → (net.new ≡ net.old) × (files.new ≡ files.old) }
    ensures unasked { (line : Line) → SpellsLine (map string_bytes words.now) line → IsQuiet line → (net.new ≡ net.old) × (files.new ≡ files.old) }

    // A replay reports what the net told.
    ensures report { S.tells → (conf script : List ℕ) → SpellsLine (map string_bytes words.now) (replay_line conf script)
        → SinkSays result (report_of net.new.game.trace) (S.bytes sink.old) (S.bytes sink.new) }

    // A benchmark run serves the clients of the script that is generated for so many, and puts out the summary of what
    // the net told. It asks for no text and no pattern, and a print asks for no pattern.
    ensures benched { (clients : ℕ) → SpellsLine (map string_bytes words.now) (bench_line clients) → ServesBench clients result (asked_of files.new) net.new.game.trace }
    ensures summed { S.tells → (clients : ℕ) → SpellsLine (map string_bytes words.now) (bench_line clients)
        → SinkSays result (summary_of net.new.game.trace) (S.bytes sink.old) (S.bytes sink.new) }
    ensures unread { (clients : ℕ) → SpellsLine (map string_bytes words.now) (bench_line clients) → (texts.new ≡ texts.old) × (maker.new ≡ maker.old) }
    ensures unmade { (conf : List ℕ) → SpellsLine (map string_bytes words.now) (print_line conf) → maker.new ≡ maker.old }

    // A check puts out the warnings, a print the printed form.
    ensures prints { S.tells → X.tells → (line : Line) (output : List ℕ) → SpellsLine (map string_bytes words.now) line
        → PutsOut line (X.texts texts.old) output → SinkSays result output (S.bytes sink.old) (S.bytes sink.new) }

    // Words that are no line change nothing.
    ensures usage { result ≡ Status.Usage → (texts.new ≡ texts.old) × (maker.new ≡ maker.old) × (net.new ≡ net.old) × (files.new ≡ files.old) × (sink.new ≡ sink.old) }
{
    match read_words(alloc, words) {
        Err(status) => status,
        Ok(Call::Replay { conf, script }) => {
            replay(alloc, conf, script, texts, maker, net, files, sink)
        }
        Ok(Call::Check { conf }) => check_conf(alloc, conf, texts, maker, sink),
        Ok(Call::Print { conf }) => print_conf(alloc, conf, texts, sink),
        Ok(Call::Bench { clients }) => bench(alloc, clients, net, files, sink),
    }
}

fn replay<X: Texts, M: PatternMaker, S: Sink>(
    alloc: Global,
    conf: &str,
    script: &str,
    texts: &mut X,
    maker: &mut M,
    net: &mut ScriptNet,
    files: &mut MemFiles,
    sink: &mut S,
) -> Status
    requires net { net.old ≡ unplayed [] }
    requires files { files.old ≡ no_files }
    ensures line { IsOfLine result }
    ensures texts { X.tells → ReplaySays result (X.texts texts.old) conf.now script.now }
    ensures asks { X.tells → ReplayAsks result conf.now script.now (X.texts texts.old) (kept (X.calls texts.old) (M.calls maker.old)) (kept (X.calls texts.new) (M.calls maker.new)) }
    ensures faults { FaultsSay result (failures (X.faults texts.old) (M.refusals maker.old) (S.faults sink.old)) (failures (X.faults texts.new) (M.refusals maker.new) (S.faults sink.new)) }
    ensures memory { MemorySays result net.new.last }
    ensures complete { X.tells → HasSomeConf (X.texts texts.old) conf.now → HasSomeScript (X.texts texts.old script.now) → IsCompleteLoad result }
    ensures serves { ServesSome result (asked_of files.new) net.new.game.trace }
    ensures spelled { X.tells → ServesSpelled conf.now script.now (X.texts texts.old) result (asked_of files.new) net.new.game.trace }
    ensures refused { IsRefusal result → (net.new ≡ net.old) × (files.new ≡ files.old) }
    ensures report { S.tells → SinkSays result (report_of net.new.game.trace) (S.bytes sink.old) (S.bytes sink.new) }
{
    let loaded = match load_conf(alloc, conf, texts, maker) {
        Ok(loaded) => loaded,
        Err(status) => return status,
    };
    let script = match read_script(alloc, texts, script) {
        Ok(script) => script,
        Err(status) => return status,
    };
    play(alloc, &loaded, &script, Output::Report, net, files, sink)
}

fn check_conf<X: Texts, M: PatternMaker, S: Sink>(
    alloc: Global,
    conf: &str,
    texts: &mut X,
    maker: &mut M,
    sink: &mut S,
) -> Status
    ensures line { IsOfLine result }
    ensures texts { X.tells → CheckSays result (X.texts texts.old) conf.now }
    ensures asks { X.tells → CheckAsks result conf.now (X.texts texts.old) (kept (X.calls texts.old) (M.calls maker.old)) (kept (X.calls texts.new) (M.calls maker.new)) }
    ensures faults { FaultsSay result (failures (X.faults texts.old) (M.refusals maker.old) (S.faults sink.old)) (failures (X.faults texts.new) (M.refusals maker.new) (S.faults sink.new)) }
    ensures complete { X.tells → HasSomeConf (X.texts texts.old) conf.now → IsCompleteLoad result }
    ensures prints { S.tells → X.tells → (loaded : Loaded) → HasConf (X.texts texts.old) conf.now loaded → SinkSays result (checked loaded) (S.bytes sink.old) (S.bytes sink.new) }
{
    match load_warned(alloc, conf, texts, maker, sink) {
        Ok(_) => match write_all(sink, b"Syntax OK\n") {
            Ok(()) => Status::Done,
            Err(_) => Status::SinkFault,
        },
        Err(status) => status,
    }
}

fn print_conf<X: Texts, S: Sink>(alloc: Global, conf: &str, texts: &mut X, sink: &mut S) -> Status
    ensures line { IsOfLine result }
    ensures texts { X.tells → PrintSays result (X.texts texts.old conf.now) }
    ensures asks { X.tells → PrintAsks result conf.now (X.calls texts.old) (X.calls texts.new) }
    ensures faults { (patterns : ℕ) → FaultsSay result (failures (X.faults texts.old) patterns (S.faults sink.old)) (failures (X.faults texts.new) patterns (S.faults sink.new)) }
    ensures complete { X.tells → HasSomeTree (X.texts texts.old conf.now) → IsComplete result }
    ensures prints { S.tells → X.tells → (tree : Tree) → HasTree (X.texts texts.old conf.now) tree → SinkSays result (printed tree) (S.bytes sink.old) (S.bytes sink.new) }
{
    let tree = match read_tree(alloc, texts, conf) {
        Ok(tree) => tree,
        Err(status) => return status,
    };
    let Ok(text) = print(alloc, &tree) else {
        return Status::NoMemory;
    };
    match write_all(sink, text.bytes()) {
        Ok(()) => Status::Done,
        Err(_) => Status::SinkFault,
    }
}
