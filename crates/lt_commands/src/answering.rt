//! What the process answers to its words: a call with a net and files of its own.
ghost use Rattle.std.specs.Prelude.{◌≡◌, ℕ, List, map, string_bytes};
ghost use Rattle.lt_commands.specs.Words.{Line, SpellsLine, Print as print_line, Bench as bench_line};
ghost use Rattle.lt_commands.specs.Offline.{Completes, FaultsSay, LineSays, PutsOut, SinkSays, WordsSay};
ghost use Rattle.lt_commands.specs.Failures.{failures};
ghost use Rattle.conf_eval.specs.Answers.{kept};
ghost use Rattle.lt_commands.specs.Fetching.{LineAsks};
ghost use Rattle.lt_commands.specs.Serving.{Ran};

use crate::commands::offline;
use crate::status::Status;
use conditions::PatternMaker;
use lt_world::{MemFiles, Sink, Texts};
use script_net::ScriptNet;
use std::alloc::Global;

/// Does what the words ask for, over named texts, a maker of patterns and a sink, and answers how it ended.
pub fn answer<X: Texts, M: PatternMaker, S: Sink>(
    alloc: Global,
    words: &[String],
    texts: &mut X,
    maker: &mut M,
    sink: &mut S,
) -> Status
    ensures words { WordsSay result (map string_bytes words.now) }
    ensures texts { X.tells → (line : Line) → SpellsLine (map string_bytes words.now) line → LineSays result line (X.texts texts.old) }
    ensures asks { X.tells → (line : Line) → SpellsLine (map string_bytes words.now) line → LineAsks result line (X.texts texts.old) (kept (X.calls texts.old) (M.calls maker.old)) (kept (X.calls texts.new) (M.calls maker.new)) }
    ensures faults { FaultsSay result (failures (X.faults texts.old) (M.refusals maker.old) (S.faults sink.old)) (failures (X.faults texts.new) (M.refusals maker.new) (S.faults sink.new)) }
    ensures complete { X.tells → (line : Line) → SpellsLine (map string_bytes words.now) line → Completes result line (X.texts texts.old) }
    // The call made a run of which all is promised that `offline` promises, and the sink got its report, or its summary.
    ensures ran { Ran X.tells S.tells (map string_bytes words.now) (X.texts texts.old) result (S.bytes sink.old) (S.bytes sink.new) }
    ensures prints { S.tells → X.tells → (line : Line) (output : List ℕ) → SpellsLine (map string_bytes words.now) line
        → PutsOut line (X.texts texts.old) output → SinkSays result output (S.bytes sink.old) (S.bytes sink.new) }
    ensures unread { (clients : ℕ) → SpellsLine (map string_bytes words.now) (bench_line clients) → (texts.new ≡ texts.old) × (maker.new ≡ maker.old) }
    ensures unmade { (conf : List ℕ) → SpellsLine (map string_bytes words.now) (print_line conf) → maker.new ≡ maker.old }
    ensures usage { result ≡ Status.Usage → (texts.new ≡ texts.old) × (maker.new ≡ maker.old) × (sink.new ≡ sink.old) }
{
    let mut net = ScriptNet::new(alloc);
    let mut files = MemFiles::new(alloc);
    offline(alloc, words, texts, maker, &mut net, &mut files, sink)
}
