//! The call that serves: its words, its configuration, and its clients.
ghost use Rattle.std.specs.Prelude.{◌≡◌, ◌≤◌, ◌⊎◌, ℕ, List, [], None, map, string_bytes, IfOk, IfErr};
ghost use Rattle.conf_eval.specs.declared.fault.Loaded.{Loaded};
ghost use Rattle.server_model.specs.Site.{site_at};
ghost use Rattle.server_core.specs.Steps.{seen_as};
ghost use Rattle.lt_commands.specs.Failures.{failures};
ghost use Rattle.lt_commands.specs.Loading.{HasConf, HasSomeConf};
ghost use Rattle.conf_eval.specs.Answers.{kept};
ghost use Rattle.lt_commands.specs.Offline.{FaultsSay};
ghost use Rattle.lt_serve.specs.Serving.{SpellsServe, WordsSay, IsNoServe, TextsSay, Asks, Ends, IsRefusal, IsUnasked, SaidTo, announced, IsComplete, IsOfServe, ServedBySome};
ghost use Rattle.lt_serve.specs.Served.{Served};

use crate::loaded::serve_loaded;
use command_words::{Line, WordsError, read_line};
use conditions::PatternMaker;
use lt_commands::{Status, load_warned};
use lt_world::{Files, NextKind, Sink, Texts, Waits};
use std::alloc::Global;
use std::sync::Wait;

/// Serves clients by the configuration that the words name, `[-D] -f CONF`, and answers why no further turn was taken.
///
/// The first that cannot be done is answered: the words, the configuration, its warnings and the address on the sink, to
/// listen, to wait for the next event. Over a net of real sockets the call goes on until it is ended from outside.
pub fn serve<R: Wait, X: Texts, M: PatternMaker, N: Waits, F: Files, S: Sink>(
    rt: &R,
    alloc: Global,
    words: &[String],
    texts: &mut X,
    maker: &mut M,
    net: &mut N,
    files: &mut F,
    sink: &mut S,
) -> Status
    requires unasked { N.last net.old ≡ NextKind.NoneYet }
    requires untold { N.tells → N.trace net.old ≡ [] }
    requires uncalled { F.tells → (F.disk files.old).calls ≡ [] }
    requires unopened { F.tells → (file : ℕ) → (F.disk files.old).table file ≡ None }

    ensures words { WordsSay result (map string_bytes words.now) }
    ensures texts { X.tells → (conf : List ℕ) → SpellsServe (map string_bytes words.now) conf → TextsSay result (X.texts texts.old) conf }
    ensures asks { X.tells → (conf : List ℕ) → SpellsServe (map string_bytes words.now) conf → Asks result conf (X.texts texts.old) (kept (X.calls texts.old) (M.calls maker.old)) (kept (X.calls texts.new) (M.calls maker.new)) }
    ensures faults { FaultsSay result (failures (X.faults texts.old) (M.refusals maker.old) (S.faults sink.old)) (failures (X.faults texts.new) (M.refusals maker.new) (S.faults sink.new)) }

    // ListenFault comes only before any event was asked for, WaitFault only after Idle, each with a count that rose.
    ensures ends { Ends result (N.last net.new) (N.wait_faults net.old) (N.wait_faults net.new) }

    // With good words and texts the call is done, unless something fails or memory is wanted.
    ensures complete { X.tells → (conf : List ℕ) → SpellsServe (map string_bytes words.now) conf → HasSomeConf (X.texts texts.old) conf → IsComplete result }

    // Whatever the texts tell, the clients sent and the sockets took: where an event came, there is a configuration for
    // which each client took a prefix of its own stream, and all of it where it was closed clean; and what was due for
    // each event followed it in the same turn. Where the texts tell, it is the one that they spell.
    ensures serves { N.tells → F.tells → (N.trace net.new ≡ []) ⊎ ServedBySome
        (seen_as (F.disk files.old) (F.faults files.old) (F.reads files.old))
        (seen_as (F.disk files.new) (F.faults files.new) (F.reads files.new)) (N.trace net.new) }
    ensures spelled { N.tells → F.tells → X.tells → (conf : List ℕ) (loaded : Loaded) → SpellsServe (map string_bytes words.now) conf → HasConf (X.texts texts.old) conf loaded
        → Served (site_at loaded.config.blocks)
        (seen_as (F.disk files.old) (F.faults files.old) (F.reads files.old))
        (seen_as (F.disk files.new) (F.faults files.new) (F.reads files.new)) (N.trace net.new) }

    // The warnings, and where it listens.
    ensures says { S.tells → X.tells → (conf : List ℕ) (loaded : Loaded) → SpellsServe (map string_bytes words.now) conf → HasConf (X.texts texts.old) conf loaded
        → SaidTo result (announced loaded) (S.bytes sink.old) (S.bytes sink.new) }

    // A call that is refused asked nothing of the net and the files; one that can't listen asked nothing of the files.
    ensures refused { IsRefusal result → net.new ≡ net.old }
    ensures unserved { IsUnasked result → files.new ≡ files.old }
    ensures since { N.since net.old net.new }

    // Words that are no line change nothing.
    ensures usage { result ≡ Status.Usage → (texts.new ≡ texts.old) × (maker.new ≡ maker.old) × (net.new ≡ net.old) × (files.new ≡ files.old) × (sink.new ≡ sink.old) }
{
    match conf_of(alloc, words) {
        Ok(conf) => serve_conf(rt, alloc, conf, texts, maker, net, files, sink),
        Err(status) => status,
    }
}

// The name of the configuration that the words serve by.
fn conf_of<'a>(alloc: Global, words: &'a [String]) -> Result<&'a str, Status>
    ensures conf { IfOk result (λ conf. SpellsServe (map string_bytes words.now) conf.now) }
    ensures refused { IfErr result (λ status. IsNoServe status (map string_bytes words.now)) }
{
    match read_line(alloc, words) {
        Ok(Line::Serve { conf }) => Ok(conf),
        Ok(Line::Check { .. }) => Err(Status::Usage),
        Ok(Line::Print { .. }) => Err(Status::Usage),
        Ok(Line::Replay { .. }) => Err(Status::Usage),
        Ok(Line::Bench { .. }) => Err(Status::Usage),
        Err(WordsError::Usage) => Err(Status::Usage),
        Err(WordsError::NoMemory) => Err(Status::NoMemory),
    }
}

fn serve_conf<R: Wait, X: Texts, M: PatternMaker, N: Waits, F: Files, S: Sink>(
    rt: &R,
    alloc: Global,
    conf: &str,
    texts: &mut X,
    maker: &mut M,
    net: &mut N,
    files: &mut F,
    sink: &mut S,
) -> Status
    requires unasked { N.last net.old ≡ NextKind.NoneYet }
    requires untold { N.tells → N.trace net.old ≡ [] }
    requires uncalled { F.tells → (F.disk files.old).calls ≡ [] }
    requires unopened { F.tells → (file : ℕ) → (F.disk files.old).table file ≡ None }
    ensures line { IsOfServe result }
    ensures texts { X.tells → TextsSay result (X.texts texts.old) conf.now }
    ensures asks { X.tells → Asks result conf.now (X.texts texts.old) (kept (X.calls texts.old) (M.calls maker.old)) (kept (X.calls texts.new) (M.calls maker.new)) }
    ensures faults { FaultsSay result (failures (X.faults texts.old) (M.refusals maker.old) (S.faults sink.old)) (failures (X.faults texts.new) (M.refusals maker.new) (S.faults sink.new)) }
    ensures ends { Ends result (N.last net.new) (N.wait_faults net.old) (N.wait_faults net.new) }
    ensures complete { X.tells → HasSomeConf (X.texts texts.old) conf.now → IsComplete result }
    ensures serves { N.tells → F.tells → (N.trace net.new ≡ []) ⊎ ServedBySome
        (seen_as (F.disk files.old) (F.faults files.old) (F.reads files.old))
        (seen_as (F.disk files.new) (F.faults files.new) (F.reads files.new)) (N.trace net.new) }
    ensures spelled { N.tells → F.tells → X.tells → (loaded : Loaded) → HasConf (X.texts texts.old) conf.now loaded
        → Served (site_at loaded.config.blocks)
        (seen_as (F.disk files.old) (F.faults files.old) (F.reads files.old))
        (seen_as (F.disk files.new) (F.faults files.new) (F.reads files.new)) (N.trace net.new) }
    ensures says { S.tells → X.tells → (loaded : Loaded) → HasConf (X.texts texts.old) conf.now loaded → SaidTo result (announced loaded) (S.bytes sink.old) (S.bytes sink.new) }
    ensures refused { IsRefusal result → net.new ≡ net.old }
    ensures unserved { IsUnasked result → files.new ≡ files.old }
    ensures since { N.since net.old net.new }
{
    let loaded = match load_warned(alloc, conf, texts, maker, sink) {
        Ok(loaded) => loaded,
        Err(status) => return status,
    };
    serve_loaded(rt, alloc, &loaded, net, files, sink)
}
