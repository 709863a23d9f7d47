//! A script is played by a server, and its buffers are counted after each turn.
ghost use Rattle.std.specs.Prelude.{◌≡◌, ◌<◌, IfOk};
ghost use Rattle.settings.specs.InForm.{IsInForm};
ghost use Rattle.conf_eval.specs.Patterns.{ArePatterns};
ghost use Rattle.server_model.specs.Files.{IsTable, Backs};

use anyhow::{Result, bail};
use conditions::{RegexMaker, Steps};
use conf_eval::{Loaded, load};
use lt_commands::server_of;
use lt_script::parse_script;
use lt_world::{Files, MemFiles, MemSink, Net, Texts};
use script_net::{ScriptNet, report};
use server_core::{Server, Turn};
use std::alloc::Global;
use std::marker::Brand;
use std::sync::ledger::{Blank, Ledger};

/// The most turns of a run.
const TURN_LIMIT: u64 = 100_000;

/// As many spare buffers, and a read that completes no head wants no memory.
const ENOUGH: u64 = 2;

/// How the buffers of a run were counted.
#[derive(Clone, Copy, Debug, PartialEq, Eq)]
pub enum Counts {
    /// All of them after each turn; so many are in queues at the end.
    Kept { left: u64 },
    /// Not all of them after this turn.
    Lost { turn: u64 },
    /// After this turn fewer were spare than a read may need.
    Few { turn: u64 },
    /// The net had no memory for its next event.
    NoMemory,
}

/// Plays a script with the configuration of this name, and writes its report.
pub fn play<X: Texts>(
    alloc: Global,
    texts: &mut X,
    name: &[u8],
    script: &[u8],
    sink: &mut MemSink,
) -> Result<Counts> {
    let Ok(script) = parse_script(alloc, script) else {
        bail!("the script is none");
    };
    let loaded = loaded_of(alloc, texts, name)?;
    let mut net = ScriptNet::new(alloc);
    let mut files = MemFiles::new(alloc);
    net.load(&script, &mut files)?;
    let mut server = server_of(alloc, &loaded)?;
    let counts = counted_to_the_end(&mut server, &mut net, &mut files);
    server.close(&mut files);
    if report(&net, sink).is_err() {
        bail!("the report is too long");
    }
    Ok(counts)
}

// The configuration of this name.
fn loaded_of<X: Texts>(alloc: Global, texts: &mut X, name: &[u8]) -> Result<Loaded>
    ensures form { IfOk result (λ loaded. IsInForm loaded.config) }
    ensures patterns { IfOk result (λ loaded. ArePatterns loaded.config.blocks loaded.patterns) }
{
    match load(alloc, name, texts, &mut RegexMaker::new(alloc)) {
        Ok(loaded) => Ok(loaded),
        Err(_) => bail!("the configuration is none"),
    }
}

// Takes turns until no event is left, and counts after each. Nobody asks how many conditions were compared.
fn counted_to_the_end<N: Net, F: Files>(
    server: &mut Server<'_>,
    net: &mut N,
    files: &mut F,
) -> Counts
    requires table { IsTable (N.links net.old) server.old.table }
    requires backs { F.tells → Backs (F.disk files.old).table server.old.table }
    ensures backs { F.tells → Backs (F.disk files.new).table server.new.table }
{
    counted::<N, F, Brand>(Blank::new(1), server, net, files)
}

// The same, by a ledger that was opened for the count of comparisons alone.
fn counted<N: Net, F: Files, L: Ledger>(
    blank: Blank,
    server: &mut Server<'_>,
    net: &mut N,
    files: &mut F,
) -> Counts
    requires name { blank.name ≡ L.name }
    requires parts { blank.parts ≡ L.parts }
    requires some { 0 < L.parts }
    requires table { IsTable (N.links net.old) server.old.table }
    requires backs { F.tells → Backs (F.disk files.old).table server.old.table }
    ensures backs { F.tells → Backs (F.disk files.new).table server.new.table }
{
    let mut steps: Steps<L> = Steps::new(blank);
    for turn in 0..TURN_LIMIT {
        match server.turn(net, files, &mut steps) {
            Turn::Did | Turn::Idle => {}
            Turn::NoMemory => return Counts::NoMemory,
            Turn::Over => {
                return Counts::Kept {
                    left: server.held().queued,
                };
            }
        }
        let held = server.held();
        if held.free + held.queued != held.made {
            return Counts::Lost { turn };
        }
        if held.free < ENOUGH {
            return Counts::Few { turn };
        }
    }
    Counts::Lost { turn: TURN_LIMIT }
}
