//! Turns of the server over a net that waits.
ghost use Rattle.std.specs.Prelude.{◌≡◌, ◌≤◌};
ghost use Rattle.server_model.specs.Files.{IsTable, Backs};
ghost use Rattle.server_model.specs.Serves.{Serves};
ghost use Rattle.server_model.specs.Runs.{IsRun};
ghost use Rattle.server_core.specs.Steps.{seen_as};
ghost use Rattle.server_core.specs.Within.{serving_at};
ghost use Rattle.lt_serve.specs.Finishes.{FinishFits};
ghost use Rattle.lt_serve.specs.Served.{told_at};

use conditions::Steps;
use lt_world::{Files, Waits};
use server_core::{Server, Turn};
use std::sync::Wait;
use std::sync::ledger::Ledger;

/// Why no further turn is taken.
#[derive(Clone, Copy, Debug, PartialEq, Eq)]
pub enum Finish {
    /// No event comes any more.
    Over,
    /// The net has no memory for its next event.
    NoMemory,
    /// The net can't wait for its next event.
    WaitFault,
}

/// Takes turns, and waits where nothing is ready.
pub fn run<R: Wait, N: Waits, F: Files, L: Ledger>(
    rt: &R,
    server: &mut Server<'_>,
    net: &mut N,
    files: &mut F,
    steps: &mut Steps<L>,
) -> Finish
    requires table { IsTable (N.links net.old) server.old.table }
    requires backs { F.tells → Backs (F.disk files.old).table server.old.table }
    ensures serves { N.tells → F.tells → Serves (F.disk files.old) (serving_at server.old) (N.trace net.old) → Serves (F.disk files.new) (serving_at server.new) (N.trace net.new) }
    ensures run { N.tells → F.tells → Serves (F.disk files.old) (serving_at server.old) (N.trace net.old) → IsRun server.old.site
        (told_at (seen_as (F.disk files.old) (F.faults files.old) (F.reads files.old)) (N.trace net.old))
        (told_at (seen_as (F.disk files.new) (F.faults files.new) (F.reads files.new)) (N.trace net.new)) }
    ensures backs { F.tells → Backs (F.disk files.new).table server.new.table }
    ensures site { server.new.site ≡ server.old.site }
    ensures ends { FinishFits result (N.last net.new) (N.wait_faults net.old) (N.wait_faults net.new) }
    ensures since { N.since net.old net.new }
    ensures files_later { F.later files.old files.new }
{
    for _ in rt.forever() {
        match server.turn(net, files, steps) {
            Turn::Did => {}
            Turn::Idle => {
                if net.wait().is_err() {
                    return Finish::WaitFault;
                }
            }
            Turn::Over => return Finish::Over,
            Turn::NoMemory => return Finish::NoMemory,
        }
    }
    unreachable!()
}
