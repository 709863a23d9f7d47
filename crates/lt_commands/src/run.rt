//! Turns of the server until no event is left.
ghost use Rattle.std.specs.Prelude.{◌≡◌, ◌≤◌};
ghost use Rattle.server_model.specs.Files.{IsTable, Backs};
ghost use Rattle.server_model.specs.Serves.{Serves};
ghost use Rattle.server_core.specs.Within.{serving_at};
ghost use Rattle.server_model.specs.Runs.{IsRun};
ghost use Rattle.lt_commands.specs.Runs.{FinishFits, told_as};

use conditions::Steps;
use lt_world::{Files, Net};
use server_core::{Server, Turn};
use std::sync::ledger::Ledger;

/// Why no further turn is taken.
#[derive(Clone, Copy, Debug, PartialEq, Eq)]
pub enum Finish {
    Over,
    NoMemory,
}

/// Takes turns until the net is over, or has no memory for its next event.
pub fn run<N: Net, F: Files, L: Ledger>(
    server: &mut Server<'_>,
    net: &mut N,
    files: &mut F,
    steps: &mut Steps<L>,
) -> Finish
    requires ends { N.ends }
    requires table { IsTable (N.links net.old) server.old.table }
    requires backs { F.tells → Backs (F.disk files.old).table server.old.table }
    ensures serves { N.tells → F.tells → Serves (F.disk files.old) (serving_at server.old) (N.trace net.old) → Serves (F.disk files.new) (serving_at server.new) (N.trace net.new) }
    ensures run { N.tells → F.tells → Serves (F.disk files.old) (serving_at server.old) (N.trace net.old) → IsRun server.old.site
        (told_as (F.disk files.old) (F.faults files.old) (F.reads files.old) (N.trace net.old))
        (told_as (F.disk files.new) (F.faults files.new) (F.reads files.new) (N.trace net.new)) }
    ensures backs { F.tells → Backs (F.disk files.new).table server.new.table }
    ensures site { server.new.site ≡ server.old.site }
    ensures last { FinishFits result (N.last net.new) }
    ensures over { result ≡ Finish.Over → N.left net.new ≡ 0 }
    ensures later { N.later net.old net.new }
    ensures files_later { F.later files.old files.new }
    ensures faults { F.faults files.old ≤ F.faults files.new }
{
    loop {
        match server.turn(net, files, steps) {
            Turn::Did => {}
            Turn::Idle => {}
            Turn::Over => return Finish::Over,
            Turn::NoMemory => return Finish::NoMemory,
        }
    }
}
