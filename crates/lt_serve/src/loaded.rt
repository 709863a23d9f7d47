//! Clients are served by a configuration that was loaded.
ghost use Rattle.std.specs.Prelude.{◌≡◌, ◌≤◌, ℕ, [], None};
ghost use Rattle.lt_world.specs.Causes.{Rose};
ghost use Rattle.settings.specs.InForm.{IsInForm};
ghost use Rattle.conf_eval.specs.Patterns.{ArePatterns};
ghost use Rattle.server_model.specs.Site.{site_at};
ghost use Rattle.server_core.specs.Steps.{seen_as};
ghost use Rattle.lt_serve.specs.Listening.{address_of, listening_line};
ghost use Rattle.lt_serve.specs.Serving.{IsUnasked, LoadedEnds, ListenEnds, SaidTo};
ghost use Rattle.lt_serve.specs.Served.{Served};

use crate::clients::serve_clients;
use crate::listening::{address_of, listening_line};
use crate::run::Finish;
use conf_eval::Loaded;
use lt_commands::{Status, server_of};
use lt_world::{Address, Files, NextKind, Sink, Waits};
use script_net::write_all;
use std::alloc::Global;
use std::sync::Wait;

/// Puts out where it listens, listens there, and serves clients until no event comes any more.
pub fn serve_loaded<R: Wait, N: Waits, F: Files, S: Sink>(
    rt: &R,
    alloc: Global,
    loaded: &Loaded,
    net: &mut N,
    files: &mut F,
    sink: &mut S,
) -> Status
    requires form { IsInForm loaded.now.config }
    requires patterns { ArePatterns loaded.now.config.blocks loaded.now.patterns }
    requires unasked { N.last net.old ≡ NextKind.NoneYet }
    requires untold { N.tells → N.trace net.old ≡ [] }
    requires uncalled { F.tells → (F.disk files.old).calls ≡ [] }
    requires unopened { F.tells → (file : ℕ) → (F.disk files.old).table file ≡ None }
    ensures served { N.tells → F.tells → Served (site_at loaded.now.config.blocks)
        (seen_as (F.disk files.old) (F.faults files.old) (F.reads files.old))
        (seen_as (F.disk files.new) (F.faults files.new) (F.reads files.new)) (N.trace net.new) }
    ensures ends { LoadedEnds result (N.last net.new) (N.wait_faults net.old) (N.wait_faults net.new) }
    ensures says { S.tells → SaidTo result (listening_line (address_of loaded.now.config.blocks)) (S.bytes sink.old) (S.bytes sink.new) }
    ensures cause { result ≡ Status.SinkFault → Rose (S.faults sink.old) (S.faults sink.new) }
    ensures unasked { result ≡ Status.SinkFault → net.new ≡ net.old }
    ensures unserved { IsUnasked result → files.new ≡ files.old }
    ensures since { N.since net.old net.new }
    ensures faults { F.faults files.old ≤ F.faults files.new }
    ensures sink_faults { S.faults sink.old ≤ S.faults sink.new }
{
    let at = address_of(&loaded.config);
    let Ok(line) = listening_line(alloc, at) else {
        return Status::NoMemory;
    };
    if write_all(sink, line.bytes()).is_err() {
        return Status::SinkFault;
    }
    listen_and_serve(rt, alloc, loaded, at, net, files)
}

fn listen_and_serve<R: Wait, N: Waits, F: Files>(
    rt: &R,
    alloc: Global,
    loaded: &Loaded,
    at: Address,
    net: &mut N,
    files: &mut F,
) -> Status
    requires form { IsInForm loaded.now.config }
    requires patterns { ArePatterns loaded.now.config.blocks loaded.now.patterns }
    requires unasked { N.last net.old ≡ NextKind.NoneYet }
    requires untold { N.tells → N.trace net.old ≡ [] }
    requires uncalled { F.tells → (F.disk files.old).calls ≡ [] }
    requires unopened { F.tells → (file : ℕ) → (F.disk files.old).table file ≡ None }
    ensures served { N.tells → F.tells → Served (site_at loaded.now.config.blocks)
        (seen_as (F.disk files.old) (F.faults files.old) (F.reads files.old))
        (seen_as (F.disk files.new) (F.faults files.new) (F.reads files.new)) (N.trace net.new) }
    ensures ends { ListenEnds result (N.last net.new) (N.wait_faults net.old) (N.wait_faults net.new) }
    ensures unserved { result ≡ Status.ListenFault → files.new ≡ files.old }
    ensures since { N.since net.old net.new }
    ensures faults { F.faults files.old ≤ F.faults files.new }
{
    if net.listen(at).is_err() {
        return Status::ListenFault;
    }
    let Ok(server) = server_of(alloc, loaded) else {
        return Status::NoMemory;
    };
    match serve_clients(rt, server, net, files) {
        Finish::Over => Status::Done,
        Finish::NoMemory => Status::NoMemory,
        Finish::WaitFault => Status::WaitFault,
    }
}
