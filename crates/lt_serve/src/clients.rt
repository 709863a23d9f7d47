//! Clients are served, from a fresh net to the end of the server.
ghost use Rattle.std.specs.Prelude.{◌≡◌, ◌<◌, ◌≤◌, ℕ, [], None};
ghost use Rattle.lt_world.specs.Disk.{Disk};
ghost use Rattle.server_model.specs.Files.{IsTable, Backs};
ghost use Rattle.server_model.specs.Serves.{Serves};
ghost use Rattle.server_core.specs.Steps.{seen_as};
ghost use Rattle.server_core.specs.Within.{serving_at};
ghost use Rattle.lt_serve.specs.Finishes.{FinishFits};
ghost use Rattle.lt_serve.specs.Served.{Served};

use crate::run::{Finish, run};
use conditions::Steps;
use lt_world::{Files, Waits};
use server_core::Server;
use std::marker::Brand;
use std::sync::Wait;
use std::sync::ledger::{Blank, Ledger};

/// Serves clients until no event comes any more, or none can be waited for, and ends the server. Nobody asks how many
/// conditions were compared.
pub fn serve_clients<R: Wait, N: Waits, F: Files>(
    rt: &R,
    server: Server<'_>,
    net: &mut N,
    files: &mut F,
) -> Finish
    requires untold { N.tells → N.trace net.old ≡ [] }
    requires uncalled { F.tells → (F.disk files.old).calls ≡ [] }
    requires unopened { F.tells → (file : ℕ) → (F.disk files.old).table file ≡ None }
    requires table { (links : ℕ) → IsTable links server.table }
    requires backs { (disk : Disk) → Backs disk.table server.table }
    requires serves { (disk : Disk) → disk.calls ≡ [] → ((file : ℕ) → disk.table file ≡ None) → Serves disk (serving_at server) [] }
    ensures served { N.tells → F.tells → Served server.entry.site
        (seen_as (F.disk files.old) (F.faults files.old) (F.reads files.old))
        (seen_as (F.disk files.new) (F.faults files.new) (F.reads files.new)) (N.trace net.new) }
    ensures ends { FinishFits result (N.last net.new) (N.wait_faults net.old) (N.wait_faults net.new) }
    ensures since { N.since net.old net.new }
    ensures faults { F.faults files.old ≤ F.faults files.new }
{
    serve_counted::<R, N, F, Brand>(Blank::new(1), rt, server, net, files)
}

// The same, by a ledger that was opened for the count of comparisons alone.
fn serve_counted<R: Wait, N: Waits, F: Files, L: Ledger>(
    blank: Blank,
    rt: &R,
    server: Server<'_>,
    net: &mut N,
    files: &mut F,
) -> Finish
    requires name { blank.name ≡ L.name }
    requires parts { blank.parts ≡ L.parts }
    requires some { 0 < L.parts }
    requires untold { N.tells → N.trace net.old ≡ [] }
    requires uncalled { F.tells → (F.disk files.old).calls ≡ [] }
    requires unopened { F.tells → (file : ℕ) → (F.disk files.old).table file ≡ None }
    requires table { (links : ℕ) → IsTable links server.table }
    requires backs { (disk : Disk) → Backs disk.table server.table }
    requires serves { (disk : Disk) → disk.calls ≡ [] → ((file : ℕ) → disk.table file ≡ None) → Serves disk (serving_at server) [] }
    ensures served { N.tells → F.tells → Served server.entry.site
        (seen_as (F.disk files.old) (F.faults files.old) (F.reads files.old))
        (seen_as (F.disk files.new) (F.faults files.new) (F.reads files.new)) (N.trace net.new) }
    ensures ends { FinishFits result (N.last net.new) (N.wait_faults net.old) (N.wait_faults net.new) }
    ensures since { N.since net.old net.new }
    ensures faults { F.faults files.old ≤ F.faults files.new }
{
    let mut server = server;
    let mut steps: Steps<L> = Steps::new(blank);
    let finish = run(rt, &mut server, net, files, &mut steps);
    server.close(files);
    finish
}
