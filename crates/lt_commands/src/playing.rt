//! A script is played: it is put where it plays, its clients are served, and what they took is put out.
ghost use Rattle.std.specs.Prelude.{◌≡◌, ◌<◌, ◌≤◌, ℕ, List, [], None, OnOk, OnErr};
ghost use Rattle.lt_world.specs.Disk.{Disk};
ghost use Rattle.lt_world.specs.Memory.{no_files, tree_of};
ghost use Rattle.lt_world.specs.Causes.{Rose};
ghost use Rattle.lt_world.specs.FileRuns.{Leads};
ghost use Rattle.settings.specs.InForm.{IsInForm};
ghost use Rattle.conf_eval.specs.Patterns.{ArePatterns};
ghost use Rattle.script_net.specs.Loads.{planted};
ghost use Rattle.script_net.specs.Playing.{unplayed, prepared, IsLater};
ghost use Rattle.script_net.specs.Steps.{events_left};
ghost use Rattle.script_net.specs.Plays.{Plays};
ghost use Rattle.script_net.specs.Failing.{IsCalm};
ghost use Rattle.script_net.specs.Reports.{Writes};
ghost use Rattle.lt_script.specs.declared.script.Script.{Script};
ghost use Rattle.lt_script.specs.Texts.{Spells};
ghost use Rattle.server_model.specs.Files.{IsTable, Backs};
ghost use Rattle.server_model.specs.Serves.{Serves};
ghost use Rattle.server_core.specs.Within.{serving_at};
ghost use Rattle.lt_commands.specs.Planned.{ArePlanned};
ghost use Rattle.lt_commands.specs.Runs.{AreFresh, FinishFits, Served, asked_of};
ghost use Rattle.lt_commands.specs.Endings.{AllEndCalmly};
ghost use Rattle.lt_commands.specs.Offline.{PlaySays, SinkSays};
ghost use Rattle.lt_commands.specs.Outputs.{output_of};
ghost use Rattle.lt_commands.specs.Serving.{ServesBy};

use crate::run::{Finish, run};
use crate::serving::server_of;
use crate::status::Status;
use conditions::Steps;
use conf_eval::Loaded;
use lt_bytes::NoMemory;
use lt_script::Script;
use lt_world::{Fault, MemFiles, Sink};
use script_gen::summary;
use script_net::{ScriptNet, plan_files, report};
use server_core::Server;
use std::alloc::Global;
use std::marker::Brand;
use std::sync::ledger::{Blank, Ledger};

/// What is put out of a play.
#[derive(Clone, Copy, Debug)]
pub enum Output {
    /// A line for each link.
    Report,
    /// Three numbers.
    Summary,
}

/// Serves the clients of a script as a configuration says, and puts out what they took.
pub fn play<S: Sink>(
    alloc: Global,
    loaded: &Loaded,
    script: &Script,
    output: Output,
    net: &mut ScriptNet,
    files: &mut MemFiles,
    sink: &mut S,
) -> Status
    requires net { net.old ≡ unplayed [] }
    requires files { files.old ≡ no_files }
    requires spelled { (bytes : List ℕ) × Spells bytes script.now }
    requires form { IsInForm loaded.now.config }
    requires patterns { ArePatterns loaded.now.config.blocks loaded.now.patterns }
    ensures serves { ServesBy loaded.now script.now result (asked_of files.new) net.new.game.trace }
    ensures ends { PlaySays result net.new.last }
    ensures output { S.tells → SinkSays result (output_of output net.new.game.trace) (S.bytes sink.old) (S.bytes sink.new) }
    ensures cause { result ≡ Status.SinkFault → Rose (S.faults sink.old) (S.faults sink.new) }
{
    if begin(script, net, files).is_err() {
        return Status::NoMemory;
    }
    match server_of(alloc, loaded) {
        Ok(server) => play_begun(server, output, net, files, sink),
        Err(_) => Status::NoMemory,
    }
}

// Puts a script where it plays: its steps into the net, its files into memory, with the faults that it plans for them.
fn begin(script: &Script, net: &mut ScriptNet, files: &mut MemFiles) -> Result<(), NoMemory>
    requires net { net.old ≡ unplayed [] }
    requires files { files.old ≡ no_files }
    requires spelled { (bytes : List ℕ) × Spells bytes script.now }
    ensures plays { OnOk result (net.new ≡ prepared script.now) }
    ensures untold { net.new.game.trace ≡ [] }
    ensures unasked { net.new.last ≡ net.old.last }
    ensures tree { OnOk result (tree_of files.new ≡ planted script.now.files (tree_of no_files)) }
    ensures planned { OnOk result (ArePlanned script.now.faults files.new) }
    ensures fresh { AreFresh files.new }
{
    net.load(script, files)?;
    plan_files(script.faults.as_slice(), files)
}

// Serves the clients of a script that was loaded, and puts out what they took.
fn play_begun<S: Sink>(
    server: Server<'_>,
    output: Output,
    net: &mut ScriptNet,
    files: &mut MemFiles,
    sink: &mut S,
) -> Status
    requires fresh { AreFresh files.old }
    requires begins { net.old.game.trace ≡ [] }
    requires table { (links : ℕ) → IsTable links server.table }
    requires backs { (disk : Disk) → Backs disk.table server.table }
    requires serves { (disk : Disk) → disk.calls ≡ [] → ((file : ℕ) → disk.table file ≡ None) → Serves disk (serving_at server) [] }
    ensures serves { Served server.entry.site (tree_of files.old) (asked_of files.new) net.new.game.trace }
    ensures ends { PlaySays result net.new.last }
    ensures leads { Leads files.old files.new }
    ensures calm { (said : Script) → net.old ≡ prepared said → IsCalm said.steps → files.new.faults ≡ 0 → AllEndCalmly net.new.game.trace }
    ensures plays { (said : Script) → net.old ≡ prepared said → result ≡ Status.Done → Plays said.steps net.new.game.trace [] }
    ensures output { S.tells → SinkSays result (output_of output net.new.game.trace) (S.bytes sink.old) (S.bytes sink.new) }
    ensures cause { result ≡ Status.SinkFault → Rose (S.faults sink.old) (S.faults sink.new) }
{
    match serve(server, net, files) {
        Finish::NoMemory => Status::NoMemory,
        Finish::Over => match put_out(output, net, sink) {
            Ok(()) => Status::Done,
            Err(_) => Status::SinkFault,
        },
    }
}

// Takes turns until the net is over, and ends the server. Nobody asks how many conditions were compared.
fn serve(server: Server<'_>, net: &mut ScriptNet, files: &mut MemFiles) -> Finish
    requires fresh { AreFresh files.old }
    requires begins { net.old.game.trace ≡ [] }
    requires table { (links : ℕ) → IsTable links server.table }
    requires backs { (disk : Disk) → Backs disk.table server.table }
    requires serves { (disk : Disk) → disk.calls ≡ [] → ((file : ℕ) → disk.table file ≡ None) → Serves disk (serving_at server) [] }
    ensures serves { Served server.entry.site (tree_of files.old) (asked_of files.new) net.new.game.trace }
    ensures last { FinishFits result net.new.last }
    ensures leads { Leads files.old files.new }
    ensures over { result ≡ Finish.Over → events_left net.new.game.left ≡ 0 }
    ensures later { IsLater net.old net.new }
{
    serve_counted::<Brand>(Blank::new(1), server, net, files)
}

// The same, by a ledger that was opened for the count of comparisons alone.
fn serve_counted<L: Ledger>(
    blank: Blank,
    server: Server<'_>,
    net: &mut ScriptNet,
    files: &mut MemFiles,
) -> Finish
    requires name { blank.name ≡ L.name }
    requires parts { blank.parts ≡ L.parts }
    requires some { 0 < L.parts }
    requires fresh { AreFresh files.old }
    requires begins { net.old.game.trace ≡ [] }
    requires table { (links : ℕ) → IsTable links server.table }
    requires backs { (disk : Disk) → Backs disk.table server.table }
    requires serves { (disk : Disk) → disk.calls ≡ [] → ((file : ℕ) → disk.table file ≡ None) → Serves disk (serving_at server) [] }
    ensures serves { Served server.entry.site (tree_of files.old) (asked_of files.new) net.new.game.trace }
    ensures last { FinishFits result net.new.last }
    ensures leads { Leads files.old files.new }
    ensures over { result ≡ Finish.Over → events_left net.new.game.left ≡ 0 }
    ensures later { IsLater net.old net.new }
{
    let mut server = server;
    let mut steps: Steps<L> = Steps::new(blank);
    let finish = run(&mut server, net, files, &mut steps);
    server.close(files);
    finish
}

fn put_out<S: Sink>(output: Output, net: &ScriptNet, sink: &mut S) -> Result<(), Fault>
    ensures writes { S.tells → Writes result (S.bytes sink.old) (S.bytes sink.new) (output_of output net.now.game.trace) }
    ensures cause { OnErr result (Rose (S.faults sink.old) (S.faults sink.new)) }
    ensures faults { S.faults sink.old ≤ S.faults sink.new }
{
    match output {
        Output::Report => report(net, sink),
        Output::Summary => summary(net, sink),
    }
}
