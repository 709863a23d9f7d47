//! A script is put where it plays: its files and directories into memory, its steps into a net.
ghost use Rattle.std.specs.Prelude.{◌≡◌, true, OnOk, IfOk};
ghost use Rattle.lt_world.specs.Memory.{tree_of, is_path};
ghost use Rattle.script_net.specs.Loads.{path_of, with_file, planted, AreRooted, with_fault, faulted};

use crate::letters::letters;
use lt_bytes::{List, NoMemory, Text};
use lt_script::{FaultCall, ScriptFault, ScriptFile, Step};
use lt_world::{FileCall, MemFiles};
use std::alloc::Global;

/// Adds the files of a script.
pub fn plant(alloc: Global, script: &[ScriptFile], files: &mut MemFiles) -> Result<(), NoMemory>
    requires { AreRooted script.now }
    ensures tree { OnOk result (tree_of files.new ≡ planted script.now (tree_of files.old)) }
    ensures rest { files.new ≡ record files.old { places = files.new.places } }
{
    for file in script {
        plant_one(alloc, file, files)?;
    }
    Ok(())
}

fn plant_one(alloc: Global, file: &ScriptFile, files: &mut MemFiles) -> Result<(), NoMemory>
    requires { is_path (path_of file.now) ≡ true }
    ensures tree { OnOk result (tree_of files.new ≡ with_file file.now (tree_of files.old)) }
    ensures rest { files.new ≡ record files.old { places = files.new.places } }
{
    match file {
        ScriptFile::Bytes { path, time, bytes } => {
            files.add_file(path.bytes(), *time, bytes.bytes())
        }
        ScriptFile::Fill { path, time, size } => {
            let bytes = letters(alloc, *size as usize)?;
            files.add_file(path.bytes(), *time, &bytes)
        }
        ScriptFile::Dir { path } => files.add_dir(path.bytes()),
    }
}

/// Plans the faults of a script that are of files: of a path that is looked up, and of a file that is opened or read.
/// Where memory is wanted, some of them may be planned. No call is made of the files.
pub fn plan_files(faults: &[ScriptFault], files: &mut MemFiles) -> Result<(), NoMemory>
    ensures planned { OnOk result (files.new ≡ faulted faults.now files.old) }
    ensures rest { files.new ≡ record files.old { find_plan = files.new.find_plan; open_plan = files.new.open_plan; read_plan = files.new.read_plan } }
    ensures uncounted { files.new.read_plan.made ≡ files.old.read_plan.made }
{
    for fault in faults {
        plan_one(*fault, files)?;
    }
    Ok(())
}

fn plan_one(fault: ScriptFault, files: &mut MemFiles) -> Result<(), NoMemory>
    ensures planned { OnOk result (files.new ≡ with_fault fault.call fault.nth files.old) }
    ensures rest { files.new ≡ record files.old { find_plan = files.new.find_plan; open_plan = files.new.open_plan; read_plan = files.new.read_plan } }
    ensures uncounted { files.new.read_plan.made ≡ files.old.read_plan.made }
{
    match fault.call {
        FaultCall::Find => files.plan(FileCall::Find, fault.nth),
        FaultCall::Open => files.plan(FileCall::Open, fault.nth),
        FaultCall::File => files.plan(FileCall::Read, fault.nth),
        _ => Ok(()),
    }
}

/// A copy of faults.
pub fn copy_faults(alloc: Global, faults: &[ScriptFault]) -> Result<List<ScriptFault>, NoMemory>
    ensures { IfOk result (λ copy. copy ≡ faults.now) }
{
    let mut copy = List::new(alloc);
    for fault in faults {
        copy.push(*fault)?;
    }
    Ok(copy)
}

/// A copy of steps.
pub fn copy_steps(alloc: Global, steps: &[Step]) -> Result<List<Step>, NoMemory>
    ensures { IfOk result (λ copy. copy ≡ steps.now) }
{
    let mut copy = List::new(alloc);
    for step in steps {
        copy.push(copy_step(alloc, step)?)?;
    }
    Ok(copy)
}

fn copy_step(alloc: Global, step: &Step) -> Result<Step, NoMemory>
    ensures { IfOk result (λ copy. copy ≡ step.now) }
{
    match step {
        Step::Accept { peer, local } => Ok(Step::Accept {
            peer: *peer,
            local: *local,
        }),
        Step::Bytes { link, bytes } => {
            let bytes = Text::from_bytes(alloc, bytes.bytes())?;
            Ok(Step::Bytes { link: *link, bytes })
        }
        Step::Pour { link, size } => Ok(Step::Pour {
            link: *link,
            size: *size,
        }),
        Step::End { link } => Ok(Step::End { link: *link }),
        Step::Ready { link, count } => Ok(Step::Ready {
            link: *link,
            count: *count,
        }),
        Step::ReadFail { link } => Ok(Step::ReadFail { link: *link }),
        Step::Take { link, size, count } => Ok(Step::Take {
            link: *link,
            size: *size,
            count: *count,
        }),
        Step::WriteFail { link } => Ok(Step::WriteFail { link: *link }),
        Step::Idle => Ok(Step::Idle),
    }
}
