//! A script as text, which is read as the same script again.
ghost use Rattle.std.specs.Prelude.{◌≡◌, ◌++◌, OnOk, IfOk, codes};
ghost use Rattle.lt_bytes.specs.Quoting.{quoted};
ghost use Rattle.std.specs.Fmt.{decimal};
ghost use Rattle.lt_script.specs.Grammar.{name_text, address_text, call_text};
ghost use Rattle.lt_script.specs.Printing.{file_text, fault_text, step_text, printed_files, printed_faults, printed_steps, printed};

use crate::script::{FaultCall, Name, Script, ScriptFault, ScriptFile, Step};
use lt_bytes::{NoMemory, Text, decimal, quoted};
use lt_world::Address;
use std::alloc::Global;

/// The text of a script: its first line, its files, its faults, then its steps, each kind in its order, without comments. Reading
/// it gives a script again that a text gave: `laws::what_is_printed_is_read`.
pub fn print_script(alloc: Global, script: &Script) -> Result<Text, NoMemory>
    ensures { IfOk result (λ text. text ≡ printed script.now) }
{
    let mut text = Text::new(alloc);
    text.push_all(b"lighttpd-script 1\n")?;
    print_files(&mut text, script.files.as_slice())?;
    print_faults(&mut text, script.faults.as_slice())?;
    print_steps(&mut text, script.steps.as_slice())?;
    Ok(text)
}

fn print_files(text: &mut Text, files: &[ScriptFile]) -> Result<(), NoMemory>
    ensures { OnOk result (text.new ≡ text.old ++ printed_files files.now) }
{
    for file in files {
        print_file(text, file)?;
        text.push(b'\n')?;
    }
    Ok(())
}

fn print_faults(text: &mut Text, faults: &[ScriptFault]) -> Result<(), NoMemory>
    ensures { OnOk result (text.new ≡ text.old ++ printed_faults faults.now) }
{
    for fault in faults {
        print_fault(text, *fault)?;
        text.push(b'\n')?;
    }
    Ok(())
}

fn print_steps(text: &mut Text, steps: &[Step]) -> Result<(), NoMemory>
    ensures { OnOk result (text.new ≡ text.old ++ printed_steps steps.now) }
{
    for step in steps {
        print_step(text, step)?;
        text.push(b'\n')?;
    }
    Ok(())
}

fn print_file(text: &mut Text, file: &ScriptFile) -> Result<(), NoMemory>
    ensures { OnOk result (text.new ≡ text.old ++ file_text file.now) }
{
    match file {
        ScriptFile::Bytes { path, time, bytes } => {
            text.push_all(b"file \"")?;
            push_quoted(text, path.bytes())?;
            text.push_all(b"\" ")?;
            push_number(text, *time)?;
            text.push_all(b" \"")?;
            push_quoted(text, bytes.bytes())?;
            text.push_all(b"\"")
        }
        ScriptFile::Fill { path, time, size } => {
            text.push_all(b"fill \"")?;
            push_quoted(text, path.bytes())?;
            text.push_all(b"\" ")?;
            push_number(text, *time)?;
            text.push_all(b" ")?;
            push_number(text, *size)
        }
        ScriptFile::Dir { path } => {
            text.push_all(b"dir \"")?;
            push_quoted(text, path.bytes())?;
            text.push_all(b"\"")
        }
    }
}

fn print_fault(text: &mut Text, fault: ScriptFault) -> Result<(), NoMemory>
    ensures { OnOk result (text.new ≡ text.old ++ fault_text fault) }
{
    text.push_all(b"fault ")?;
    text.push_all(call_text(fault.call))?;
    text.push_all(b" ")?;
    push_number(text, fault.nth as u64)
}

fn call_text(call: FaultCall) -> &'static [u8]
    ensures { result.now ≡ call_text call }
{
    match call {
        FaultCall::Connect => b"connect",
        FaultCall::Find => b"find",
        FaultCall::Open => b"open",
        FaultCall::File => b"file",
        FaultCall::Listen => b"listen",
        FaultCall::Wait => b"wait",
    }
}

fn print_step(text: &mut Text, step: &Step) -> Result<(), NoMemory>
    ensures { OnOk result (text.new ≡ text.old ++ step_text step.now) }
{
    match step {
        Step::Accept { peer, local } => {
            text.push_all(b"accept ")?;
            push_address(text, *peer)?;
            text.push_all(b" ")?;
            push_address(text, *local)
        }
        Step::Bytes { link, bytes } => {
            push_named(text, b"data ", *link)?;
            text.push_all(b" \"")?;
            push_quoted(text, bytes.bytes())?;
            text.push_all(b"\"")
        }
        Step::Pour { link, size } => {
            push_named(text, b"pour ", *link)?;
            push_counted(text, *size)
        }
        Step::End { link } => push_named(text, b"end ", *link),
        Step::Ready { link, count } => {
            push_named(text, b"ready ", *link)?;
            push_counted(text, *count)
        }
        Step::ReadFail { link } => push_named(text, b"rfail ", *link),
        Step::Take { link, size, count } => {
            push_named(text, b"take ", *link)?;
            push_counted(text, *size)?;
            push_counted(text, *count)
        }
        Step::WriteFail { link } => push_named(text, b"wfail ", *link),
        Step::Idle => text.push_all(b"idle"),
    }
}

// The kind of a line, and the name of its link.
fn push_named(text: &mut Text, front: &[u8], name: Name) -> Result<(), NoMemory>
    ensures { OnOk result (text.new ≡ text.old ++ (front.now ++ name_text name)) }
{
    text.push_all(front)?;
    text.push_all(b"c")?;
    push_number(text, name.number as u64)
}

// A space and a number.
fn push_counted(text: &mut Text, number: u32) -> Result<(), NoMemory>
    ensures { OnOk result (text.new ≡ text.old ++ (codes " " ++ decimal number)) }
{
    text.push_all(b" ")?;
    push_number(text, number as u64)
}

fn push_address(text: &mut Text, address: Address) -> Result<(), NoMemory>
    ensures { OnOk result (text.new ≡ text.old ++ address_text address) }
{
    push_octet(text, address.ip[0], b".")?;
    push_octet(text, address.ip[1], b".")?;
    push_octet(text, address.ip[2], b".")?;
    push_octet(text, address.ip[3], b":")?;
    push_number(text, address.port as u64)
}

// A part of an address, and the sign after it.
fn push_octet(text: &mut Text, octet: u8, sign: &[u8]) -> Result<(), NoMemory>
    ensures { OnOk result (text.new ≡ text.old ++ (decimal octet ++ sign.now)) }
{
    push_number(text, octet as u64)?;
    text.push_all(sign)
}

fn push_number(text: &mut Text, number: u64) -> Result<(), NoMemory>
    ensures { OnOk result (text.new ≡ text.old ++ decimal number) }
{
    text.push_all(decimal(number).bytes())
}

fn push_quoted(text: &mut Text, bytes: &[u8]) -> Result<(), NoMemory>
    ensures { OnOk result (text.new ≡ text.old ++ quoted bytes.now) }
{
    for byte in bytes {
        text.push_all(quoted(*byte).bytes())?;
    }
    Ok(())
}
