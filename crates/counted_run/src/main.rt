//! Plays a script with pipelined requests, a body in chunks, a write that fails and a head that comes byte by byte, and
//! counts the server's buffers after each turn: those that are spare and those in queues are all that were made, there
//! are always some that are spare, and none is in a queue at the end.
//! Then the report is held against the one that is wanted, line by line. Where memory runs out a client may be closed
//! with a front of its replies; the program ends with status 1 then, and says what was lost if anything was.
//! `bench/refused.py` runs it with each request for memory refused in turn.
#![tactic(auto)]

mod lines;
mod played;

use crate::lines::{Standing, compare};
use crate::played::{Counts, play};
use anyhow::{Result, bail};
use files_disk::DiskTexts;
use lt_bytes::Text;
use lt_world::{Fetched, MemSink, Texts};
use std::io::{Write, writer};

/// The most bytes of a file, and of a report.
const FILE_LIMIT: u64 = 65_536;

/// The whole file of this name, in the folder in which the program runs.
fn read_file<X: Texts>(texts: &mut X, name: &[u8]) -> Result<Text> {
    match texts.fetch(name, FILE_LIMIT) {
        Fetched::Text(text) => Ok(text),
        Fetched::NoMemory => bail!("out of memory"),
        Fetched::Missing | Fetched::Long | Fetched::Failed => bail!("a file cannot be read"),
    }
}

fn main(rt: HostRuntime) -> Result<()> {
    let alloc = rt.alloc();
    let mut texts = DiskTexts::new(&rt);
    let script = read_file(&mut texts, b"run.script")?;
    let wanted = read_file(&mut texts, b"run.report")?;
    let mut sink = MemSink::new(alloc, FILE_LIMIT)?;
    let counts = play(alloc, &mut texts, b"run.conf", script.bytes(), &mut sink)?;
    let mut out = writer(&rt);
    match counts {
        Counts::NoMemory => bail!("out of memory"),
        Counts::Lost { turn } => {
            out.write_all(b"a buffer was lost\n")?;
            bail!("in turn {turn}");
        }
        Counts::Few { turn } => {
            out.write_all(b"too few buffers are spare\n")?;
            bail!("in turn {turn}");
        }
        Counts::Kept { left } => {
            if left > 0 {
                out.write_all(b"a buffer is held for nobody\n")?;
            }
            match compare(sink.bytes(), wanted.bytes()) {
                Standing::Whole => {
                    println!(rt;
                        "each buffer was counted after each turn, and {left} are left in queues"
                    )?;
                    Ok(())
                }
                Standing::Cut => bail!("out of memory"),
                Standing::Other => {
                    out.write_all(b"a client got what it must not get\n")?;
                    out.write_all(sink.bytes())?;
                    Ok(())
                }
            }
        }
    }
}
