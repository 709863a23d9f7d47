//! Plays the worked rows of `rows.txt`: calls of the program, each with the texts that it reads, and what it must
//! answer. A line for each row says `ok` and its name, or what differed; the last line counts them. The head of that
//! file says how a row is written.
//! Stands on `lt_commands` and `lt_serve` for the calls, on the memory forms of `lt_world` and the maker of `conditions`, on `lt_script` and `script_net`
//! for the net of a script, and on `files_disk` for the file.
#![tactic(auto)]

mod bytes;
mod pieces;
mod row;
mod rows;

use crate::rows::Rows;
use anyhow::{Result, bail};
use files_disk::DiskTexts;
use lt_bytes::Text;
use lt_world::{Fetched, Texts};
use std::io::{Write, writer};

/// The most bytes of a file of rows, or of one that it names.
pub const FILE_LIMIT: u64 = 16_777_216;

/// The whole file of this name, in the folder in which the program runs.
pub fn read_file<X: Texts>(texts: &mut X, name: &[u8]) -> Result<Text> {
    match texts.fetch(name, FILE_LIMIT) {
        Fetched::Text(text) => Ok(text),
        Fetched::NoMemory => bail!("out of memory"),
        Fetched::Missing | Fetched::Long | Fetched::Failed => bail!("a file cannot be read"),
    }
}

fn main(rt: HostRuntime) -> Result<()> {
    let mut texts = DiskTexts::new(&rt);
    let file = read_file(&mut texts, b"rows.txt")?;
    let mut rows = Rows::new(rt.alloc());
    let mut number = 0u64;
    for line in file.bytes().split(|byte| *byte == b'\n') {
        number = number.wrapping_add(1);
        if rows.take_line(&rt, &mut texts, line).is_err() {
            bail!("rows.txt: line {number} is no line of a row");
        }
    }
    let differ = rows.finish(&rt)?;
    writer(&rt).write_all(rows.report())?;
    if differ {
        bail!("not every row is ok");
    }
    Ok(())
}
