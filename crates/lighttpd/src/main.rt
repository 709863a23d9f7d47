//! The program: `-f CONF` serves clients over the sockets of the system, `replay` serves those of a script, `bench` those
//! of a script that is made for them, `-t` checks a configuration, `-p` prints one.
//! What a call does is `lt_commands` and `lt_serve`; named texts and files are `files_disk`'s, sockets `mio_net`'s. Here is
//! the edge of the process: its words, standard output (`out_sink`), and its end (`ending`), the status's text on standard
//! error and its number; at a terminal people are told of it in words (`explaining`).
#![tactic(auto)]

mod ending;
mod explaining;
mod help;
mod named_texts;
mod out_sink;

use crate::ending::end;
use crate::explaining::{explain, is_at_terminal};
use crate::help::{asks_for_help, help};
use crate::named_texts::NamedTexts;
use crate::out_sink::OutSink;
use conditions::RegexMaker;
use files_disk::{DiskFiles, DiskTexts};
use lt_commands::{Status, answer};
use lt_serve::serve;
use mio_net::MioNet;
use std::io::ErrorKind;
use std::process::ExitCode;
use std::{env, io};

fn main(rt: HostRuntime) -> ExitCode {
    let mut texts = NamedTexts::new(rt.alloc(), DiskTexts::new(&rt));
    let mut maker = RegexMaker::new(rt.alloc());
    let mut sink = OutSink::new(&rt);
    let words = match words_of(&rt) {
        Ok(words) => words,
        Err(error) => return end(&rt, refusal_of(&error)),
    };
    let mut status = answer(rt.alloc(), &words, &mut texts, &mut maker, &mut sink);
    if status == Status::Usage {
        // No line without sockets: the words may be the one that serves.
        let mut files = DiskFiles::new(&rt);
        status = match MioNet::new(&rt) {
            Ok(mut net) => serve(
                &rt,
                rt.alloc(),
                &words,
                &mut texts,
                &mut maker,
                &mut net,
                &mut files,
                &mut sink,
            ),
            Err(_) => Status::NoMemory,
        };
    }
    let code = end(&rt, status);
    if status == Status::Usage && asks_for_help(&words) {
        help(&rt);
    }
    if is_at_terminal(&rt) {
        explain(&rt, texts, status);
    }
    code
}

// A word that is not UTF-8 is no word of a line.
fn refusal_of(error: &io::Error) -> Status {
    match error.kind() {
        ErrorKind::InvalidData => Status::Usage,
        _ => Status::NoMemory,
    }
}

// The words of the call, without the program's name.
fn words_of(rt: &HostRuntime) -> io::Result<Vec<String>> {
    let mut words = Vec::new(rt.alloc());
    for word in env::args(rt)?.skip(1) {
        words.push(word)?;
    }
    Ok(words)
}
