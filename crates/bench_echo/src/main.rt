//! A benchmark: over the sockets of the system alone, sends back what comes. It prints the port at which it listens, ends
//! after so many answers as its argument says, and prints how many it gave. `bench/echo.py` and `bench/descriptors.py`
//! run it and measure from outside.
#![tactic(auto)]

ghost use Rattle.std.specs.Prelude.{◌<◌, ◌≤◌};

use anyhow::{Result, bail};
use lt_bytes::{Number, read_decimal};
use lt_world::{Address, Ending, Event, Got, Link, Net, Waits};
use mio_net::MioNet;
use std::env;

const SIZE: usize = 2048;

/// Reads once, and sends back what came. Whether something did.
fn answer<N: Net>(net: &mut N, link: Link) -> bool
    requires known { link.0 < N.links net.old }
    requires calls { 2 ≤ N.calls net.old }
    requires room { 4096 ≤ N.room net.old }
{
    let mut buf = [0u8; SIZE];
    match net.read(link, &mut buf) {
        Got::Bytes(n) => {
            let _took = net.write(link, &buf[..n]);
            true
        }
        Got::End | Got::Failed => {
            net.close(link, Ending::Clean);
            false
        }
        Got::NotYet => false,
    }
}

/// Answers until so many answers are given, and says how many were.
fn serve<N: Waits>(net: &mut N, wanted: u64) -> u64 {
    let mut answers = 0u64;
    for _ in 0..u64::MAX {
        if answers >= wanted {
            break;
        }
        match net.next() {
            Event::Readable(link) => {
                if answer(net, link) {
                    answers = answers.saturating_add(1);
                }
            }
            Event::Arrived { .. } | Event::Writable(_) => {}
            Event::Idle => {
                if net.wait().is_err() {
                    break;
                }
            }
            Event::Over | Event::NoMemory => break,
        }
    }
    answers
}

fn count(word: Option<String>) -> Result<u64> {
    match word {
        Some(word) => match read_decimal(word.as_bytes()) {
            Number::Value(n) => Ok(n),
            Number::NotANumber | Number::Overflow => bail!("{word} is no number"),
        },
        None => bail!("usage: bench_echo ANSWERS"),
    }
}

fn main(rt: HostRuntime) -> Result<()> {
    let mut words = env::args(&rt)?;
    let _program = words.next();
    let wanted = count(words.next())?;
    let Ok(mut net) = MioNet::new(rt) else {
        bail!("out of memory");
    };
    if wanted > 0 {
        let here = Address {
            ip: [127, 0, 0, 1],
            port: 0,
        };
        if net.listen(here).is_err() {
            bail!("cannot listen");
        }
        let Some(port) = net.port() else {
            bail!("no port");
        };
        println!(rt; "{port}")?;
    }
    let answers = serve(&mut net, wanted);
    println!(rt; "{answers}")?;
    Ok(())
}
