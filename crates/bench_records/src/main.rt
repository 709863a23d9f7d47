//! A benchmark: reads a stream of records of STDOUT, in reads of 4,096 bytes, and prints how much content came and how many
//! bytes were copied into buffers. `bench/records.py` runs it and measures from outside.
#![tactic(auto)]

ghost use Rattle.std.specs.Prelude.{◌+◌, ◌<◌, ◌≤◌, length, vec_len};
ghost use Rattle.buffer_pool.specs.Kept.{HeldWithin};

use anyhow::{Result, bail};
use chunkqueue::{BUFFER_SIZE, Chunks, Queue, Store};
use fcgi_records::{Reader, STDOUT, encode_header};
use lt_bytes::{Number, read_decimal};
use std::env;

/// So many reads are held before the content is dropped: 1 MiB.
const HELD: u64 = 256;

const MOST: u64 = 4_294_967_296;

/// The next read of a stream of records with so much content each, in which the next byte has this place in its record.
fn read_from(size: u16, place: usize) -> [u8; BUFFER_SIZE]
    requires { place < 65543 }
{
    let header = encode_header(STDOUT, size);
    let mut read = [0u8; BUFFER_SIZE];
    let mut at = place;
    for byte in read.iter_mut() {
        *byte = if at < 8 { header[at] } else { b'x' };
        at = if at + 1 < usize::from(size) + 8 {
            at + 1
        } else {
            0
        };
    }
    read
}

/// Whether it was read.
#[tactic(auto, using(fcgi_records::proofs::FeedingLemmas::memory_of_bytes))]
fn fed(store: &mut Store, reader: &mut Reader, out: &mut Chunks, bytes: &[u8]) -> bool
    requires held { HeldWithin store.old (length out.old.numbers) }
    ensures held { HeldWithin store.new (length out.new.numbers) }
{
    let mut input = Chunks::new();
    if bytes.len() > BUFFER_SIZE || out.len() > MOST || input.push_bytes(store, bytes).is_err() {
        input.close(store);
        return false;
    }
    let answer = reader.feed(store, &mut input, out);
    input.close(store);
    answer.is_ok()
}

/// Whether it was held as it came.
fn pushed(store: &mut Store, out: &mut Chunks, bytes: &[u8]) -> bool
    requires held { HeldWithin store.old (length out.old.numbers) }
    ensures held { HeldWithin store.new (length out.new.numbers) }
{
    if bytes.len() > BUFFER_SIZE || out.len() > MOST {
        return false;
    }
    out.push_bytes(store, bytes).is_ok()
}

/// What is done with each read.
#[derive(Clone, Copy, PartialEq, Eq)]
enum Work {
    Feed,
    Push,
}

/// How many bytes were held of so many reads.
fn run(store: &mut Store, work: Work, reads: u64, size: u16) -> u64
    requires { HeldWithin store.old 0 }
    ensures { HeldWithin store.new 0 }
{
    let mut reader = Reader::new();
    let mut out = Chunks::new();
    let mut place = 0;
    let mut sum = 0u64;
    for round in 0..reads {
        let read = read_from(size, place);
        place = (place + BUFFER_SIZE) % (usize::from(size) + 8);
        let done = match work {
            Work::Feed => fed(store, &mut reader, &mut out, &read),
            Work::Push => pushed(store, &mut out, &read),
        };
        if !done {
            break;
        }
        if round % HELD == HELD - 1 {
            sum = sum.wrapping_add(out.len());
            out.empty_into(store);
        }
    }
    sum = sum.wrapping_add(out.len());
    out.close(store);
    sum
}

fn count(word: Option<String>) -> Result<u64> {
    match word {
        Some(word) => match read_decimal(word.as_bytes()) {
            Number::Value(n) => Ok(n),
            Number::NotANumber | Number::Overflow => bail!("{word} is no number"),
        },
        None => bail!("usage: bench_records FED PUSHED SIZE"),
    }
}

fn main(rt: HostRuntime) -> Result<()> {
    let mut words = env::args(&rt)?;
    let _program = words.next();
    let feeds = count(words.next())?;
    let pushes = count(words.next())?;
    let size = count(words.next())?.min(65_535) as u16;
    let mut store = Store::new(rt.alloc());
    let content = run(&mut store, Work::Feed, feeds, size);
    let held = run(&mut store, Work::Push, pushes, size);
    let copied = store.filled();
    store.close();
    println!(rt; "{content} {held} {copied}")?;
    Ok(())
}
