//! A benchmark: reads the answers of an HTTP gateway in chunks of so many bytes, in reads of 4,096 bytes, and prints how much
//! content came and how many bytes were copied into buffers. `bench/answers.py` runs it and measures from outside.
#![tactic(auto)]

ghost use Rattle.std.specs.Prelude.{◌+◌, ◌<◌, ◌≤◌, length};
ghost use Rattle.buffer_pool.specs.Kept.{HeldWithin};

use anyhow::{Result, bail};
use chunkqueue::{BUFFER_SIZE, Chunks, Queue, Store};
use lt_bytes::{Number, read_decimal};
use proxy_message::AnswerReader;
use std::alloc::Global;
use std::env;

const HEAD: &[u8] = b"HTTP/1.1 200 OK\r\nTransfer-Encoding: chunked\r\n\r\n";

/// So many reads are one answer: 1 MiB.
const ANSWER: u64 = 256;

const MOST: u64 = 4_294_967_296;

/// What stands before a chunk's data: its size in five hexadecimal digits, and a line end.
const BEFORE: usize = 7;

fn digit(n: usize) -> u8 {
    let n = (n % 16) as u8;
    if n < 10 { b'0' + n } else { b'a' + (n - 10) }
}

/// The next read of chunks with so much data each, in which the next byte has this place in its chunk.
fn read_from(size: usize, place: usize) -> [u8; BUFFER_SIZE]
    requires size { size < 65536 }
    requires place { place < 65545 }
{
    let before = [
        digit(size / 65_536),
        digit(size / 4_096),
        digit(size / 256),
        digit(size / 16),
        digit(size),
        b'\r',
        b'\n',
    ];
    let mut read = [0u8; BUFFER_SIZE];
    let mut at = place;
    for byte in read.iter_mut() {
        *byte = byte_at(&before, size, at);
        at = if at + 1 < size + BEFORE + 2 {
            at + 1
        } else {
            0
        };
    }
    read
}

/// The byte at a place of a chunk.
fn byte_at(before: &[u8; 7], size: usize, at: usize) -> u8
    requires { size < 65536 }
{
    if at < BEFORE {
        return before[at];
    }
    if at < size + BEFORE {
        return b'x';
    }
    if at == size + BEFORE { b'\r' } else { b'\n' }
}

/// Whether it was read.
#[tactic(auto, using(lt_http_body::proofs::FeedingLemmas::memory_of_bytes))]
fn fed(store: &mut Store, reader: &mut AnswerReader, body: &mut Chunks, bytes: &[u8]) -> bool
    requires held { HeldWithin store.old (length body.old.numbers) }
    ensures held { HeldWithin store.new (length body.new.numbers) }
{
    let mut input = Chunks::new();
    if bytes.len() > BUFFER_SIZE || body.len() > MOST || input.push_bytes(store, bytes).is_err() {
        input.close(store);
        return false;
    }
    let answer = reader.feed(store, &mut input, body);
    input.close(store);
    answer.is_ok()
}

/// How many bytes came of one answer in so many reads.
fn answer(store: &mut Store, alloc: Global, reads: u64, size: usize) -> u64
    requires size { size < 65536 }
    requires held { HeldWithin store.old 0 }
    ensures held { HeldWithin store.new 0 }
{
    let mut reader = AnswerReader::new(alloc, false);
    let mut body = Chunks::new();
    let mut place = 0;
    let mut going = fed(store, &mut reader, &mut body, HEAD);
    for _ in 0..reads {
        let read = read_from(size, place);
        place = (place + BUFFER_SIZE) % (size + BEFORE + 2);
        going = going && fed(store, &mut reader, &mut body, &read);
    }
    let sum = if going { body.len() } else { 0 };
    body.close(store);
    sum
}

fn answers(store: &mut Store, alloc: Global, times: u64, size: usize) -> u64
    requires size { size < 65536 }
    requires held { HeldWithin store.old 0 }
    ensures held { HeldWithin store.new 0 }
{
    let mut sum = 0u64;
    for _ in 0..times {
        sum = sum.wrapping_add(answer(store, alloc, ANSWER, size));
    }
    sum
}

fn count(word: Option<String>) -> Result<u64> {
    match word {
        Some(word) => match read_decimal(word.as_bytes()) {
            Number::Value(n) => Ok(n),
            Number::NotANumber | Number::Overflow => bail!("{word} is no number"),
        },
        None => bail!("usage: bench_answers TIMES SIZE"),
    }
}

fn main(rt: HostRuntime) -> Result<()> {
    let mut words = env::args(&rt)?;
    let _program = words.next();
    let times = count(words.next())?;
    let size = count(words.next())?.clamp(1, 65_535) as usize;
    let mut store = Store::new(rt.alloc());
    let content = answers(&mut store, rt.alloc(), times, size);
    let copied = store.filled();
    store.close();
    println!(rt; "{content} {copied}")?;
    Ok(())
}
