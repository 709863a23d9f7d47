//! A benchmark: pushes and takes so many bytes on the plain queue, on the pooled queue, and copies as many alone, each so
//! many times as the arguments say, and prints a sum of what came out. `bench/queues.py` runs it and
//! measures from outside.
#![tactic(auto)]

ghost use Rattle.std.specs.Prelude.{◌≤◌};
ghost use Rattle.buffer_pool.specs.Kept.{HeldWithin};

use anyhow::{Result, bail};
use buffer_pool::Pool;
use chunkqueue::{BUFFER_SIZE, ChunkQueue, PlainQueue, PlainStore, Queue};
use lt_bytes::{Number, read_decimal};
use std::env;

const BYTES: [u8; BUFFER_SIZE] = [b'x'; BUFFER_SIZE];

/// The sum of the bytes that were offered, or of those before memory ran out.
fn rounds<Q: Queue>(store: &mut Q::Owner, times: u64, size: usize) -> u64
    requires held { HeldWithin (Q.stored store.old) 0 }
    requires most { size ≤ BUFFER_SIZE }
{
    let mut queue = Q::new();
    let mut sum = 0u64;
    for _ in 0..times {
        if queue.len() > 0 || queue.push_bytes(store, &BYTES[..size]).is_err() {
            break;
        }
        let n = queue.front_bytes().len();
        sum = sum.wrapping_add(n as u64);
        queue.advance(store, n);
    }
    queue.close(store);
    sum
}

fn copies(times: u64, size: usize) -> u64
    requires { size ≤ BUFFER_SIZE }
{
    let mut buffer = [0u8; BUFFER_SIZE];
    let mut sum = 0u64;
    for round in 0..times {
        buffer[..size].copy_from_slice(&BYTES[..size]);
        sum = sum.wrapping_add(buffer[(round % 64) as usize] as u64);
    }
    sum
}

fn count(word: Option<String>) -> Result<u64> {
    match word {
        Some(word) => match read_decimal(word.as_bytes()) {
            Number::Value(n) => Ok(n),
            Number::NotANumber | Number::Overflow => bail!("{word} is no number"),
        },
        None => bail!("usage: bench_queues PLAIN POOLED COPIES SIZE"),
    }
}

fn main(rt: HostRuntime) -> Result<()> {
    let mut words = env::args(&rt)?;
    let _program = words.next();
    let plain = count(words.next())?;
    let pooled = count(words.next())?;
    let copied = count(words.next())?;
    let size = count(words.next())?.min(BUFFER_SIZE as u64) as usize;
    let mut store = PlainStore::new(rt.alloc());
    let first = rounds::<PlainQueue>(&mut store, plain, size);
    store.close();
    let mut pool = Pool::new(rt.alloc());
    let second = rounds::<ChunkQueue>(&mut pool, pooled, size);
    pool.close();
    let third = copies(copied, size);
    println!(rt; "{first} {second} {third}")?;
    Ok(())
}
