//! A benchmark: reads the head of a browser's request, makes the normal form of a path of 1,000 bytes, and looks for the end of
//! a head that comes byte by byte, each so many times as an argument says, and prints a sum of what came out.
//! `bench/heads.py` runs it and measures from outside.
#![tactic(auto)]

ghost use Rattle.std.specs.Prelude.{length};
ghost use Rattle.buffer_pool.specs.Kept.{HeldWithin};

use anyhow::{Result, bail};
use chunkqueue::Store;
use connection::{Conn, Stage};
use http_head::{HEAD_LIMIT, read_head};
use http_target::normal;
use lt_bytes::{NoMemory, Number, Text, read_decimal};
use lt_world::{Address, Link};
use std::alloc::Global;
use std::env;

const HEAD: &[u8] = b"GET /index.html HTTP/1.1\r\n\
Host: www.example.org\r\n\
User-Agent: Mozilla/5.0 (X11; Linux x86_64)\r\n\
Accept: text/html,*/*;q=0.8\r\n\
Accept-Language: en\r\n\
Accept-Encoding: gzip, deflate\r\n\
Connection: keep-alive\r\n\
Upgrade-Insecure-Requests: 1\r\n\
Sec-Fetch-Dest: document\r\n\
Sec-Fetch-Mode: navigate\r\n\
Sec-Fetch-Site: none\r\n\
Cache-Control: max-age=0\r\n\
Cookie: a=1; b=2\r\n\
\r\n";

/// 20 bytes of a path, with a segment that is dropped and one that is taken back.
const PIECE: &[u8] = b"/abcdefgh/./ijkl/../";

const PIECES: u64 = 50;

fn path(alloc: Global) -> Result<Text, NoMemory> {
    let mut path = Text::new(alloc);
    for _ in 0..PIECES {
        path.push_all(PIECE)?;
    }
    Ok(path)
}

/// The sum of the lengths of the paths, or of a refusal nothing.
fn read_heads(alloc: Global, count: u64) -> u64 {
    let mut sum: u64 = 0;
    for _ in 0..count {
        if let Ok(request) = read_head(alloc, HEAD) {
            sum = sum.wrapping_add(request.target.path.len() as u64);
        }
    }
    sum
}

fn make_normal_forms(alloc: Global, count: u64, path: &[u8]) -> u64 {
    let mut sum: u64 = 0;
    for _ in 0..count {
        if let Ok(text) = normal(alloc, path) {
            sum = sum.wrapping_add(text.len() as u64);
        }
    }
    sum
}

const PLACE: Address = Address {
    ip: [127, 0, 0, 1],
    port: 80,
};

/// A byte comes and is looked at. Counts where more bytes are waited for.
fn comes(conn: &mut Conn, store: &mut Store, byte: u8) -> u64
    requires { HeldWithin store.old (length conn.old.numbers) }
    ensures { HeldWithin store.new (length conn.new.numbers) }
{
    if conn.room() == 0 || conn.got(store, &[byte]).is_err() {
        return 0;
    }
    match conn.advance(store) {
        Ok(Stage::Waiting) => 1,
        _ => 0,
    }
}

/// A head of one line comes byte by byte, up to the byte before the greatest length. Counts the bytes.
fn look_at_slow_head(alloc: Global) -> u64 {
    let mut store = Store::new(alloc);
    let mut conn = Conn::new(alloc, Link(0), PLACE, PLACE);
    let mut sum: u64 = 0;
    for _ in 1..HEAD_LIMIT {
        sum = sum.wrapping_add(comes(&mut conn, &mut store, b'a'));
    }
    conn.close(&mut store);
    store.close();
    sum
}

fn look_at_slow_heads(alloc: Global, count: u64) -> u64 {
    let mut sum: u64 = 0;
    for _ in 0..count {
        sum = sum.wrapping_add(look_at_slow_head(alloc));
    }
    sum
}

fn count(word: Option<String>) -> Result<u64> {
    match word {
        Some(word) => match read_decimal(word.as_bytes()) {
            Number::Value(n) => Ok(n),
            Number::NotANumber | Number::Overflow => bail!("{word} is no number"),
        },
        None => bail!("usage: bench_heads HEADS PATHS SLOW"),
    }
}

fn main(rt: HostRuntime) -> Result<()> {
    let mut words = env::args(&rt)?;
    let _program = words.next();
    let heads = count(words.next())?;
    let paths = count(words.next())?;
    let slow = count(words.next())?;
    let path = path(rt.alloc())?;
    let read = read_heads(rt.alloc(), heads);
    let made = make_normal_forms(rt.alloc(), paths, path.bytes());
    let looked = look_at_slow_heads(rt.alloc(), slow);
    let sum = read.wrapping_add(made).wrapping_add(looked);
    println!(rt; "{sum}")?;
    Ok(())
}
