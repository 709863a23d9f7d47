//! A benchmark: makes a table of so many media types and asks for the types of paths many times, by a look at all of
//! them or by the index, and prints a sum over what they say. `bench/static.py` runs it and measures from outside.
#![tactic(auto)]

use anyhow::{Result, bail};
use conf_value::{Pair, Value};
use lt_bytes::{List, NoMemory, Number, Text, read_decimal};
use static_files::{TypeIndex, mime};
use std::alloc::Global;
use std::env;

/// The first ten keys of every table; the others are a dot and three digits.
const KEYS: [&[u8]; 10] = [
    b".html", b".css", b".js", b".png", b".jpg", b".svg", b".txt", b".tar.gz", b".gz", b".woff2",
];

/// Paths that end in some of these, and one whose type isn't known.
const PATHS: [&[u8]; 4] = [
    b"/index.html",
    b"/assets/fonts/text.woff2",
    b"/downloads/archive-1.4.tar.gz",
    b"/about",
];

fn pair(alloc: Global, key: &[u8], value: &[u8]) -> Result<Pair, NoMemory> {
    Ok(Pair {
        key: Some(Text::from_bytes(alloc, key)?),
        value: Value::Text(Text::from_bytes(alloc, value)?),
    })
}

fn digit(number: u64) -> u8 {
    b'0' + (number % 10) as u8
}

fn table(alloc: Global, count: u64) -> Result<List<Pair>, NoMemory> {
    let mut types = List::new(alloc);
    for key in KEYS {
        types.push(pair(alloc, key, b"text/plain")?)?;
    }
    for number in 10..count {
        let key = [b'.', digit(number / 100), digit(number / 10), digit(number)];
        types.push(pair(alloc, &key, b"application/x-other")?)?;
    }
    Ok(types)
}

/// The sum of the lengths of what a look at all types says, so many times for each path.
fn scanned(types: &[Pair], times: u64) -> u64 {
    let mut sum = 0u64;
    for _ in 0..times {
        for path in PATHS {
            sum = sum
                .wrapping_mul(3)
                .wrapping_add(mime(types, path).len() as u64);
        }
    }
    sum
}

/// The same by the index.
fn found(index: &TypeIndex<'_>, times: u64) -> u64 {
    let mut sum = 0u64;
    for _ in 0..times {
        for path in PATHS {
            sum = sum
                .wrapping_mul(3)
                .wrapping_add(index.mime(path).len() as u64);
        }
    }
    sum
}

fn run(alloc: Global, count: u64, scans: u64, finds: u64) -> Result<u64, NoMemory> {
    let types = table(alloc, count)?;
    let index = TypeIndex::new(alloc, types.as_slice())?;
    Ok(scanned(types.as_slice(), scans).wrapping_add(found(&index, finds)))
}

fn number(word: Option<String>) -> Result<u64> {
    let Some(word) = word else {
        bail!("usage: bench_static TYPES SCANS FINDS");
    };
    match read_decimal(word.as_bytes()) {
        Number::Value(number) => Ok(number),
        Number::NotANumber | Number::Overflow => bail!("no number: {word}"),
    }
}

fn main(rt: HostRuntime) -> Result<()> {
    let mut words = env::args(&rt)?;
    let _program = words.next();
    let types = number(words.next())?;
    let scans = number(words.next())?;
    let finds = number(words.next())?;
    let Ok(sum) = run(rt.alloc(), types, scans, finds) else {
        bail!("no memory");
    };
    println!(rt; "{sum}")?;
    Ok(())
}
