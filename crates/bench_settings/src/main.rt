//! A benchmark: makes a configuration of some blocks, takes its settings many times, those of the global block alone or those of
//! all blocks by the index, and prints a sum over what they say. `bench/settings.py` runs it and measures from outside.
#![tactic(auto)]

use anyhow::{Result, bail};
use conf_value::{Block, Config, Pair, Setting, Truth, Value};
use lt_bytes::{List, NoMemory, Number, Text, read_decimal};
use settings::{Settings, global_settings, has_few_lists, index_of, used_by};
use std::alloc::Global;
use std::env;

/// What each block sets, beside variables and keys without a type.
const KEYS: [&[u8]; 8] = [
    b"server.document-root",
    b"server.name",
    b"server.tag",
    b"server.errorlog",
    b"dir-listing.activate",
    b"accesslog.filename",
    b"setenv.add-response-header",
    b"var.base",
];

/// Blocks of a configuration, at most.
const MOST_BLOCKS: usize = 1_025;

fn setting(alloc: Global, key: &[u8], value: Value) -> Result<Setting, NoMemory> {
    Ok(Setting {
        key: Text::from_bytes(alloc, key)?,
        value,
        first_pattern: 0,
    })
}

/// An array of so many media types.
fn types(alloc: Global, count: u64) -> Result<Value, NoMemory> {
    let mut pairs = List::new(alloc);
    for _ in 0..count {
        pairs.push(Pair {
            key: Some(Text::from_bytes(alloc, b".html")?),
            value: Value::Text(Text::from_bytes(alloc, b"text/html")?),
        })?;
    }
    Ok(Value::Array(pairs))
}

fn block(alloc: Global) -> Result<Block, NoMemory> {
    let mut settings = List::new(alloc);
    for key in KEYS {
        let value = Value::Text(Text::from_bytes(alloc, b"/srv/www/")?);
        settings.push(setting(alloc, key, value)?)?;
    }
    Ok(Block {
        parent: 0,
        chain: None,
        condition: None,
        settings,
    })
}

/// A configuration of so many blocks, the first of which sets so many media types.
fn configuration(alloc: Global, blocks: u64, count: u64) -> Result<Config, NoMemory> {
    let mut all = List::new(alloc);
    let mut global = block(alloc)?;
    global
        .settings
        .push(setting(alloc, b"mimetype.assign", types(alloc, count)?)?)?;
    all.push(global)?;
    for _ in 1..blocks {
        all.push(block(alloc)?)?;
    }
    Ok(Config {
        blocks: all,
        warnings: List::new(alloc),
    })
}

fn truths(alloc: Global, count: usize) -> Result<List<Truth>, NoMemory> {
    let mut truths = List::new(alloc);
    for _ in 0..count {
        truths.push(Truth::True)?;
    }
    Ok(truths)
}

/// What settings say, as a number.
fn size(settings: &Settings<'_>) -> u64 {
    (settings.server_document_root.len() as u64)
        .wrapping_add(settings.server_tag.len() as u64)
        .wrapping_add(settings.mimetype_assign.len() as u64)
        .wrapping_add(settings.server_max_request_size)
}

/// The sum of what is said by the settings of the global block, so many times.
fn scanned(config: &Config, times: u64) -> u64 {
    let mut sum = 0u64;
    if has_few_lists(config) {
        for _ in 0..times {
            sum = sum
                .wrapping_mul(3)
                .wrapping_add(size(&global_settings(config)));
        }
    }
    sum
}

/// The same of the settings of all blocks, by the index.
fn found(alloc: Global, config: &Config, truths: &[Truth], times: u64) -> Result<u64, NoMemory> {
    if MOST_BLOCKS < config.blocks.len() || !has_few_lists(config) {
        return Ok(0);
    }
    let index = index_of(alloc, config)?;
    let mut sum = 0u64;
    for _ in 0..times {
        sum = sum
            .wrapping_mul(3)
            .wrapping_add(size(&used_by(config, &index, truths)));
    }
    Ok(sum)
}

fn run(alloc: Global, numbers: [u64; 4]) -> Result<u64, NoMemory> {
    let [blocks, types, scans, finds] = numbers;
    let config = configuration(alloc, blocks, types)?;
    let truths = truths(alloc, config.blocks.len())?;
    let scanned = scanned(&config, scans);
    let found = found(alloc, &config, truths.as_slice(), finds)?;
    Ok(scanned.wrapping_add(found))
}

fn number(word: Option<String>) -> Result<u64> {
    let Some(word) = word else {
        bail!("usage: bench_settings BLOCKS TYPES SCANS FINDS");
    };
    match read_decimal(word.as_bytes()) {
        Number::Value(number) => Ok(number),
        Number::NotANumber | Number::Overflow => bail!("no number: {word}"),
    }
}

fn main(rt: HostRuntime) -> Result<()> {
    let mut words = env::args(&rt)?;
    let _program = words.next();
    let blocks = number(words.next())?;
    let types = number(words.next())?;
    let scans = number(words.next())?;
    let finds = number(words.next())?;
    let Ok(sum) = run(rt.alloc(), [blocks, types, scans, finds]) else {
        bail!("no memory");
    };
    println!(rt; "{sum}")?;
    Ok(())
}
