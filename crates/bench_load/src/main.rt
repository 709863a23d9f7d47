//! A benchmark: loads a configuration of so many media types, so many times as the arguments say, and prints the number
//! of media types that were loaded, all added up. `bench/load.py` runs it and measures from outside.
#![tactic(auto)]

ghost use Rattle.settings.specs.InForm.{IsInForm};

use anyhow::{Result, bail};
use conditions::RegexMaker;
use conf_eval::load;
use conf_value::Config;
use lt_bytes::{NoMemory, Number, Text, decimal, read_decimal};
use lt_world::MemTexts;
use settings::global_settings;
use std::alloc::Global;
use std::env;

/// The name of the text.
const NAME: &[u8] = b"lighttpd.conf";

/// A text that sets the document root and so many media types, each of another suffix.
fn text_of(alloc: Global, types: u64) -> Result<Text, NoMemory> {
    let mut text = Text::new(alloc);
    text.push_all(b"server.document-root = \"/srv\"\nmimetype.assign = (\n")?;
    for number in 0..types {
        text.push_all(b"  \".")?;
        text.push_all(decimal(number).bytes())?;
        text.push_all(b"\" => \"application/octet-stream\",\n")?;
    }
    text.push_all(b")\n")?;
    Ok(text)
}

/// The texts of such a configuration.
fn texts_of(alloc: Global, types: u64) -> Result<MemTexts, NoMemory> {
    let mut texts = MemTexts::new(alloc);
    texts.add(NAME, text_of(alloc, types)?.bytes())?;
    Ok(texts)
}

/// How many media types a configuration sets in its global block.
fn size(config: &Config) -> u64
    requires form { IsInForm config.now }
{
    global_settings(config).mimetype_assign.len() as u64
}

/// How many media types are loaded, or of a refusal nothing.
fn loaded(alloc: Global, texts: &mut MemTexts) -> u64 {
    match load(alloc, NAME, texts, &mut RegexMaker::new(alloc)) {
        Ok(loaded) => size(&loaded.config),
        Err(_) => 0,
    }
}

fn count(word: Option<String>) -> Result<u64> {
    match word {
        Some(word) => match read_decimal(word.as_bytes()) {
            Number::Value(n) => Ok(n),
            Number::NotANumber | Number::Overflow => bail!("{word} is no number"),
        },
        None => bail!("usage: bench_load TYPES TIMES"),
    }
}

fn main(rt: HostRuntime) -> Result<()> {
    let mut words = env::args(&rt)?;
    let _program = words.next();
    let types = count(words.next())?;
    let times = count(words.next())?;
    let mut texts = texts_of(rt.alloc(), types)?;
    let mut sum: u64 = 0;
    for _ in 0..times {
        sum = sum.wrapping_add(loaded(rt.alloc(), &mut texts));
    }
    println!(rt; "{sum}")?;
    Ok(())
}
