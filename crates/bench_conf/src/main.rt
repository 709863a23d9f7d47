//! A benchmark: lexes, parses and prints a configuration text of so many bytes, so many times as the
//! arguments say, and prints a sum of what came out. `bench/configuration.py` runs it and measures
//! from outside.
#![tactic(auto)]

use anyhow::{Result, bail};
use conf_lex::lex;
use conf_parse::{parse, print};
use lt_bytes::{NoMemory, Number, Text, read_decimal};
use std::alloc::Global;
use std::env;

/// A virtual host, 261 bytes.
const HOST: &[u8] = b"$HTTP[\"host\"] == \"www.example.org\" {
  server.document-root = \"/srv/www\" # the files
  mimetype.assign += ( \".html\" => \"text/html\", \".txt\" => text + \"/plain\", )
}
else $HTTP[\"url\"] =~ \"\\.php$\" {
  server.max-request-size = 1024
} else { index-file.names = () }
";

/// A text of so many bytes: hosts, and a comment to its end.
fn text_of(alloc: Global, size: u64) -> Result<Text, NoMemory> {
    let mut text = Text::new(alloc);
    for _ in 0..size / HOST.len() as u64 {
        text.push_all(HOST)?;
    }
    for _ in 0..size % HOST.len() as u64 {
        text.push(b'#')?;
    }
    Ok(text)
}

/// The number of tokens and printed bytes, or of a refusal nothing.
fn read_and_print(alloc: Global, text: &[u8]) -> u64 {
    let Ok(tokens) = lex(alloc, text) else {
        return 0;
    };
    let Ok(tree) = parse(alloc, &tokens) else {
        return 0;
    };
    match print(alloc, &tree) {
        Ok(form) => (tokens.len() as u64).wrapping_add(form.len() as u64),
        Err(_) => 0,
    }
}

fn count(word: Option<String>) -> Result<u64> {
    match word {
        Some(word) => match read_decimal(word.as_bytes()) {
            Number::Value(n) => Ok(n),
            Number::NotANumber | Number::Overflow => bail!("{word} is no number"),
        },
        None => bail!("usage: bench_conf BYTES TIMES"),
    }
}

fn main(rt: HostRuntime) -> Result<()> {
    let mut words = env::args(&rt)?;
    let _program = words.next();
    let size = count(words.next())?;
    let times = count(words.next())?;
    let text = text_of(rt.alloc(), size)?;
    let mut sum: u64 = 0;
    for _ in 0..times {
        sum = sum.wrapping_add(read_and_print(rt.alloc(), text.bytes()));
    }
    println!(rt; "{sum}")?;
    Ok(())
}
