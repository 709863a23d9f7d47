//! The bytes that pieces spell: `"BYTES"`, a name, or either of them after `N*`, N times one after another.
use crate::bytes::{first_word, number};
use anyhow::{Result, bail};
use lt_bytes::{Text, trim};
use std::alloc::Global;

/// A text that rows name.
#[derive(Drop)]
pub struct Named<'t> {
    pub name: &'t [u8],
    pub bytes: Text,
}

/// The bytes of the text that got this name last.
pub fn bytes_named<'n>(names: &'n [Named<'_>], name: &[u8]) -> Option<&'n [u8]> {
    for text in names.iter().rev() {
        if text.name == name {
            return Some(text.bytes.bytes());
        }
    }
    None
}

/// The bytes of these pieces, one after another.
pub fn bytes_of(alloc: Global, names: &[Named<'_>], pieces: &[u8]) -> Result<Text> {
    let mut text = Text::new(alloc);
    let mut rest = trim(pieces);
    for _ in pieces {
        if rest.is_empty() {
            break;
        }
        rest = trim(push_piece(alloc, names, &mut text, rest)?);
    }
    Ok(text)
}

// Adds the first piece, and answers what follows it.
fn push_piece<'p>(
    alloc: Global,
    names: &[Named<'_>],
    text: &mut Text,
    pieces: &'p [u8],
) -> Result<&'p [u8]> {
    let (times, pieces) = times_of(pieces);
    let [b'"', spelled @ ..] = pieces else {
        let (name, rest) = first_word(pieces);
        let Some(bytes) = bytes_named(names, name) else {
            bail!("no such text");
        };
        push_times(text, times, bytes)?;
        return Ok(rest);
    };
    let (piece, rest) = unquoted(alloc, spelled)?;
    push_times(text, times, piece.bytes())?;
    Ok(rest)
}

fn push_times(text: &mut Text, times: u64, bytes: &[u8]) -> Result<()> {
    for _ in 0..times {
        text.push_all(bytes)?;
    }
    Ok(())
}

// How many times a piece stands, and the piece with what follows it.
fn times_of(pieces: &[u8]) -> (u64, &[u8]) {
    let mut sides = pieces.splitn(2, |byte| *byte == b'*');
    let (Some(digits), Some(rest)) = (sides.next(), sides.next()) else {
        return (1, pieces);
    };
    match number(digits) {
        Some(times) => (times, rest),
        None => (1, pieces),
    }
}

/// Where the reader stands in the spelling of a byte.
#[derive(Clone, Copy)]
enum Spelling {
    Plain,
    /// After a backslash.
    Escape,
    /// After `\x`.
    High,
    /// After `\x` and its first digit, which has this value.
    Low(u8),
}

// The bytes up to the closing quotation mark, and what follows it.
fn unquoted(alloc: Global, spelled: &[u8]) -> Result<(Text, &[u8])> {
    let mut text = Text::new(alloc);
    let mut spelling = Spelling::Plain;
    for (at, byte) in spelled.iter().enumerate() {
        spelling = match (spelling, *byte) {
            (Spelling::Plain, b'"') => return Ok((text, &spelled[at + 1..])),
            (Spelling::Plain, b'\\') => Spelling::Escape,
            (Spelling::Plain, byte) => {
                text.push(byte)?;
                Spelling::Plain
            }
            (Spelling::Escape, b'x') => Spelling::High,
            (Spelling::Escape, sign) => {
                text.push(escaped(sign))?;
                Spelling::Plain
            }
            (Spelling::High, digit) => Spelling::Low(hex_value(digit)),
            (Spelling::Low(high), digit) => {
                text.push(high.wrapping_mul(16).wrapping_add(hex_value(digit)))?;
                Spelling::Plain
            }
        };
    }
    bail!("no closing quotation mark")
}

// The byte that a sign after a backslash stands for.
fn escaped(sign: u8) -> u8 {
    match sign {
        b'r' => b'\r',
        b'n' => b'\n',
        _ => sign,
    }
}

fn hex_value(digit: u8) -> u8 {
    match digit {
        b'0'..=b'9' => digit - b'0',
        b'a'..=b'f' => digit - b'a' + 10,
        _ => 0,
    }
}
