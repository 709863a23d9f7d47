//! Bytes as lines and words, and quoted.
use lt_bytes::{NoMemory, Number, Text, decimal, quoted, read_decimal};

/// The bytes up to the first space, and those after it.
pub fn first_word(line: &[u8]) -> (&[u8], &[u8]) {
    for (at, byte) in line.iter().enumerate() {
        if *byte == b' ' {
            return (&line[..at], &line[at + 1..]);
        }
    }
    (line, &[])
}

/// The number that these digits write.
pub fn number(digits: &[u8]) -> Option<u64> {
    match read_decimal(digits) {
        Number::Value(value) => Some(value),
        Number::NotANumber | Number::Overflow => None,
    }
}

pub fn push_number(text: &mut Text, number: u64) -> Result<(), NoMemory> {
    text.push_all(decimal(number).bytes())
}

/// Adds bytes as a script and a report spell them, between quotation marks.
pub fn push_quoted(text: &mut Text, bytes: &[u8]) -> Result<(), NoMemory> {
    text.push(b'"')?;
    for byte in bytes {
        text.push_all(quoted(*byte).bytes())?;
    }
    text.push(b'"')
}

/// Whether the output is what is wanted: line for line the same, where a wanted line that ends in `..` stands for all
/// that begin with what is before.
pub fn is_wanted(wanted: &[u8], output: &[u8]) -> bool {
    let mut lines = output.split(|byte| *byte == b'\n');
    for wanted in wanted.split(|byte| *byte == b'\n') {
        let Some(line) = lines.next() else {
            return false;
        };
        let is_same = match wanted.strip_suffix(b"..") {
            Some(front) => line.starts_with(front),
            None => line == wanted,
        };
        if !is_same {
            return false;
        }
    }
    lines.next().is_none()
}
