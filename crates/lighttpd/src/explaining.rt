//! What people are told of a status at a terminal: the text, the line and what is wrong there, in words.
use crate::named_texts::NamedTexts;
use conf_eval::MAX_TEXTS;
use lt_bytes::{Text, trim};
use lt_commands::{Explanation, Status};
use lt_world::{Fetched, Texts};
use std::os::unix::fs::FileTypeExt;
use std::{fs, rt};

/// Whether standard error is a device for characters, as a terminal is.
pub fn is_at_terminal<R: rt::Files>(rt: &R) -> bool {
    match fs::metadata(rt, "/dev/stderr") {
        Ok(metadata) => metadata.file_type().is_char_device(),
        Err(_) => false,
    }
}

/// Says on standard error, in a line of its own, what the status means. The text at fault is fetched once more for the
/// word that its line begins with.
pub fn explain<R: Eprint, X: Texts + Drop>(rt: &R, texts: NamedTexts<X>, status: Status) {
    if status == Status::Done {
        return;
    }
    let Some((mut texts, name)) = texts.into_place(status) else {
        return;
    };
    let text = match status {
        Status::Conf(_) => texts.fetch(name.bytes(), MAX_TEXTS),
        _ => Fetched::Missing,
    };
    let subject = match (&text, status) {
        (Fetched::Text(text), Status::Conf(fault)) => subject_at(text.bytes(), fault.line),
        _ => "this",
    };
    let Ok(name) = str::from_utf8(name.bytes()) else {
        return;
    };
    let explanation = Explanation {
        status,
        name,
        subject,
    };
    // Where standard error takes nothing, the number tells it alone.
    let _ = eprintln!(rt; "{explanation}");
}

// The word with which a line begins, the first one being line 1; `this line` where it begins with none.
fn subject_at(text: &[u8], line: u32) -> &str {
    let mut lines = text.split(|byte| *byte == b'\n');
    let mut found = b"".as_slice();
    for _ in 0..line {
        found = lines.next().unwrap_or(b"");
    }
    let found = trim(found);
    let end = found.iter().position(|byte| !is_word_byte(*byte));
    let (word, _) = found.split_at(end.unwrap_or(found.len()));
    match str::from_utf8(word) {
        Ok(word) if !word.is_empty() => word,
        _ => "this line",
    }
}

fn is_word_byte(byte: u8) -> bool {
    byte.is_ascii_alphanumeric() || matches!(byte, b'.' | b'-' | b'_')
}
