//! The line that words are.
ghost use Rattle.std.specs.Prelude.{◌≡◌, ◌≤◌, Some, None, option_map, IfOk, IfSome, Err, map, string_bytes};
ghost use Rattle.clap.specs.Words.{rows_of, found_of, first_of};
ghost use Rattle.command_words.specs.Lines.{is_set, line_by, option_line, replay_line, bench_line, clients_in, option_words, replay_words, bench_words, line_of};
ghost use Rattle.command_words.specs.Lent.{lent, HasFewClients};
ghost use Rattle.lt_bytes.specs.Numbers.{number_of};

use crate::commands::{bench, options, replay};
use clap::ArgMatches;
use clap::error::ErrorKind;
use lt_bytes::{Number, read_decimal};
use std::alloc::Global;

/// The most clients of a benchmark run.
pub const MAX_CLIENTS: u64 = 10_000;

/// A line of the program, with the names of its texts. `-D` changes nothing.
#[derive(Clone, Copy, Debug, PartialEq, Eq)]
pub enum Line<'a> {
    /// `-f CONF`: clients are served.
    Serve { conf: &'a str },
    /// `-t -f CONF`: the configuration is checked.
    Check { conf: &'a str },
    /// `-p -f CONF`: the configuration is printed.
    Print { conf: &'a str },
    /// `replay -f CONF SCRIPT`: the script is played.
    Replay { conf: &'a str, script: &'a str },
    /// `bench NUMBER`: so many clients are served, 1 to `MAX_CLIENTS`.
    Bench { clients: u64 },
}

/// Why words give no line.
#[derive(Clone, Copy, Debug, PartialEq, Eq)]
pub enum WordsError {
    /// They are no line of the program.
    Usage,
    NoMemory,
}

/// The line that the words are, without the program's name.
#[tactic(auto, unfolding(crate::specs::Lines::line_of))]
pub fn read_line<'a>(alloc: Global, words: &'a [String]) -> Result<Line<'a>, WordsError>
    ensures line { IfOk result (λ line. line_of (map string_bytes words.now) ≡ Some (lent line)) }
    ensures usage { result ≡ Err WordsError.Usage → line_of (map string_bytes words.now) ≡ None }
    ensures clients { IfOk result HasFewClients }
{
    match words {
        [word, rest @ ..] if word.as_str() == "replay" => read_replay(alloc, rest),
        [word, rest @ ..] if word.as_str() == "bench" => read_bench(alloc, rest),
        _ => read_options(alloc, words),
    }
}

fn read_options<'a>(alloc: Global, words: &'a [String]) -> Result<Line<'a>, WordsError>
    ensures line { IfOk result (λ line. option_words (map string_bytes words.now) ≡ Some (lent line)) }
    ensures usage { result ≡ Err WordsError.Usage → option_words (map string_bytes words.now) ≡ None }
    ensures clients { IfOk result HasFewClients }
{
    let Ok(command) = options(alloc) else {
        return Err(WordsError::NoMemory);
    };
    match command.try_get_matches_from(words) {
        Ok(matches) => match option_line(&matches) {
            Some(line) => Ok(line),
            None => Err(WordsError::Usage),
        },
        Err(error) => match error.kind() {
            ErrorKind::OutOfMemory => Err(WordsError::NoMemory),
            _ => Err(WordsError::Usage),
        },
    }
}

fn read_replay<'a>(alloc: Global, words: &'a [String]) -> Result<Line<'a>, WordsError>
    ensures line { IfOk result (λ line. replay_words (map string_bytes words.now) ≡ Some (lent line)) }
    ensures usage { result ≡ Err WordsError.Usage → replay_words (map string_bytes words.now) ≡ None }
    ensures clients { IfOk result HasFewClients }
{
    let Ok(command) = replay(alloc) else {
        return Err(WordsError::NoMemory);
    };
    match command.try_get_matches_from(words) {
        Ok(matches) => match replay_line(&matches) {
            Some(line) => Ok(line),
            None => Err(WordsError::Usage),
        },
        Err(error) => match error.kind() {
            ErrorKind::OutOfMemory => Err(WordsError::NoMemory),
            _ => Err(WordsError::Usage),
        },
    }
}

fn read_bench<'a>(alloc: Global, words: &'a [String]) -> Result<Line<'a>, WordsError>
    ensures line { IfOk result (λ line. bench_words (map string_bytes words.now) ≡ Some (lent line)) }
    ensures usage { result ≡ Err WordsError.Usage → bench_words (map string_bytes words.now) ≡ None }
    ensures clients { IfOk result HasFewClients }
{
    let Ok(command) = bench(alloc) else {
        return Err(WordsError::NoMemory);
    };
    match command.try_get_matches_from(words) {
        Ok(matches) => match bench_line(&matches) {
            Some(line) => Ok(line),
            None => Err(WordsError::Usage),
        },
        Err(error) => match error.kind() {
            ErrorKind::OutOfMemory => Err(WordsError::NoMemory),
            _ => Err(WordsError::Usage),
        },
    }
}

fn option_line<'a>(matches: &ArgMatches<'a>) -> Option<Line<'a>>
    ensures line { option_map lent result ≡ option_line (rows_of (found_of matches.now)) }
    ensures clients { IfSome result HasFewClients }
{
    let test = is_set(matches, "test");
    let print = is_set(matches, "print");
    match text_of(matches, "conf") {
        Some(conf) => line_by(test, print, conf),
        None => None,
    }
}

// A configuration is either checked or printed, or served by.
fn line_by<'a>(test: bool, print: bool, conf: &'a str) -> Option<Line<'a>>
    ensures line { option_map lent result ≡ line_by test print conf.now }
    ensures clients { IfSome result HasFewClients }
{
    if test && print {
        return None;
    }
    if test {
        return Some(Line::Check { conf });
    }
    if print {
        return Some(Line::Print { conf });
    }
    Some(Line::Serve { conf })
}

fn replay_line<'a>(matches: &ArgMatches<'a>) -> Option<Line<'a>>
    ensures line { option_map lent result ≡ replay_line (rows_of (found_of matches.now)) }
    ensures clients { IfSome result HasFewClients }
{
    let conf = text_of(matches, "conf")?;
    let script = text_of(matches, "script")?;
    Some(Line::Replay { conf, script })
}

fn bench_line<'a>(matches: &ArgMatches<'a>) -> Option<Line<'a>>
    ensures line { option_map lent result ≡ bench_line (rows_of (found_of matches.now)) }
    ensures clients { IfSome result HasFewClients }
{
    let digits = text_of(matches, "number")?;
    let clients = clients_in(read_decimal(digits.as_bytes()))?;
    Some(Line::Bench { clients })
}

fn clients_in(number: Number) -> Option<u64>
    ensures clients { result ≡ clients_in number }
    ensures least { IfSome result (λ clients. 1 ≤ clients) }
    ensures most { IfSome result (λ clients. clients ≤ MAX_CLIENTS) }
{
    match number {
        Number::Value(clients) if 1 <= clients && clients <= MAX_CLIENTS => Some(clients),
        _ => None,
    }
}

fn text_of<'a>(matches: &ArgMatches<'a>, id: &str) -> Option<&'a str>
    ensures { option_map (λ s. s.now) result ≡ first_of id.now (rows_of (found_of matches.now)) }
{
    matches.get_str(id)
}

fn is_set(matches: &ArgMatches<'_>, id: &str) -> bool
    ensures { result ≡ is_set id.now (rows_of (found_of matches.now)) }
{
    match text_of(matches, id) {
        Some(text) => text == "true",
        None => false,
    }
}
