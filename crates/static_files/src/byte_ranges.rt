//! The bytes that a Range field asks for.
ghost use Rattle.std.specs.Prelude.{◌≡◌, ◌<◌, IfSome, length, position};
ghost use Rattle.static_files.specs.Ranges.{is_dash, position_of, from_on, between, suffix, range_by, ranges};

use lt_bytes::{Number, read_decimal};

/// What is sent of a file.
#[derive(Clone, Copy, Debug, PartialEq, Eq)]
pub enum Range {
    /// All of it: the field asks for no range that counts.
    Whole,
    /// So many bytes, one or more, from `start` on.
    Part { start: u64, len: u64 },
    /// None: no byte of the file is in the range.
    Unsatisfiable,
}

/// What a value begins with that asks for bytes.
const UNIT: &[u8] = b"bytes=";

/// A position of more digits is ignored, since no file is so long.
const MOST_DIGITS: usize = 18;

/// Where the first dash stands.
fn dash(set: &[u8]) -> Option<usize>
    ensures value { result ≡ position is_dash set.now }
    ensures within { IfSome result (λ at. at < length set.now) }
{
    set.iter().position(|b| *b == b'-')
}

fn position_of(digits: &[u8]) -> Option<u64>
    ensures { result ≡ position_of digits.now }
{
    if digits.len() > MOST_DIGITS {
        return None;
    }
    match read_decimal(digits) {
        Number::Value(position) => Some(position),
        Number::NotANumber => None,
        Number::Overflow => None,
    }
}

/// From a position on.
fn from_on(first: u64, size: u64) -> Range
    ensures { result ≡ from_on first size }
{
    if first >= size {
        return Range::Unsatisfiable;
    }
    Range::Part {
        start: first,
        len: size - first,
    }
}

/// From a position up to another, which is cut to the last byte.
fn between(first: u64, last: u64, size: u64) -> Range
    ensures { result ≡ between first last size }
{
    if last < first {
        return Range::Whole;
    }
    if first >= size {
        return Range::Unsatisfiable;
    }
    Range::Part {
        start: first,
        len: last.min(size - 1) - first + 1,
    }
}

/// The last bytes.
fn suffix(count: u64, size: u64) -> Range
    ensures { result ≡ suffix count size }
{
    if count == 0 {
        return Range::Unsatisfiable;
    }
    if size == 0 {
        return Range::Whole;
    }
    let len = count.min(size);
    Range::Part {
        start: size - len,
        len,
    }
}

/// By what stands before and behind the dash.
fn range_by(first: &[u8], last: &[u8], size: u64) -> Range
    ensures { result ≡ range_by first.now last.now size }
{
    if first.is_empty() {
        return match position_of(last) {
            Some(count) => suffix(count, size),
            None => Range::Whole,
        };
    }
    let Some(start) = position_of(first) else {
        return Range::Whole;
    };
    if last.is_empty() {
        return from_on(start, size);
    }
    match position_of(last) {
        Some(end) => between(start, end, size),
        None => Range::Whole,
    }
}

/// The bytes that the value of a Range field asks for, of a file of `size` bytes. Whether the field counts at all, as
/// for GET alone, is the caller's.
pub fn ranges(value: &[u8], size: u64) -> Range
    ensures { result ≡ ranges value.now size }
{
    if !value.starts_with(UNIT) {
        return Range::Whole;
    }
    let set = &value[UNIT.len()..];
    match dash(set) {
        Some(at) => range_by(&set[..at], &set[at + 1..], size),
        None => Range::Whole,
    }
}
