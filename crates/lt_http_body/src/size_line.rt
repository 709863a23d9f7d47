//! The size line of a chunk (RFC 9112, section 7.1).
ghost use Rattle.std.specs.Prelude.{◌≡◌, ◌<◌, ◌≤◌, ◌^◌};
ghost use Rattle.lt_http_body.specs.Lines.{after_size, after_extension};
ghost use Rattle.lt_http_body.specs.Sound.{IsSoundState};

use crate::limits::{EXTENSION_LIMIT, SIZE_DIGITS};
use crate::state::State;

const HEXADECIMAL: u32 = 16;

/// A byte behind so many digits.
pub(crate) fn after_size(digits: u32, size: u64, byte: u8) -> State
    requires few { digits ≤ SIZE_DIGITS }
    requires fits { size < 16 ^ digits }
    ensures next { result ≡ after_size digits size byte }
    ensures sound { IsSoundState result }
{
    if let Some(digit) = char::from(byte).to_digit(HEXADECIMAL) {
        if digits < SIZE_DIGITS {
            return State::Size(digits + 1, size * 16 + u64::from(digit));
        }
        return State::BadChunk;
    }
    if digits == 0 {
        return State::BadChunk;
    }
    match byte {
        b'\r' => State::SizeFeed(size),
        b';' => State::Extension(EXTENSION_LIMIT, size),
        _ => State::BadChunk,
    }
}

/// A byte behind the `;`. Extensions are dropped.
pub(crate) fn after_extension(left: u32, size: u64, byte: u8) -> State
    ensures next { result ≡ after_extension left size byte }
    ensures sound { IsSoundState result }
{
    match byte {
        b'\r' => State::SizeFeed(size),
        b'\n' => State::BadChunk,
        _ => {
            if left == 0 {
                State::BadChunk
            } else {
                State::Extension(left - 1, size)
            }
        }
    }
}
