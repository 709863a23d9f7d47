//! Quoted texts: bytes 32 to 126 stand for themselves except `"` and `\`; `\r`, `\n`, `\"`, `\\` and
//! `\xHH` with lower-case digits are the rest.
ghost use Rattle.std.specs.Prelude.{◌≡◌, ◌<◌, IfSome};
ghost use Rattle.lt_script.specs.Quoting.{move_of, unquote, hex_value, plain_move, escape_move};
ghost use Rattle.lt_script.specs.Gives.{Gives};

use crate::fields::LineError;
use lt_bytes::Text;
use std::alloc::Global;

/// Where the reader stands in the spelling of a byte.
#[derive(Clone, Copy, Debug)]
pub enum State {
    Plain,
    /// After a backslash.
    Escape,
    /// After `\x`.
    High,
    /// After `\x` and its first digit, which has this value.
    Low(u8),
}

/// What the next byte makes of it.
#[derive(Clone, Copy, Debug)]
pub enum Move {
    To(State),
    Byte(u8),
    End,
    Bad,
}

/// The text up to the closing quote, and what follows it.
pub fn text_at(alloc: Global, bytes: &[u8]) -> Result<(Text, &[u8]), LineError>
    ensures { Gives (λ x. (x.0, x.1.now)) result (unquote bytes.now State.Plain) }
{
    let mut text = Text::new(alloc);
    let mut state = State::Plain;
    for (i, b) in bytes.iter().enumerate() {
        match move_on(state, *b) {
            Move::To(next) => state = next,
            Move::Byte(byte) => {
                if text.push(byte).is_err() {
                    return Err(LineError::NoMemory);
                }
                state = State::Plain;
            }
            Move::End => return Ok((text, &bytes[i + 1..])),
            Move::Bad => return Err(LineError::Bad),
        }
    }
    Err(LineError::Bad)
}

fn move_on(state: State, b: u8) -> Move
    ensures { result ≡ move_of state b }
{
    match state {
        State::Plain => plain(b),
        State::Escape => escape(b),
        State::High => match hex_value(b) {
            None => Move::Bad,
            Some(high) => Move::To(State::Low(high)),
        },
        State::Low(high) => match hex_value(b) {
            None => Move::Bad,
            Some(low) => Move::Byte((high % 16) * 16 + low),
        },
    }
}

fn plain(b: u8) -> Move
    ensures { result ≡ plain_move b }
{
    match b {
        b'"' => Move::End,
        b'\\' => Move::To(State::Escape),
        32..=126 => Move::Byte(b),
        _ => Move::Bad,
    }
}

fn escape(b: u8) -> Move
    ensures { result ≡ escape_move b }
{
    match b {
        b'r' => Move::Byte(b'\r'),
        b'n' => Move::Byte(b'\n'),
        b'"' => Move::Byte(b'"'),
        b'\\' => Move::Byte(b'\\'),
        b'x' => Move::To(State::High),
        _ => Move::Bad,
    }
}

fn hex_value(b: u8) -> Option<u8>
    ensures value { result ≡ hex_value b }
    ensures small { IfSome result (λ h. h < 16) }
{
    match b {
        b'0'..=b'9' => Some(b - b'0'),
        b'a'..=b'f' => Some(b - 87),
        _ => None,
    }
}
