//! The trailer behind the last chunk (RFC 9112, section 7.1.2). Its lines are dropped. Each state leaves room for the bytes
//! without which the trailer cannot end.
ghost use Rattle.std.specs.Prelude.{◌≡◌, ◌≤◌};
ghost use Rattle.lt_http_body.specs.Lines.{line_byte, line_return, after_trailer, after_trailer_line};
ghost use Rattle.lt_http_body.specs.Sound.{IsSoundState};

use crate::state::State;

/// A byte at the front of a line.
pub(crate) fn after_trailer(left: u32, byte: u8) -> State
    ensures next { result ≡ after_trailer left byte }
    ensures sound { IsSoundState result }
{
    match byte {
        b'\n' => State::Whole,
        b'\r' => {
            if left < 2 {
                State::BadChunk
            } else {
                State::LastFeed
            }
        }
        _ => line_byte(left),
    }
}

/// A byte behind the first one of a line.
pub(crate) fn after_trailer_line(left: u32, byte: u8) -> State
    requires { 2 ≤ left }
    ensures next { result ≡ after_trailer_line left byte }
    ensures sound { IsSoundState result }
{
    match byte {
        b'\n' => State::Trailer(left - 1),
        b'\r' => line_return(left),
        _ => line_byte(left),
    }
}

// Two more bytes end the line and the trailer.
fn line_byte(left: u32) -> State
    ensures next { result ≡ line_byte left }
    ensures sound { IsSoundState result }
{
    if left < 3 {
        State::BadChunk
    } else {
        State::TrailerLine(left - 1)
    }
}

fn line_return(left: u32) -> State
    ensures next { result ≡ line_return left }
    ensures sound { IsSoundState result }
{
    if left < 3 {
        State::BadChunk
    } else {
        State::TrailerFeed(left - 1)
    }
}
