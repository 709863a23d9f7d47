//! A body's state, and how large it may still become.
ghost use Rattle.std.specs.Prelude.{◌≡◌, ◌≤◌, ◌<◌, ℕ, Bool, true, false, length, take};
ghost use Rattle.lt_http_body.specs.Lines.{in_data, in_stated};
ghost use Rattle.lt_http_body.specs.Standings as spec;
ghost use Rattle.lt_http_body.specs.Reading.{Passes};
ghost use Rattle.lt_http_body.specs.Sound.{IsSoundState};

use crate::body::{BodyRefusal, BodyState};
use crate::limits::TRAILER_LIMIT;
use crate::size_line::{after_extension, after_size};
use crate::state::State;
use crate::trailer::{after_trailer, after_trailer_line};
use http_head::Framing;

/// Where a body stands.
#[derive(Clone, Copy, Debug, PartialEq, Eq)]
pub(crate) struct Standing {
    pub(crate) state: State,
    /// How many bytes its further chunks may have together, where there is a limit.
    pub(crate) room: Option<u64>,
}

fn is_above(size: u64, room: Option<u64>) -> bool
    ensures { result ≡ spec.is_above size room }
{
    match room {
        Some(most) => most < size,
        None => false,
    }
}

fn less(room: Option<u64>, size: u64) -> Option<u64>
    requires { spec.is_above size room ≡ false }
    ensures { result ≡ spec.less room size }
{
    match room {
        Some(most) => Some(most - size),
        None => None,
    }
}

fn in_data(left: u64) -> State
    ensures next { result ≡ in_data left }
    ensures sound { IsSoundState result }
{
    if left == 0 {
        State::DataReturn
    } else {
        State::Data(left)
    }
}

fn in_stated(left: u64) -> State
    ensures next { result ≡ in_stated left }
    ensures sound { IsSoundState result }
{
    if left == 0 {
        State::Whole
    } else {
        State::Stated(left)
    }
}

// The state behind the only byte that goes on.
fn only(wanted: u8, byte: u8, next: State) -> State
    requires { IsSoundState next }
    ensures next { result ≡ spec.only wanted byte next }
    ensures sound { IsSoundState result }
{
    if byte == wanted {
        next
    } else {
        State::BadChunk
    }
}

impl Standing {
    /// A body at its first byte.
    pub(crate) fn begin(framing: Framing, limit: u64) -> Standing
        ensures begins { result ≡ spec.begin framing limit }
        ensures sound { IsSoundState result.state }
    {
        let room = if limit == u64::MAX { None } else { Some(limit) };
        let state = match framing {
            Framing::None => State::Whole,
            Framing::Length(n) if is_above(n, room) => State::TooLarge,
            Framing::Length(n) => in_stated(n),
            Framing::Chunked => State::Size(0, 0),
        };
        Standing { state, room }
    }

    fn at(self, state: State) -> Standing
        ensures { result ≡ spec.at self.room state }
    {
        Standing {
            state,
            room: self.room,
        }
    }

    // Behind a whole size line.
    fn after_size_line(self, size: u64) -> Standing
        ensures next { result ≡ spec.after_size_line self.room size }
        ensures sound { IsSoundState result.state }
    {
        if size == 0 {
            return self.at(State::Trailer(TRAILER_LIMIT));
        }
        if is_above(size, self.room) {
            return self.at(State::TooLarge);
        }
        Standing {
            state: State::Data(size),
            room: less(self.room, size),
        }
    }

    /// One byte further.
    #[tactic(auto, unfolding(crate::specs::Standings::step))]
    pub(crate) fn step(self, byte: u8) -> Standing
        requires sound { IsSoundState self.state }
        ensures next { result ≡ spec.step self byte }
        ensures sound { IsSoundState result.state }
    {
        match self.state {
            State::Stated(_) | State::Data(_) => self.without(1),
            State::Size(digits, size) => self.at(after_size(digits, size, byte)),
            State::Extension(left, size) => self.at(after_extension(left, size, byte)),
            State::SizeFeed(size) if byte == b'\n' => self.after_size_line(size),
            State::SizeFeed(_) => self.at(State::BadChunk),
            State::DataReturn => self.at(only(b'\r', byte, State::DataFeed)),
            State::DataFeed => self.at(only(b'\n', byte, State::Size(0, 0))),
            State::Trailer(left) => self.at(after_trailer(left, byte)),
            State::TrailerLine(left) => self.at(after_trailer_line(left, byte)),
            State::TrailerFeed(left) => self.at(only(b'\n', byte, State::Trailer(left - 1))),
            State::LastFeed => self.at(only(b'\n', byte, State::Whole)),
            State::Whole | State::BadChunk | State::TooLarge => self,
        }
    }

    /// Takes bytes up to data, the body's end or a refusal, and answers how many.
    pub(crate) fn through(self, bytes: &[u8]) -> (Standing, usize)
        requires sound { IsSoundState self.state }
        requires line { spec.is_in_line self.state ≡ true }
        ensures within { result.1 ≤ length bytes.now }
        ensures some { 0 < length bytes.now → 0 < result.1 }
        ensures passes { Passes self (take result.1 bytes.now) result.0 }
        ensures sound { IsSoundState result.0.state }
    {
        let mut standing = self;
        for (i, byte) in bytes.iter().enumerate() {
            if !standing.is_in_line() {
                return (standing, i);
            }
            standing = standing.step(*byte);
        }
        (standing, bytes.len())
    }

    /// How many bytes of data come next.
    pub(crate) fn left(&self) -> u64
        ensures { result ≡ spec.left_of self.now.state }
    {
        match self.state {
            State::Stated(left) | State::Data(left) => left,
            _ => 0,
        }
    }

    /// Once so many bytes of its data came.
    pub(crate) fn without(self, n: u64) -> Standing
        requires sound { IsSoundState self.state }
        requires within { n ≤ spec.left_of self.state }
        ensures next { result ≡ spec.at self.room (spec.without_from n self.state) }
        ensures sound { IsSoundState result.state }
    {
        match self.state {
            State::Stated(left) => self.at(in_stated(left - n)),
            State::Data(left) => self.at(in_data(left - n)),
            _ => self,
        }
    }

    /// No byte is its own any more.
    pub(crate) fn is_over(&self) -> bool
        ensures { result ≡ spec.is_over self.now.state }
    {
        matches!(self.state, State::Whole | State::BadChunk | State::TooLarge)
    }

    /// The next byte belongs to a line: it is its own, and no data.
    pub(crate) fn is_in_line(&self) -> bool
        ensures { result ≡ spec.is_in_line self.now.state }
    {
        !matches!(
            self.state,
            State::Stated(_) | State::Data(_) | State::Whole | State::BadChunk | State::TooLarge
        )
    }

    /// What is answered there.
    pub(crate) fn answer(&self) -> Result<BodyState, BodyRefusal>
        ensures { result ≡ spec.answer_from self.now.state }
    {
        match self.state {
            State::Whole => Ok(BodyState::Done),
            State::BadChunk => Err(BodyRefusal::BadChunk),
            State::TooLarge => Err(BodyRefusal::TooLarge),
            _ => Ok(BodyState::NeedMore),
        }
    }
}
