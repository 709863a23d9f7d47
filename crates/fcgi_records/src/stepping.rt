//! One byte further.
ghost use Rattle.std.specs.Prelude.{◌≡◌, ◌≤◌, ◌<◌, true, length, take};
ghost use Rattle.fcgi_records.specs.States as spec;
ghost use Rattle.fcgi_records.specs.Reading.{Passes};
ghost use Rattle.fcgi_records.specs.Sound.{IsSoundState};

use crate::header::Header;
use crate::kinds::{END_REQUEST, REQUEST_COMPLETE, REQUEST_ID, STDERR, STDOUT, VERSION};
use crate::reader::{ReaderState, RecordFault};
use crate::state::{Cause, State};

/// The content of END_REQUEST: four bytes of the application's status, the protocol status and three unused ones.
const END_SIZE: u64 = 8;

const STATUS_SIZE: u8 = 4;

const UNUSED_SIZE: u8 = 3;

fn number(high: u8, low: u8) -> u64
    ensures { result ≡ spec.number high low }
{
    u64::from(high) * 256 + u64::from(low)
}

fn of_version(version: u8) -> Header
    ensures { result ≡ spec.of_version version }
{
    Header {
        version,
        kind: 0,
        id_high: 0,
        id_low: 0,
        length_high: 0,
        length_low: 0,
        padding: 0,
    }
}

fn in_padding(left: u8) -> State
    ensures next { result ≡ spec.in_padding left }
    ensures sound { IsSoundState result }
{
    if left == 0 {
        State::Version
    } else {
        State::Padding(left)
    }
}

fn in_stdout(left: u64, padding: u8) -> State
    ensures next { result ≡ spec.in_stdout left padding }
    ensures sound { IsSoundState result }
{
    if left == 0 {
        in_padding(padding)
    } else {
        State::Stdout(left, padding)
    }
}

fn in_stderr(left: u64, padding: u8) -> State
    ensures next { result ≡ spec.in_stderr left padding }
    ensures sound { IsSoundState result }
{
    if left == 0 {
        in_padding(padding)
    } else {
        State::Stderr(left, padding)
    }
}

fn in_end_padding(left: u8) -> State
    ensures next { result ≡ spec.in_end_padding left }
    ensures sound { IsSoundState result }
{
    if left == 0 {
        State::Whole
    } else {
        State::EndPadding(left)
    }
}

fn in_unused(left: u8, padding: u8) -> State
    ensures next { result ≡ spec.in_unused left padding }
    ensures sound { IsSoundState result }
{
    if left == 0 {
        in_end_padding(padding)
    } else {
        State::Unused(left, padding)
    }
}

fn in_status(left: u8, padding: u8) -> State
    ensures next { result ≡ spec.in_status left padding }
    ensures sound { IsSoundState result }
{
    if left == 0 {
        State::ProtocolStatus(padding)
    } else {
        State::Status(left, padding)
    }
}

// A whole header whose version and id are right.
fn by_kind(header: Header) -> State
    ensures next { result ≡ spec.by_kind header }
    ensures sound { IsSoundState result }
{
    let length = number(header.length_high, header.length_low);
    match header.kind {
        STDOUT => in_stdout(length, header.padding),
        STDERR => in_stderr(length, header.padding),
        END_REQUEST if length == END_SIZE => State::Status(STATUS_SIZE, header.padding),
        END_REQUEST => State::Broken(Cause::WrongEnd),
        _ => State::Broken(Cause::WrongType),
    }
}

// A whole header.
fn judged(header: Header) -> State
    ensures next { result ≡ spec.judged header }
    ensures sound { IsSoundState result }
{
    if header.version != VERSION {
        return State::Broken(Cause::WrongVersion);
    }
    if number(header.id_high, header.id_low) != u64::from(REQUEST_ID) {
        return State::Broken(Cause::WrongId);
    }
    by_kind(header)
}

fn after_protocol(byte: u8, padding: u8) -> State
    ensures next { result ≡ spec.after_protocol byte padding }
    ensures sound { IsSoundState result }
{
    if byte == REQUEST_COMPLETE {
        in_unused(UNUSED_SIZE, padding)
    } else {
        State::Broken(Cause::Refused(byte))
    }
}

fn fault_of(cause: Cause) -> RecordFault
    ensures { result ≡ spec.fault_of cause }
{
    match cause {
        Cause::WrongVersion => RecordFault::WrongVersion,
        Cause::WrongId => RecordFault::WrongId,
        Cause::WrongType => RecordFault::WrongType,
        Cause::WrongEnd => RecordFault::WrongEnd,
        Cause::Refused(protocol) => RecordFault::Refused { protocol },
        Cause::AfterEnd => RecordFault::AfterEnd,
    }
}

impl State {
    /// One byte further.
    #[tactic(auto, unfolding(crate::specs::States::step))]
    pub(crate) fn step(self, byte: u8) -> State
        requires sound { IsSoundState self }
        ensures next { result ≡ spec.step self byte }
        ensures sound { IsSoundState result }
    {
        match self {
            State::Version => State::Kind(of_version(byte)),
            State::Kind(h) => State::IdHigh(Header { kind: byte, ..h }),
            State::IdHigh(h) => State::IdLow(Header { id_high: byte, ..h }),
            State::IdLow(h) => State::LengthHigh(Header { id_low: byte, ..h }),
            State::LengthHigh(h) => State::LengthLow(Header {
                length_high: byte,
                ..h
            }),
            State::LengthLow(h) => State::PaddingLength(Header {
                length_low: byte,
                ..h
            }),
            State::PaddingLength(h) => State::Reserved(Header { padding: byte, ..h }),
            State::Reserved(h) => judged(h),
            State::Stdout(left, padding) => in_stdout(left - 1, padding),
            State::Stderr(left, padding) => in_stderr(left - 1, padding),
            State::Padding(left) => in_padding(left - 1),
            State::Status(left, padding) => in_status(left - 1, padding),
            State::ProtocolStatus(padding) => after_protocol(byte, padding),
            State::Unused(left, padding) => in_unused(left - 1, padding),
            State::EndPadding(left) => in_end_padding(left - 1),
            State::Whole => State::Broken(Cause::AfterEnd),
            State::Broken(_) => self,
        }
    }

    /// Reads bytes up to content of STDOUT or a refusal, and answers how many.
    pub(crate) fn through(self, bytes: &[u8]) -> (State, usize)
        requires sound { IsSoundState self }
        requires framing { spec.is_framing self ≡ true }
        ensures within { result.1 ≤ length bytes.now }
        ensures some { 0 < length bytes.now → 0 < result.1 }
        ensures passes { Passes self (take result.1 bytes.now) result.0 }
        ensures sound { IsSoundState result.0 }
    {
        let mut state = self;
        for (i, byte) in bytes.iter().enumerate() {
            if !state.is_framing() {
                return (state, i);
            }
            state = state.step(*byte);
        }
        (state, bytes.len())
    }

    /// How many bytes of STDOUT come next.
    pub(crate) fn left(&self) -> u64
        ensures { result ≡ spec.left_of self.now }
    {
        match self {
            State::Stdout(left, _) => *left,
            _ => 0,
        }
    }

    /// Once so many of them came.
    pub(crate) fn without(self, n: u64) -> State
        requires sound { IsSoundState self }
        requires within { n ≤ spec.left_of self }
        ensures next { result ≡ spec.without_from n self }
        ensures sound { IsSoundState result }
    {
        match self {
            State::Stdout(left, padding) => in_stdout(left - n, padding),
            _ => self,
        }
    }

    /// No byte is read any more.
    pub(crate) fn is_broken(&self) -> bool
        ensures { result ≡ spec.is_broken self.now }
    {
        matches!(self, State::Broken(_))
    }

    /// The next byte is read, and is none of STDOUT.
    pub(crate) fn is_framing(&self) -> bool
        ensures { result ≡ spec.is_framing self.now }
    {
        !matches!(self, State::Stdout(..) | State::Broken(_))
    }

    /// What is answered there.
    pub(crate) fn answer(&self) -> Result<ReaderState, RecordFault>
        ensures { result ≡ spec.answer_from self.now }
    {
        match self {
            State::Whole => Ok(ReaderState::Done),
            State::Broken(cause) => Err(fault_of(*cause)),
            _ => Ok(ReaderState::Open),
        }
    }
}
