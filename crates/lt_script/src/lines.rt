//! The lines of a script.
ghost use Rattle.std.specs.Prelude.{◌≡◌};
ghost use Rattle.lt_world.specs.Memory.{is_path};
ghost use Rattle.lt_script.specs.Gives.{Gives};
ghost use Rattle.lt_script.specs.Lines.{ended, accept_of, data_of, pour_of, end_of, ready_of, read_fail_of, take_of, write_fail_of, nth_of, fault_of, file_of, fill_of, dir_of, plain_of, line_of};

use crate::fields::{LineError, address_at, after, name_at, number_at};
use crate::limits::{COUNT_LIMIT, FAULT_LIMIT, FILL_LIMIT, POUR_LIMIT, TAKE_LIMIT, TIME_LIMIT};
use crate::quoting::text_at;
use crate::script::{FaultCall, ScriptFault, ScriptFile, Step};
use std::alloc::Global;

/// What a line says.
#[derive(Debug, Drop)]
pub enum Line {
    /// Nothing: a comment, or an empty line.
    Skip,
    File(ScriptFile),
    Fault(ScriptFault),
    Step(Step),
}

/// What a line says, if it is one of the grammar. A front decides what kind of line it is.
#[tactic(auto, unfolding(crate::specs::Lines::line_of))]
pub fn line_of(alloc: Global, line: &[u8]) -> Result<Line, LineError>
    ensures { Gives (λ x. x) result (line_of line.now) }
{
    if let Some(_) = after(b"#", line) {
        return Ok(Line::Skip);
    }
    if let Some(rest) = after(b"data ", line) {
        return data_of(alloc, rest);
    }
    if let Some(rest) = after(b"file \"", line) {
        return file_of(alloc, rest);
    }
    if let Some(rest) = after(b"fill \"", line) {
        return fill_of(alloc, rest);
    }
    if let Some(rest) = after(b"dir \"", line) {
        return dir_of(alloc, rest);
    }
    plain_of(line).ok_or(LineError::Bad)
}

// A line without a text between quotes, which takes no memory.
#[tactic(auto, unfolding(crate::specs::Lines::plain_of))]
fn plain_of(line: &[u8]) -> Option<Line>
    ensures { result ≡ plain_of line.now }
{
    if let Some(rest) = after(b"accept ", line) {
        return accept_of(rest);
    }
    if let Some(rest) = after(b"pour ", line) {
        return pour_of(rest);
    }
    if let Some(rest) = after(b"end ", line) {
        return end_of(rest);
    }
    if let Some(rest) = after(b"ready ", line) {
        return ready_of(rest);
    }
    if let Some(rest) = after(b"rfail ", line) {
        return read_fail_of(rest);
    }
    if let Some(rest) = after(b"take ", line) {
        return take_of(rest);
    }
    if let Some(rest) = after(b"wfail ", line) {
        return write_fail_of(rest);
    }
    if let Some(rest) = after(b"fault ", line) {
        return fault_of(rest);
    }
    if let Some(rest) = after(b"idle", line) {
        return ended(rest, Line::Step(Step::Idle));
    }
    ended(line, Line::Skip)
}

// This line, if nothing follows.
fn ended(rest: &[u8], line: Line) -> Option<Line>
    ensures { result ≡ ended rest.now line }
{
    if rest.len() > 0 {
        return None;
    }
    Some(line)
}

fn is_path(text: &[u8]) -> bool
    ensures { result ≡ is_path text.now }
{
    match text {
        [] => false,
        [first, ..] => *first == b'/' && text[text.len() - 1] != b'/',
    }
}

#[tactic(auto, unfolding(crate::specs::Lines::accept_of))]
fn accept_of(bytes: &[u8]) -> Option<Line>
    ensures { result ≡ accept_of bytes.now }
{
    let (peer, rest) = address_at(bytes)?;
    let rest = after(b" ", rest)?;
    let (local, rest) = address_at(rest)?;
    ended(rest, Line::Step(Step::Accept { peer, local }))
}

#[tactic(auto, unfolding(crate::specs::Lines::data_of))]
fn data_of(alloc: Global, bytes: &[u8]) -> Result<Line, LineError>
    ensures { Gives (λ x. x) result (data_of bytes.now) }
{
    let Some((link, rest)) = name_at(bytes) else {
        return Err(LineError::Bad);
    };
    let Some(rest) = after(b" \"", rest) else {
        return Err(LineError::Bad);
    };
    let (bytes, rest) = text_at(alloc, rest)?;
    ended(rest, Line::Step(Step::Bytes { link, bytes })).ok_or(LineError::Bad)
}

#[tactic(auto, unfolding(crate::specs::Lines::pour_of))]
fn pour_of(bytes: &[u8]) -> Option<Line>
    ensures { result ≡ pour_of bytes.now }
{
    let (link, rest) = name_at(bytes)?;
    let rest = after(b" ", rest)?;
    let (size, rest) = number_at(1, POUR_LIMIT, rest)?;
    let step = Step::Pour {
        link,
        size: size as u32,
    };
    ended(rest, Line::Step(step))
}

#[tactic(auto, unfolding(crate::specs::Lines::end_of))]
fn end_of(bytes: &[u8]) -> Option<Line>
    ensures { result ≡ end_of bytes.now }
{
    let (link, rest) = name_at(bytes)?;
    ended(rest, Line::Step(Step::End { link }))
}

#[tactic(auto, unfolding(crate::specs::Lines::ready_of))]
fn ready_of(bytes: &[u8]) -> Option<Line>
    ensures { result ≡ ready_of bytes.now }
{
    let (link, rest) = name_at(bytes)?;
    let rest = after(b" ", rest)?;
    let (count, rest) = number_at(1, COUNT_LIMIT, rest)?;
    let step = Step::Ready {
        link,
        count: count as u32,
    };
    ended(rest, Line::Step(step))
}

#[tactic(auto, unfolding(crate::specs::Lines::read_fail_of))]
fn read_fail_of(bytes: &[u8]) -> Option<Line>
    ensures { result ≡ read_fail_of bytes.now }
{
    let (link, rest) = name_at(bytes)?;
    ended(rest, Line::Step(Step::ReadFail { link }))
}

#[tactic(auto, unfolding(crate::specs::Lines::take_of))]
fn take_of(bytes: &[u8]) -> Option<Line>
    ensures { result ≡ take_of bytes.now }
{
    let (link, rest) = name_at(bytes)?;
    let rest = after(b" ", rest)?;
    let (size, rest) = number_at(0, TAKE_LIMIT, rest)?;
    let rest = after(b" ", rest)?;
    let (count, rest) = number_at(1, COUNT_LIMIT, rest)?;
    let step = Step::Take {
        link,
        size: size as u32,
        count: count as u32,
    };
    ended(rest, Line::Step(step))
}

#[tactic(auto, unfolding(crate::specs::Lines::write_fail_of))]
fn write_fail_of(bytes: &[u8]) -> Option<Line>
    ensures { result ≡ write_fail_of bytes.now }
{
    let (link, rest) = name_at(bytes)?;
    ended(rest, Line::Step(Step::WriteFail { link }))
}

#[tactic(auto, unfolding(crate::specs::Lines::fault_of))]
fn fault_of(bytes: &[u8]) -> Option<Line>
    ensures { result ≡ fault_of bytes.now }
{
    if let Some(rest) = after(b"connect ", bytes) {
        return nth_of(FaultCall::Connect, rest);
    }
    if let Some(rest) = after(b"find ", bytes) {
        return nth_of(FaultCall::Find, rest);
    }
    if let Some(rest) = after(b"open ", bytes) {
        return nth_of(FaultCall::Open, rest);
    }
    if let Some(rest) = after(b"file ", bytes) {
        return nth_of(FaultCall::File, rest);
    }
    if let Some(rest) = after(b"listen ", bytes) {
        return nth_of(FaultCall::Listen, rest);
    }
    if let Some(rest) = after(b"wait ", bytes) {
        return nth_of(FaultCall::Wait, rest);
    }
    None
}

#[tactic(auto, unfolding(crate::specs::Lines::nth_of))]
fn nth_of(call: FaultCall, bytes: &[u8]) -> Option<Line>
    ensures { result ≡ nth_of call bytes.now }
{
    let (nth, rest) = number_at(0, FAULT_LIMIT, bytes)?;
    let fault = ScriptFault {
        call,
        nth: nth as u32,
    };
    ended(rest, Line::Fault(fault))
}

#[tactic(auto, unfolding(crate::specs::Lines::file_of))]
fn file_of(alloc: Global, bytes: &[u8]) -> Result<Line, LineError>
    ensures { Gives (λ x. x) result (file_of bytes.now) }
{
    let (path, rest) = text_at(alloc, bytes)?;
    let Some(rest) = after(b" ", rest) else {
        return Err(LineError::Bad);
    };
    let Some((time, rest)) = number_at(0, TIME_LIMIT, rest) else {
        return Err(LineError::Bad);
    };
    let Some(rest) = after(b" \"", rest) else {
        return Err(LineError::Bad);
    };
    let (bytes, rest) = text_at(alloc, rest)?;
    if !is_path(path.bytes()) {
        return Err(LineError::Bad);
    }
    ended(rest, Line::File(ScriptFile::Bytes { path, time, bytes })).ok_or(LineError::Bad)
}

#[tactic(auto, unfolding(crate::specs::Lines::fill_of))]
fn fill_of(alloc: Global, bytes: &[u8]) -> Result<Line, LineError>
    ensures { Gives (λ x. x) result (fill_of bytes.now) }
{
    let (path, rest) = text_at(alloc, bytes)?;
    let Some(rest) = after(b" ", rest) else {
        return Err(LineError::Bad);
    };
    let Some((time, rest)) = number_at(0, TIME_LIMIT, rest) else {
        return Err(LineError::Bad);
    };
    let Some(rest) = after(b" ", rest) else {
        return Err(LineError::Bad);
    };
    let Some((size, rest)) = number_at(0, FILL_LIMIT, rest) else {
        return Err(LineError::Bad);
    };
    if !is_path(path.bytes()) {
        return Err(LineError::Bad);
    }
    ended(rest, Line::File(ScriptFile::Fill { path, time, size })).ok_or(LineError::Bad)
}

#[tactic(auto, unfolding(crate::specs::Lines::dir_of))]
fn dir_of(alloc: Global, bytes: &[u8]) -> Result<Line, LineError>
    ensures { Gives (λ x. x) result (dir_of bytes.now) }
{
    let (path, rest) = text_at(alloc, bytes)?;
    if !is_path(path.bytes()) {
        return Err(LineError::Bad);
    }
    ended(rest, Line::File(ScriptFile::Dir { path })).ok_or(LineError::Bad)
}
