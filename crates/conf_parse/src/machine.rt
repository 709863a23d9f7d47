//! One terminal of a file.
ghost use Rattle.std.specs.Prelude.{[], ◌∷◌, ◌++◌, ◌≡◌, ℕ, IfOk, None, Some};
ghost use Rattle.conf_parse.specs.Answers.{Finishes, Steps};
ghost use Rattle.conf_parse.specs.Machine as spec;

use crate::stack::Stack;
use crate::state::{Body, Chain, Frame, Part, State, Target};
use crate::symbol::{Role, Sign, Symbol};
use crate::value::{Level, Mode, Reading, Turn, take, with_var};
use crate::{Branch, ParseError, RawCondition, Statement, Term, What};
use lt_bytes::{List, NoMemory, Text};
use std::alloc::Global;

/// The body with one more statement.
fn with(body: Body, line: u32, what: What) -> Result<Body, NoMemory>
    ensures { IfOk result (λ b. b ≡ spec.with body line what) }
{
    let Body { room, mut done } = body;
    done.push(Statement { line, what })?;
    Ok(Body { room, done })
}

/// The chain with one more branch.
fn joined(chain: Chain, branch: Branch) -> Result<Chain, NoMemory>
    ensures { IfOk result (λ c. c ≡ spec.joined chain branch) }
{
    let Chain { line, mut branches } = chain;
    branches.push(branch)?;
    Ok(Chain { line, branches })
}

fn what_of(target: Target, value: List<Term>) -> What
    ensures { result ≡ spec.what_of target value }
{
    match target {
        Target::Set(key, add) => What::Set { key, add, value },
        Target::Include => What::Include(value),
    }
}

/// A value of which nothing was read yet.
fn fresh(alloc: Global, room: u32) -> Reading
    ensures { result ≡ spec.fresh room }
{
    Reading {
        mode: Mode::Value,
        terms: List::new(alloc),
        room,
        opens: Stack::new(alloc),
    }
}

/// A block opens on line `here`.
fn opened(
    alloc: Global,
    frame: Frame,
    mut frames: Stack<Frame>,
    here: u32,
) -> Result<State, ParseError>
    ensures { Steps here result (spec.opened frame.body.room frame.body.done frame.chain frame.line frame.condition frames) }
{
    if frame.body.room == 0 {
        return Err(ParseError::Deep { line: here });
    }
    let room = frame.body.room - 1;
    frames.push(frame)?;
    Ok(State::Between(
        Body {
            room,
            done: List::new(alloc),
        },
        frames,
    ))
}

/// The innermost branch is whole with these statements.
fn closed(
    done: List<Statement>,
    frame: Frame,
    frames: Stack<Frame>,
    here: u32,
) -> Result<State, ParseError>
    ensures { Steps here result (spec.closed done frame.body frame.chain frame.line frame.condition frames) }
{
    let Frame {
        body,
        chain,
        line,
        condition,
    } = frame;
    let is_last = condition.is_none();
    let chain = joined(
        chain,
        Branch {
            line,
            condition,
            body: done,
        },
    )?;
    if is_last {
        let Chain { line, branches } = chain;
        Ok(State::Between(with(body, line, What::Branches(branches))?, frames))
    } else {
        Ok(State::After(body, chain, frames))
    }
}

fn begin(
    alloc: Global,
    body: Body,
    symbol: Symbol,
    here: u32,
    mut frames: Stack<Frame>,
) -> Result<State, ParseError>
    ensures { Steps here result (spec.begin body symbol here frames) }
{
    match symbol {
        Symbol::Word(Role::Setting, key) => Ok(State::Key(body, here, key, frames)),
        Symbol::Word(Role::Variable, key) => Ok(State::Key(body, here, key, frames)),
        Symbol::Word(Role::Bare, word) => Ok(State::Key(
            body,
            here,
            with_var(alloc, word)?,
            frames,
        )),
        Symbol::Word(Role::Include, _) => {
            let reading = fresh(alloc, body.room);
            Ok(State::Value(body, here, Target::Include, reading, frames))
        }
        Symbol::Sign(Sign::Dollar) => {
            let chain = Chain {
                line: here,
                branches: List::new(alloc),
            };
            Ok(State::Head(body, chain, here, Part::Group, frames))
        }
        Symbol::Sign(Sign::CloseBlock) => match frames.pop() {
            Some(frame) => {
                let Body { room: _, done } = body;
                closed(done, frame, frames, here)
            }
            None => Err(ParseError::Grammar { line: here }),
        },
        _ => Err(ParseError::Grammar { line: here }),
    }
}

/// What comes next in a condition behind this terminal, or `None` where it is not the one that comes next.
fn head(part: Part, symbol: Symbol) -> Option<Part>
    ensures { result ≡ spec.head part symbol }
{
    match (part, symbol) {
        (Part::Group, Symbol::Word(_, group)) => Some(Part::OpenName(group)),
        (Part::OpenName(group), Symbol::Sign(Sign::OpenName)) => Some(Part::Name(group)),
        (Part::Name(group), Symbol::Text(name)) => Some(Part::CloseName(group, name)),
        (Part::CloseName(group, name), Symbol::Sign(Sign::CloseName)) => Some(Part::Op(
            group, name,
        )),
        (Part::Op(group, name), Symbol::Sign(Sign::Compare(op))) => Some(Part::Text(
            group, name, op,
        )),
        (Part::Text(group, name, op), Symbol::Text(text)) => Some(Part::Block(RawCondition {
            group,
            name,
            op,
            text,
        })),
        _ => None,
    }
}

fn heads(
    alloc: Global,
    part: Part,
    body: Body,
    chain: Chain,
    line: u32,
    symbol: Symbol,
    frames: Stack<Frame>,
    here: u32,
) -> Result<State, ParseError>
    ensures { Steps here result (spec.heads part body chain line symbol frames) }
{
    match (part, symbol) {
        (Part::Block(condition), Symbol::Sign(Sign::OpenBlock)) => {
            let frame = Frame {
                body,
                chain,
                line,
                condition: Some(condition),
            };
            opened(alloc, frame, frames, here)
        }
        (part, symbol) => match head(part, symbol) {
            Some(part) => Ok(State::Head(body, chain, line, part, frames)),
            None => Err(ParseError::Grammar { line: here }),
        },
    }
}

fn turned(
    alloc: Global,
    turn: Turn,
    body: Body,
    line: u32,
    target: Target,
    here: u32,
    frames: Stack<Frame>,
) -> Result<State, ParseError>
    ensures { Steps here result (spec.turned turn body line target here frames) }
{
    match turn {
        Turn::Go(reading) => Ok(State::Value(body, line, target, reading, frames)),
        Turn::Whole(value, symbol) => begin(
            alloc,
            with(body, line, what_of(target, value))?,
            symbol,
            here,
            frames,
        ),
        Turn::Wrong => Err(ParseError::Grammar { line: here }),
        Turn::Deep => Err(ParseError::Deep { line: here }),
    }
}

/// Behind the key of the statement on this line.
fn behind_key(
    alloc: Global,
    body: Body,
    line: u32,
    key: Text,
    symbol: Symbol,
    frames: Stack<Frame>,
    here: u32,
) -> Result<State, ParseError>
    ensures { Steps here result (spec.step (State.Key body line key frames) symbol here) }
{
    let add = match symbol {
        Symbol::Sign(Sign::Assign) => false,
        Symbol::Sign(Sign::Append) => true,
        _ => return Err(ParseError::Grammar { line: here }),
    };
    let reading = fresh(alloc, body.room);
    Ok(State::Value(body, line, Target::Set(key, add), reading, frames))
}

/// Behind a block of the chain, which `else` may follow.
fn behind_block(
    alloc: Global,
    body: Body,
    chain: Chain,
    symbol: Symbol,
    frames: Stack<Frame>,
    here: u32,
) -> Result<State, ParseError>
    ensures { Steps here result (spec.step (State.After body chain frames) symbol here) }
{
    match symbol {
        Symbol::Word(Role::Else, _) => Ok(State::Else(body, chain, here, frames)),
        other => {
            let Chain { line, branches } = chain;
            let body = with(body, line, What::Branches(branches))?;
            begin(alloc, body, other, here, frames)
        }
    }
}

/// Behind the `else` of the chain's branch on this line.
fn behind_else(
    alloc: Global,
    body: Body,
    chain: Chain,
    line: u32,
    symbol: Symbol,
    frames: Stack<Frame>,
    here: u32,
) -> Result<State, ParseError>
    ensures { Steps here result (spec.step (State.Else body chain line frames) symbol here) }
{
    match symbol {
        Symbol::Sign(Sign::Dollar) => Ok(State::Head(body, chain, line, Part::Group, frames)),
        Symbol::Sign(Sign::OpenBlock) => {
            let frame = Frame {
                body,
                chain,
                line,
                condition: None,
            };
            opened(alloc, frame, frames, here)
        }
        _ => Err(ParseError::Grammar { line: here }),
    }
}

/// What is being read behind one more terminal, which stands on line `here`.
pub fn step(alloc: Global, state: State, symbol: Symbol, here: u32) -> Result<State, ParseError>
    ensures { Steps here result (spec.step state symbol here) }
{
    match state {
        State::Between(body, frames) => begin(alloc, body, symbol, here, frames),
        State::Key(body, line, key, frames) => behind_key(
            alloc, body, line, key, symbol, frames, here,
        ),
        State::Value(body, line, target, reading, frames) => {
            let turn = take(alloc, reading, symbol)?;
            turned(alloc, turn, body, line, target, here, frames)
        }
        State::Head(body, chain, line, part, frames) => heads(
            alloc, part, body, chain, line, symbol, frames, here,
        ),
        State::After(body, chain, frames) => behind_block(alloc, body, chain, symbol, frames, here),
        State::Else(body, chain, line, frames) => behind_else(
            alloc, body, chain, line, symbol, frames, here,
        ),
    }
}

/// The statements where the file ends in a value, which is whole unless something is open.
fn finish_value(
    mode: Mode,
    mut opens: Stack<Level>,
    done: List<Statement>,
    mut frames: Stack<Frame>,
) -> Option<List<Statement>>
    ensures { Finishes result (spec.finish_value mode opens done frames) }
{
    match mode {
        Mode::After => match opens.pop() {
            None => match frames.pop() {
                None => Some(done),
                Some(_) => None,
            },
            Some(_) => None,
        },
        _ => None,
    }
}

/// The statements where the file ends, or `None` where it ends too early.
pub fn finish(state: State) -> Result<Option<List<Statement>>, NoMemory>
    ensures { IfOk result (λ r. Finishes r (spec.finish state)) }
{
    match state {
        State::Between(body, mut frames) => match frames.pop() {
            None => {
                let Body { room: _, done } = body;
                Ok(Some(done))
            }
            Some(_) => Ok(None),
        },
        State::Value(body, line, target, reading, frames) => {
            let Reading {
                mode,
                terms,
                room: _,
                opens,
            } = reading;
            let Body { room: _, done } = with(body, line, what_of(target, terms))?;
            Ok(finish_value(mode, opens, done, frames))
        }
        State::After(body, chain, mut frames) => match frames.pop() {
            None => {
                let Chain { line, branches } = chain;
                let Body { room: _, done } = with(body, line, What::Branches(branches))?;
                Ok(Some(done))
            }
            Some(_) => Ok(None),
        },
        _ => Ok(None),
    }
}
