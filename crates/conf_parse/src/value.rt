//! Values, read by one terminal at a time.
ghost use Rattle.std.specs.Prelude.{[], ◌∷◌, ◌++◌, ◌≡◌, IfOk, None, Some};
ghost use Rattle.conf_parse.specs.Symbols.{var_dot};
ghost use Rattle.conf_parse.specs.Values as spec;

use crate::stack::Stack;
use crate::symbol::{Role, Sign, Symbol};
use crate::{Item, Term};
use lt_bytes::{List, NoMemory, Text};
use std::alloc::Global;

/// What may come next in a value.
#[derive(Drop)]
pub enum Mode {
    /// A value.
    Value,
    /// An item of this array, or its end.
    Item(Array),
    /// What follows a text that begins an item of this array.
    Named(Array, Text),
    /// What follows a value.
    After,
}

/// An array that is open.
#[derive(Drop)]
pub struct Array {
    /// The terms before the array.
    pub before: List<Term>,
    /// The items that are whole.
    pub items: List<Item>,
    /// How many arrays may be nested where it stands.
    pub room: u32,
}

/// An open array, and the key of its present item.
#[derive(Drop)]
pub struct Level {
    pub array: Array,
    pub key: Option<Text>,
}

/// What is being read of a value: the terms so far, how many arrays may be nested in them, the open arrays.
#[derive(Drop)]
pub struct Reading {
    pub mode: Mode,
    pub terms: List<Term>,
    pub room: u32,
    pub opens: Stack<Level>,
}

/// What one terminal does to a value.
#[derive(Drop)]
pub enum Turn {
    Go(Reading),
    /// The value was whole before this terminal.
    Whole(List<Term>, Symbol),
    Wrong,
    Deep,
}

/// `var.` and the word.
pub fn with_var(alloc: Global, word: Text) -> Result<Text, NoMemory>
    ensures { IfOk result (λ key. key ≡ var_dot word) }
{
    let mut key = Text::from_bytes(alloc, b"var.")?;
    key.push_all(word.bytes())?;
    Ok(key)
}

/// The value went on by this term.
fn termed(
    mut terms: List<Term>,
    term: Term,
    room: u32,
    opens: Stack<Level>,
) -> Result<Turn, NoMemory>
    ensures { IfOk result (λ t. t ≡ spec.termed terms term room opens) }
{
    terms.push(term)?;
    Ok(Turn::Go(Reading {
        mode: Mode::After,
        terms,
        room,
        opens,
    }))
}

fn opened(alloc: Global, terms: List<Term>, room: u32, opens: Stack<Level>) -> Turn
    ensures { result ≡ spec.opened terms room opens }
{
    if room == 0 {
        return Turn::Deep;
    }
    let array = Array {
        before: terms,
        items: List::new(alloc),
        room,
    };
    Turn::Go(Reading {
        mode: Mode::Item(array),
        terms: List::new(alloc),
        room: room - 1,
        opens,
    })
}

fn value(
    alloc: Global,
    symbol: Symbol,
    terms: List<Term>,
    room: u32,
    opens: Stack<Level>,
) -> Result<Turn, NoMemory>
    ensures { IfOk result (λ t. t ≡ spec.value symbol terms room opens) }
{
    match symbol {
        Symbol::Text(text) => termed(terms, Term::Text(text), room, opens),
        Symbol::Number(number) => termed(terms, Term::Number(number), room, opens),
        Symbol::Word(Role::Switch, word) => termed(terms, Term::Text(word), room, opens),
        Symbol::Word(Role::Variable, word) => termed(terms, Term::Var(word), room, opens),
        Symbol::Word(Role::Bare, word) => termed(
            terms,
            Term::Var(with_var(alloc, word)?),
            room,
            opens,
        ),
        Symbol::Sign(Sign::OpenArray) => Ok(opened(alloc, terms, room, opens)),
        _ => Ok(Turn::Wrong),
    }
}

fn with_level(
    array: Array,
    key: Option<Text>,
    mut opens: Stack<Level>,
) -> Result<Stack<Level>, NoMemory>
    ensures { IfOk result (λ os. os ≡ spec.level array key ∷ opens) }
{
    opens.push(Level { array, key })?;
    Ok(opens)
}

fn item(
    alloc: Global,
    symbol: Symbol,
    array: Array,
    room: u32,
    opens: Stack<Level>,
) -> Result<Turn, NoMemory>
    ensures { IfOk result (λ t. t ≡ spec.item symbol array room opens) }
{
    match symbol {
        Symbol::Text(text) => Ok(Turn::Go(Reading {
            mode: Mode::Named(array, text),
            terms: List::new(alloc),
            room,
            opens,
        })),
        Symbol::Sign(Sign::CloseArray) => {
            let Array {
                before,
                items,
                room,
            } = array;
            termed(before, Term::Array(items), room, opens)
        }
        other => value(
            alloc,
            other,
            List::new(alloc),
            room,
            with_level(array, None, opens)?,
        ),
    }
}

/// The array with the item that was being read.
fn with_item(level: Level, terms: List<Term>) -> Result<Array, NoMemory>
    ensures { IfOk result (λ a. a ≡ spec.array_of level.array.before (spec.with_item level terms) level.array.room) }
{
    let Level { array, key } = level;
    let Array {
        before,
        mut items,
        room,
    } = array;
    items.push(Item { key, value: terms })?;
    Ok(Array {
        before,
        items,
        room,
    })
}

fn after_in(
    alloc: Global,
    sign: Sign,
    terms: List<Term>,
    room: u32,
    level: Level,
    mut opens: Stack<Level>,
) -> Result<Turn, NoMemory>
    ensures { IfOk result (λ t. t ≡ spec.after_in sign terms room level opens) }
{
    match sign {
        Sign::Plus => {
            opens.push(level)?;
            Ok(Turn::Go(Reading {
                mode: Mode::Value,
                terms,
                room,
                opens,
            }))
        }
        Sign::Comma => Ok(Turn::Go(Reading {
            mode: Mode::Item(with_item(level, terms)?),
            terms: List::new(alloc),
            room,
            opens,
        })),
        Sign::CloseArray => {
            let Array {
                before,
                items,
                room,
            } = with_item(level, terms)?;
            termed(before, Term::Array(items), room, opens)
        }
        _ => Ok(Turn::Wrong),
    }
}

fn after(
    alloc: Global,
    symbol: Symbol,
    terms: List<Term>,
    room: u32,
    mut opens: Stack<Level>,
) -> Result<Turn, NoMemory>
    ensures { IfOk result (λ t. t ≡ spec.after symbol terms room opens) }
{
    match opens.pop() {
        None => match symbol {
            Symbol::Sign(Sign::Plus) => Ok(Turn::Go(Reading {
                mode: Mode::Value,
                terms,
                room,
                opens,
            })),
            other => Ok(Turn::Whole(terms, other)),
        },
        Some(level) => match symbol {
            Symbol::Sign(sign) => after_in(alloc, sign, terms, room, level, opens),
            _ => Ok(Turn::Wrong),
        },
    }
}

fn named(
    alloc: Global,
    text: Text,
    array: Array,
    symbol: Symbol,
    room: u32,
    opens: Stack<Level>,
) -> Result<Turn, NoMemory>
    ensures { IfOk result (λ t. t ≡ spec.named text array symbol room opens) }
{
    match symbol {
        Symbol::Sign(Sign::Arrow) => Ok(Turn::Go(Reading {
            mode: Mode::Value,
            terms: List::new(alloc),
            room,
            opens: with_level(array, Some(text), opens)?,
        })),
        other => {
            let mut terms = List::new(alloc);
            terms.push(Term::Text(text))?;
            after(alloc, other, terms, room, with_level(array, None, opens)?)
        }
    }
}

/// What one more terminal does.
pub fn take(alloc: Global, reading: Reading, symbol: Symbol) -> Result<Turn, NoMemory>
    ensures { IfOk result (λ t. t ≡ spec.turn reading symbol) }
{
    let Reading {
        mode,
        terms,
        room,
        opens,
    } = reading;
    match mode {
        Mode::Value => value(alloc, symbol, terms, room, opens),
        Mode::Item(array) => item(alloc, symbol, array, room, opens),
        Mode::Named(array, text) => named(alloc, text, array, symbol, room, opens),
        Mode::After => after(alloc, symbol, terms, room, opens),
    }
}
