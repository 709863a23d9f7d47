//! The values of statements.
ghost use Rattle.std.specs.Prelude.{◌≡◌, [], Result, Ok};
ghost use Rattle.conf_eval.specs.declared.halt.Wrong.{Wrong};
ghost use Rattle.conf_value.specs.declared.value.Value.{Value};
ghost use Rattle.conf_eval.specs.Faults.{proceed};
ghost use Rattle.conf_eval.specs.Answers.{Is};
ghost use Rattle.conf_eval.specs.Values as spec;
ghost use Rattle.conf_eval.specs.Kept.{look};

use crate::halt::{Halt, Wrong};
use crate::scope::{Scope, value_in};
use crate::within::is_within;
use conf_parse::{Item, MAX_NESTING, Term};
use conf_value::{JoinFault, Pair, Value, array_of, join};
use lt_bytes::{List, Text};
use std::alloc::Global;

/// A sum from left to right, in which arrays may nest so deep.
#[cycle(value)]
pub fn sum(alloc: Global, room: u32, scope: &Scope<'_>, terms: &[Term]) -> Result<Value, Halt>
    ensures { Is (spec.sum_value (look scope.now) room terms.now) result }
{
    let Some((first, others)) = terms.split_first() else {
        return Ok(Value::Text(Text::new(alloc)));
    };
    let mut value = term(alloc, room, scope, first)?;
    for other in others {
        let next = term(alloc, room, scope, other);
        match plus(alloc, value, next) {
            Ok(sum) => value = sum,
            Err(halt) => return Err(halt),
        }
    }
    Ok(value)
}

// A value and the one that comes next, if there is one.
fn plus(alloc: Global, value: Value, next: Result<Value, Halt>) -> Result<Value, Halt>
    ensures { (due : Result Value Wrong) → Is due next → Is (proceed due (spec.joins value)) result }
{
    match next {
        Ok(next) => joined(alloc, value, next),
        Err(halt) => Err(halt),
    }
}

#[cycle(value)]
fn term(alloc: Global, room: u32, scope: &Scope<'_>, term: &Term) -> Result<Value, Halt>
    ensures { Is (spec.term_value (look scope.now) room term.now) result }
{
    match term {
        Term::Text(text) => text_value(alloc, text.bytes()),
        Term::Number(number) => Ok(Value::Number(*number)),
        Term::Var(key) => variable(alloc, scope, key.bytes()),
        Term::Array(items) => array(alloc, room, scope, items.as_slice()),
    }
}

#[cycle(value)]
fn array(alloc: Global, room: u32, scope: &Scope<'_>, items: &[Item]) -> Result<Value, Halt>
    ensures { Is (spec.array_value (look scope.now) room items.now) result }
{
    if room == 0 {
        return Err(Halt::Wrong(Wrong::Deep));
    }
    all_items(alloc, room - 1, scope, items)
}

#[cycle(value)]
fn all_items(alloc: Global, room: u32, scope: &Scope<'_>, items: &[Item]) -> Result<Value, Halt>
    ensures { Is (spec.items_of (look scope.now) (spec.array_value (look scope.now) room) [] items.now) result }
{
    let mut pairs = List::new(alloc);
    for one in items {
        let pair = item(alloc, room, scope, one)?;
        pairs.push(pair)?;
    }
    Ok(Value::Array(array_of(alloc, pairs)?))
}

#[cycle(value)]
fn item(alloc: Global, room: u32, scope: &Scope<'_>, item: &Item) -> Result<Pair, Halt>
    ensures { Is (spec.item_value (look scope.now) room item.now) result }
{
    let value = sum(alloc, room, scope, item.value.as_slice())?;
    if !is_within(MAX_NESTING - 1, &value) {
        return Err(Halt::Wrong(Wrong::Deep));
    }
    let key = match &item.key {
        Some(key) => Some(Text::from_bytes(alloc, key.bytes())?),
        None => None,
    };
    Ok(Pair { key, value })
}

fn text_value(alloc: Global, bytes: &[u8]) -> Result<Value, Halt>
    ensures { Is (Ok (Value.Text bytes.now)) result }
{
    Ok(Value::Text(Text::from_bytes(alloc, bytes)?))
}

// A copy of what a variable is set to.
fn variable(alloc: Global, scope: &Scope<'_>, key: &[u8]) -> Result<Value, Halt>
    ensures { Is (spec.known (look scope.now key.now)) result }
{
    match value_in(scope, key) {
        Some(value) => Ok(value.copy(alloc)?),
        None => Err(Halt::Wrong(Wrong::UnknownVariable)),
    }
}

/// Two values joined.
pub fn joined(alloc: Global, a: Value, b: Value) -> Result<Value, Halt>
    ensures { Is (spec.joins a b) result }
{
    match join(alloc, a, b) {
        Ok(value) => Ok(value),
        Err(JoinFault::Mixed) => Err(Halt::Wrong(Wrong::Mixed)),
        Err(JoinFault::Overflow) => Err(Halt::Wrong(Wrong::Overflow)),
        Err(JoinFault::NoMemory) => Err(Halt::NoMemory),
    }
}
