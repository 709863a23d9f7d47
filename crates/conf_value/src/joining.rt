//! Values that are joined.
ghost use Rattle.std.specs.Prelude.{◌≡◌, ◌++◌, IfOk, Ok};
ghost use Rattle.conf_value.specs.Joining.{Answers, joined, joined_numbers, with_pairs};

use crate::{Pair, Value, array};
use lt_bytes::{List, NoMemory, Text};
use std::alloc::Global;

/// Why two values are not joined.
#[derive(Clone, Copy, Debug, PartialEq, Eq)]
pub enum JoinFault {
    /// They are of two kinds.
    Mixed,
    /// Their sum passes 64 bits.
    Overflow,
    NoMemory,
}

impl From<NoMemory> for JoinFault {
    ghost use Rattle.std.specs.Prelude.{◌≡◌};
    ghost use Rattle.conf_value.specs.declared.joining.JoinFault.TheVariants as the;

    ghost from_gives = { λ _ e. e ≡ the.NoMemory };

    fn from(_: NoMemory) -> JoinFault {
        JoinFault::NoMemory
    }
}

/// The two values joined, the first one in front: a text with a text, a number with a number, an array with an array pair by
/// pair. Both are given up where they are refused.
pub fn join(alloc: Global, a: Value, b: Value) -> Result<Value, JoinFault>
    ensures { Answers (joined a b) result }
{
    match (a, b) {
        (Value::Text(a), Value::Text(b)) => texts(a, b),
        (Value::Number(a), Value::Number(b)) => numbers(a, b),
        (Value::Array(a), Value::Array(b)) => arrays(alloc, a, b),
        _ => Err(JoinFault::Mixed),
    }
}

fn texts(mut a: Text, b: Text) -> Result<Value, JoinFault>
    ensures { Answers (Ok (Value.Text (a ++ b))) result }
{
    a.push_all(b.bytes())?;
    Ok(Value::Text(a))
}

fn numbers(a: i64, b: i64) -> Result<Value, JoinFault>
    ensures { Answers (joined_numbers a b) result }
{
    match a.checked_add(b) {
        Some(sum) => Ok(Value::Number(sum)),
        None => Err(JoinFault::Overflow),
    }
}

fn arrays(alloc: Global, a: List<Pair>, b: List<Pair>) -> Result<Value, JoinFault>
    ensures { Answers (Ok (Value.Array (with_pairs a b))) result }
{
    let pairs = array::with_pairs(alloc, a, b)?;
    Ok(Value::Array(pairs))
}
