//! Copies.
ghost use Rattle.std.specs.Prelude.{◌≡◌, IfOk};

use crate::{Pair, Value};
use lt_bytes::{List, NoMemory, Text};
use std::alloc::Global;

impl Value {
    /// A value that is equal to this one.
    #[cycle(copying)]
    pub fn copy(&self, alloc: Global) -> Result<Value, NoMemory>
        ensures { IfOk result (λ copy. copy ≡ self.now) }
    {
        match self {
            Value::Text(text) => Ok(Value::Text(Text::from_bytes(alloc, text.bytes())?)),
            Value::Number(number) => Ok(Value::Number(*number)),
            Value::Array(pairs) => Ok(Value::Array(copy_pairs(alloc, pairs.as_slice())?)),
        }
    }
}

#[cycle(copying)]
fn copy_pairs(alloc: Global, pairs: &[Pair]) -> Result<List<Pair>, NoMemory>
    ensures { IfOk result (λ copy. copy ≡ pairs.now) }
{
    let mut copy = List::new(alloc);
    for pair in pairs {
        copy.push(copy_pair(alloc, pair)?)?;
    }
    Ok(copy)
}

#[cycle(copying)]
fn copy_pair(alloc: Global, pair: &Pair) -> Result<Pair, NoMemory>
    ensures { IfOk result (λ copy. copy ≡ pair.now) }
{
    let key = match &pair.key {
        Some(key) => Some(Text::from_bytes(alloc, key.bytes())?),
        None => None,
    };
    let value = pair.value.copy(alloc)?;
    Ok(Pair { key, value })
}
