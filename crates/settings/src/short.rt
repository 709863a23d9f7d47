//! Whether the texts of nested arrays are short.
ghost use Rattle.std.specs.Prelude.{◌≡◌};
ghost use Rattle.std.specs.Option.{option_copied};
ghost use Rattle.conf_value.specs.declared.value.Value.{out-Value};
ghost use Rattle.settings.specs.Checking as spec;

use crate::checking::is_short;
use conf_value::{Pair, Value};
use lt_bytes::Text;

/// Whether arrays are nested at most so deep in these pairs, counted themselves, and every text is short.
#[cycle(short)]
pub(crate) fn are_short(depth: u32, pairs: &[Pair]) -> bool
    ensures { result ≡ spec.are_short depth pairs.now }
{
    if depth == 0 {
        return false;
    }
    for pair in pairs {
        if !pair_is_short(depth - 1, pair) {
            return false;
        }
    }
    true
}

#[cycle(short)]
fn pair_is_short(depth: u32, pair: &Pair) -> bool
    ensures { result ≡ spec.pair_is_short (spec.are_short depth) pair.now }
{
    key_is_short(pair.key.as_ref()) && value_is_short(depth, &pair.value)
}

fn key_is_short(key: Option<&Text>) -> bool
    ensures { result ≡ spec.key_is_short (option_copied key.entry) }
{
    match key {
        Some(key) => is_short(key.bytes()),
        None => true,
    }
}

#[cycle(short)]
fn value_is_short(depth: u32, value: &Value) -> bool
    ensures { result ≡ spec.value_is_short (spec.are_short depth) (out-Value value.now) }
{
    match value {
        Value::Text(text) => is_short(text.bytes()),
        Value::Number(_) => true,
        Value::Array(pairs) => are_short(depth, pairs.as_slice()),
    }
}
