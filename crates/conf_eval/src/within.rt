//! How deep the arrays of a value are nested.
ghost use Rattle.std.specs.Prelude.{◌≡◌};
ghost use Rattle.conf_eval.specs.Values.{array_within, within};

use conf_value::{Pair, Value};

/// Whether the value has arrays nested at most so deep.
#[cycle(within)]
pub fn is_within(depth: u32, value: &Value) -> bool
    ensures { result ≡ within depth value.now }
{
    match value {
        Value::Text(_) => true,
        Value::Number(_) => true,
        Value::Array(pairs) => is_array_within(depth, pairs.as_slice()),
    }
}

#[cycle(within)]
fn is_array_within(depth: u32, pairs: &[Pair]) -> bool
    ensures { result ≡ array_within depth pairs.now }
{
    if depth == 0 {
        return false;
    }
    for pair in pairs {
        if !is_within(depth - 1, &pair.value) {
            return false;
        }
    }
    true
}
