//! What a value says by its kind, and the rules of numbers and texts.
ghost use Rattle.std.specs.Prelude.{◌≡◌, ◌<◌, ◌≤◌, ◌^◌};
ghost use Rattle.conf_value.specs.declared.value.Value.{out-Value};
ghost use Rattle.settings.specs.Kinds as spec;

use conf_value::{Pair, Value, read_address};

/// The pairs of an array; none of another kind.
pub fn pairs_in(value: &Value) -> &[Pair]
    ensures { result.now ≡ spec.pairs_in (out-Value value.now) }
{
    match value {
        Value::Array(pairs) => pairs.as_slice(),
        Value::Number(_) | Value::Text(_) => &[],
    }
}

pub fn natural(number: i64) -> u64
    ensures { result ≡ spec.natural number }
{
    if number < 0 { 0 } else { number as u64 }
}

pub fn is_between(least: u64, most: u64, number: i64) -> bool
    ensures { result ≡ spec.is_between least most number }
{
    match u64::try_from(number) {
        Ok(number) => least <= number && number <= most,
        Err(_) => false,
    }
}

pub fn without_last_slash(text: &[u8]) -> &[u8]
    ensures { result.now ≡ spec.without_last_slash text.now }
{
    if text.ends_with(b"/") {
        &text[..text.len() - 1]
    } else {
        text
    }
}

pub fn port_of(number: u64) -> u64
    ensures value { result ≡ spec.port_of number }
    ensures within { result ≤ 65535 }
{
    if 1 <= number && number <= 65535 {
        number
    } else {
        80
    }
}

pub fn bound_to(text: &[u8]) -> [u8; 4]
    ensures { result ≡ spec.bound_to text.now }
{
    match read_address(text) {
        Some(address) => address,
        None => [0, 0, 0, 0],
    }
}

/// KiB as bytes.
pub fn bytes_of(number: u64) -> u64
    ensures value { result ≡ spec.bytes_of number }
    ensures within { result ≤ 4194304 }
{
    if number == 0 || 4096 < number {
        4096 * 1024
    } else {
        number * 1024
    }
}

pub fn one_or_more(number: u64) -> u64
    ensures { result ≡ spec.one_or_more number }
{
    if number == 0 { 1 } else { number }
}
