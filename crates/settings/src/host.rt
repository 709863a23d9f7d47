//! A host of a gateway: which are good, and what one says.
ghost use Rattle.std.specs.Prelude.{◌≡◌, ◌||◌, codes};
ghost use Rattle.std.specs.Str.{bytes_eq};
ghost use Rattle.std.specs.Option.{option_copied};
ghost use Rattle.std.specs.List.{list_any, list_all};
ghost use Rattle.conf_value.specs.declared.value.Value.{out-Value};
ghost use Rattle.conf_value.specs.declared.value.Pair.{out-Pair};
ghost use Rattle.conf_value.specs.Joining.{has_key};
ghost use Rattle.settings.specs.Gateways as spec;

use crate::rule::PortRule;
use crate::value::{bound_to, is_between, natural, pairs_in, port_of};
use conf_value::{Pair, Value, read_address};
use lt_world::Address;

/// A host that requests are handed on to.
#[derive(Clone, Copy, Debug, PartialEq, Eq)]
pub struct Host {
    pub at: Address,
    /// Whether the file of a request is looked for first.
    pub check_local: bool,
}

fn has_key(pair: &Pair, key: &[u8]) -> bool
    ensures { result ≡ has_key key.now pair.now }
{
    match &pair.key {
        Some(own) => own.bytes() == key,
        None => false,
    }
}

/// The value of the first pair with this key.
fn value_in<'a>(pairs: &'a [Pair], key: &[u8]) -> Option<&'a Value>
    ensures { option_copied result ≡ spec.value_in key.now pairs.now }
{
    for pair in pairs {
        if has_key(pair, key) {
            return Some(&pair.value);
        }
    }
    None
}

/// Whether a list of hosts is one host.
pub(crate) fn is_one(pairs: &[Pair]) -> bool
    ensures { result ≡ spec.is_one pairs.now }
{
    pairs.iter().any(|pair| has_key(pair, b"host"))
}

// ---- which hosts are good

fn is_good_address(value: Option<&Value>) -> bool
    ensures { result ≡ spec.is_good_address (option_copied value.entry) }
{
    match value {
        Some(Value::Text(text)) => read_address(text.bytes()).is_some(),
        _ => false,
    }
}

fn is_good_port(rule: PortRule, value: Option<&Value>) -> bool
    ensures { result ≡ spec.is_good_port rule (option_copied value.entry) }
{
    match value {
        Some(Value::Number(number)) => is_between(1, 65535, *number),
        Some(_) => false,
        None => may_lack(rule),
    }
}

fn may_lack(rule: PortRule) -> bool
    ensures { result ≡ spec.may_lack rule }
{
    match rule {
        PortRule::Needed => false,
        PortRule::Optional => true,
    }
}

fn is_good_switch(value: Option<&Value>) -> bool
    ensures { result ≡ spec.is_good_switch (option_copied value.entry) }
{
    match value {
        Some(Value::Text(text)) => is_switch(text.bytes()),
        Some(_) => false,
        None => true,
    }
}

fn is_switch(word: &[u8]) -> bool
    ensures { result ≡ (bytes_eq word.now (codes "enable") || bytes_eq word.now (codes "disable")) }
{
    word == b"enable".as_slice() || word == b"disable".as_slice()
}

/// Whether these pairs make a host.
pub(crate) fn is_good_host(rule: PortRule, pairs: &[Pair]) -> bool
    ensures { result ≡ spec.is_good_host rule pairs.now }
{
    is_good_address(value_in(pairs, b"host"))
        && is_good_port(rule, value_in(pairs, b"port"))
        && is_good_switch(value_in(pairs, b"check-local"))
}

// ---- what a host says

fn text_or_none(value: Option<&Value>) -> &[u8]
    ensures { result.now ≡ spec.text_or_none (option_copied value.entry) }
{
    match value {
        Some(Value::Text(text)) => text.bytes(),
        _ => b"",
    }
}

fn number_or_80(value: Option<&Value>) -> u64
    ensures { result ≡ spec.number_or_80 (option_copied value.entry) }
{
    match value {
        Some(Value::Number(number)) => natural(*number),
        _ => 80,
    }
}

/// The host that these pairs make.
pub(crate) fn host_of(pairs: &[Pair]) -> Host
    ensures { result ≡ spec.host_of pairs.now }
{
    let ip = bound_to(text_or_none(value_in(pairs, b"host")));
    let port = port_of(number_or_80(value_in(pairs, b"port")));
    let switch = text_or_none(value_in(pairs, b"check-local"));
    Host {
        at: Address {
            ip,
            port: port as u16,
        },
        check_local: switch != b"disable".as_slice(),
    }
}

/// The host in an array of hosts.
pub(crate) fn host_in(pair: &Pair) -> Host
    ensures { result ≡ spec.host_in pair.now }
{
    host_of(pairs_in(&pair.value))
}
