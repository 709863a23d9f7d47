//! Whether the entries of a gateway value are good.
ghost use Rattle.std.specs.Prelude.{◌≡◌};
ghost use Rattle.std.specs.List.{list_all, list_any};
ghost use Rattle.conf_value.specs.declared.value.Value.{out-Value};
ghost use Rattle.settings.specs.Gateways as spec;

use crate::host::{is_good_host, is_one};
use crate::rule::PortRule;
use crate::value::pairs_in;
use conf_value::{Pair, Value};

/// The most hosts of an entry.
const MOST_HOSTS: usize = 16;

fn is_good_item(rule: PortRule, pair: &Pair) -> bool
    ensures { result ≡ spec.is_good_item rule pair.now }
{
    match &pair.value {
        Value::Array(pairs) => is_good_host(rule, pairs.as_slice()),
        Value::Number(_) | Value::Text(_) => false,
    }
}

fn are_good_items(rule: PortRule, pairs: &[Pair]) -> bool
    ensures { result ≡ list_all (spec.is_good_item rule) pairs.now }
{
    pairs.iter().all(|pair| is_good_item(rule, pair))
}

fn are_good_hosts(rule: PortRule, pairs: &[Pair]) -> bool
    ensures { result ≡ spec.are_good_hosts rule pairs.now }
{
    if is_one(pairs) {
        is_good_host(rule, pairs)
    } else {
        1 <= pairs.len() && pairs.len() <= MOST_HOSTS && are_good_items(rule, pairs)
    }
}

fn is_good_gateway(rule: PortRule, pair: &Pair) -> bool
    ensures { result ≡ spec.is_good_gateway rule pair.now }
{
    match &pair.value {
        Value::Array(pairs) => pair.key.is_some() && are_good_hosts(rule, pairs.as_slice()),
        Value::Number(_) | Value::Text(_) => false,
    }
}

/// Whether each entry has a key and hosts.
pub(crate) fn are_good(rule: PortRule, pairs: &[Pair]) -> bool
    ensures { result ≡ list_all (spec.is_good_gateway rule) pairs.now }
{
    pairs.iter().all(|pair| is_good_gateway(rule, pair))
}

// ---- parts without effect

fn is_further(pair: &Pair) -> bool
    ensures { result ≡ spec.is_further pair.now }
{
    match &pair.key {
        Some(key) => !is_known_key(key.bytes()),
        None => true,
    }
}

fn is_known_key(key: &[u8]) -> bool
    ensures { result ≡ spec.is_known_key key.now }
{
    key == b"host".as_slice() || key == b"port".as_slice() || key == b"check-local".as_slice()
}

fn are_further(pairs: &[Pair]) -> bool
    ensures { result ≡ list_any spec.is_further pairs.now }
{
    pairs.iter().any(is_further)
}

fn has_further(pair: &Pair) -> bool
    ensures { result ≡ spec.has_further pair.now }
{
    are_further(pairs_in(&pair.value))
}

fn many_have_further(pairs: &[Pair]) -> bool
    ensures { result ≡ list_any spec.has_further pairs.now }
{
    pairs.iter().any(has_further)
}

fn have_further(pairs: &[Pair]) -> bool
    ensures { result ≡ spec.have_further pairs.now }
{
    if is_one(pairs) {
        are_further(pairs)
    } else {
        many_have_further(pairs)
    }
}

fn entry_has_further(pair: &Pair) -> bool
    ensures { result ≡ spec.entry_has_further pair.now }
{
    have_further(pairs_in(&pair.value))
}

/// Whether a host in one of the entries has a pair that says nothing.
pub(crate) fn any_has_further(pairs: &[Pair]) -> bool
    ensures { result ≡ list_any spec.entry_has_further pairs.now }
{
    pairs.iter().any(entry_has_further)
}
