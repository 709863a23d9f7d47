//! A setting at its place, and what it says, or a default.
ghost use Rattle.std.specs.Prelude.{◌≡◌, option_map};
ghost use Rattle.std.specs.List.{list_any};
ghost use Rattle.settings.specs.Used as spec;

use crate::gateway::Gateways;
use crate::lent::Rules;
use crate::places::Place;
use crate::value::{natural, pairs_in};
use conf_value::{Block, Pair, Setting, Value};
use gate_hosts::Policy;

/// A setting and its place.
#[derive(Clone, Copy)]
pub(crate) struct Placed<'a> {
    place: Place,
    setting: &'a Setting,
}

/// The setting at a place.
pub(crate) fn setting_at(blocks: &[Block], place: Option<Place>) -> Option<Placed<'_>>
    ensures { option_map spec.lent_placed result ≡ spec.setting_at blocks.now place }
{
    match place {
        Some(place) => in_blocks(blocks, place),
        None => None,
    }
}

fn in_blocks(blocks: &[Block], place: Place) -> Option<Placed<'_>>
    ensures { option_map spec.lent_placed result ≡ spec.setting_at blocks.now (Some place) }
{
    match blocks.get(place.block as usize) {
        Some(block) => match block.settings.get(place.at) {
            Some(setting) => Some(Placed { place, setting }),
            None => None,
        },
        None => None,
    }
}

pub(crate) fn text_or<'a>(default: &'static [u8], found: Option<Placed<'a>>) -> &'a [u8]
    ensures { result.now ≡ spec.text_or default.now (option_map spec.lent_placed found.entry) }
{
    match found {
        Some(found) => match &found.setting.value {
            Value::Text(text) => text.bytes(),
            Value::Number(_) | Value::Array(_) => default,
        },
        None => default,
    }
}

pub(crate) fn number_or(default: u64, found: Option<Placed<'_>>) -> u64
    ensures { result ≡ spec.number_or default (option_map spec.lent_placed found.entry) }
{
    match found {
        Some(found) => match &found.setting.value {
            Value::Number(number) => natural(*number),
            Value::Text(_) | Value::Array(_) => default,
        },
        None => default,
    }
}

pub(crate) fn pairs_or_none<'a>(found: Option<Placed<'a>>) -> &'a [Pair]
    ensures { result.now ≡ spec.pairs_or_none (option_map spec.lent_placed found.entry) }
{
    match found {
        Some(found) => pairs_in(&found.setting.value),
        None => &[],
    }
}

pub(crate) fn rules_or_none<'a>(found: Option<Placed<'a>>) -> Rules<'a>
    ensures { spec.rules_seen result ≡ spec.rules_or_none (option_map spec.lent_placed found.entry) }
{
    match found {
        Some(found) => Rules {
            block: found.place.block,
            first_pattern: found.setting.first_pattern,
            rules: pairs_in(&found.setting.value),
        },
        None => Rules {
            block: 0,
            first_pattern: 0,
            rules: &[],
        },
    }
}

pub(crate) fn gateways_or_none<'a>(found: Option<Placed<'a>>) -> Gateways<'a>
    ensures { spec.gateways_seen result ≡ spec.gateways_or_none (option_map spec.lent_placed found.entry) }
{
    match found {
        Some(found) => Gateways {
            first_list: found.place.first_list,
            entries: pairs_in(&found.setting.value),
        },
        None => Gateways {
            first_list: 0,
            entries: &[],
        },
    }
}

/// How hosts share requests, by its word.
pub(crate) fn policy_of(word: &[u8]) -> Policy
    ensures { result ≡ spec.policy_of word.now }
{
    if word == b"round-robin".as_slice() {
        Policy::RoundRobin
    } else {
        Policy::Fair
    }
}

fn is_name(name: &[u8], pair: &Pair) -> bool
    ensures { result ≡ spec.is_name name.now pair.now }
{
    match &pair.value {
        Value::Text(text) => text.bytes() == name,
        Value::Number(_) | Value::Array(_) => name.is_empty(),
    }
}

fn is_named(name: &[u8], modules: &[Pair]) -> bool
    ensures { result ≡ list_any (spec.is_name name.now) modules.now }
{
    modules.iter().any(|pair| is_name(name, pair))
}

/// What a key of a module is set to, where the module is named.
pub(crate) fn of_module<'a>(
    name: &'static [u8],
    modules: &[Pair],
    found: Option<Placed<'a>>,
) -> Option<Placed<'a>>
    ensures { option_map spec.lent_placed result ≡ spec.of_module name.now modules.now (option_map spec.lent_placed found.entry) }
{
    if is_named(name, modules) { found } else { None }
}
